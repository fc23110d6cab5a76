//! The parts of a matched text, returned from left to right, so that a builder walks the text once.
ghost use Rattle.std.specs.Prelude.{◌≡◌, ℕ, false, List, ◌<◌, ◌++◌, length, IfSome, MatchOption};
ghost use Rattle.liquid_grammar.specs.meaning.Rules.{Begins, Repeated, ◌▷◌};
ghost use Rattle.liquid_grammar.specs.meaning.Bytes.{bar, colon};
ghost use Rattle.liquid_grammar.specs.meaning.Grammar.{White};
ghost use Rattle.liquid_grammar.specs.meaning.Values.{Value, Index, CloseBracket, ValueRule, IndexRule};
ghost use Rattle.liquid_grammar.specs.meaning.Tokens.{Argument, Filter, Token, Following, FilterRule, TokenRule};
ghost use Rattle.liquid_grammar.specs.meaning.Parts as part;
ghost use Rattle.liquid_grammar.specs.meaning.Parts.{NoneLeft, First, IsHead, HasHead, IsIndex, IsFilter, ArgumentsFrom, IsArgument};
ghost use Rattle.liquid_grammar.specs.meaning.Parts.{HasParts, IsToken, OpensExpression, ClosesExpression};
ghost use Rattle.liquid_grammar.specs.meaning.Parts.{IsStep, Unclosed, step_rest};
ghost use Rattle.liquid_grammar.specs.steps.Heads.{HasColon};

use crate::bracket::{self, match_bracket};
use crate::bytes::{begins_index, begins_value, byte_at};
use crate::filter::{chain_and_kind, following};
use crate::head::{Head, head_of_word, read_head};
use crate::kind::TokenKind;
use crate::literal::text_or_number;
use crate::name::identifier;
use crate::opener::{braces, closer};
use crate::text::{before, eat, skip_white};
use crate::token::{range_parts, symbol};
use crate::value::read_named_index;

/// How an index begins.
#[derive(Clone, Copy, Debug, PartialEq, Eq)]
pub enum IndexStart<'a> {
    /// A name after `.`.
    Named(&'a str),
    /// `[`, with the value of the index after it.
    Bracket,
}

/// How a filter begins.
#[derive(Clone, Copy, Debug, PartialEq, Eq)]
pub struct FilterStart<'a> {
    /// The text from the filter's name on.
    pub place: &'a str,
    pub name: &'a str,
    /// What follows the name: the filter's arguments, if it has any.
    pub rest: &'a str,
}

/// What follows a value or a filter of an expression.
#[derive(Clone, Copy, Debug, PartialEq, Eq)]
pub enum ChainStep<'a> {
    /// The next filter.
    Filter(FilterStart<'a>),
    /// The expression's end, with what follows it.
    End(&'a str),
}

/// How an argument begins.
#[derive(Clone, Copy, Debug, PartialEq, Eq)]
pub struct ArgumentStart<'a> {
    /// The name of a keyword argument.
    pub name: Option<&'a str>,
    /// How the argument's value begins.
    pub head: Head<'a>,
    /// What follows that.
    pub rest: &'a str,
}

/// What a token is made of.
#[derive(Clone, Copy, Debug, PartialEq, Eq)]
pub enum TokenParts<'a> {
    /// The texts from the two values of a range on.
    Range { start: &'a str, stop: &'a str },
    /// A chain, which begins where the token does, and what it is.
    Chain(TokenKind<'a>),
    /// The text of a symbol.
    Symbol(&'a str),
}

/// A token of a tag.
#[derive(Clone, Copy, Debug, PartialEq, Eq)]
pub struct TokenText<'a> {
    /// The text from the token on.
    pub place: &'a str,
    /// The text of the token.
    pub text: &'a str,
    pub parts: TokenParts<'a>,
    /// What follows the token.
    pub rest: &'a str,
}

/// Returns what follows `{{`, the dash after it if there is one, and whitespace. Returns `None` if the text doesn't
/// begin with `{{`.
pub fn expression_start(s: &str) -> Option<&str>
    ensures opens { IfSome result (λ start. OpensExpression s.now start.now) }
    ensures shorter { IfSome result (λ start. length start.now < length s.now) }
{
    let inside = braces(s, b'{')?;
    match eat(inside, b'-') {
        Some(following) => Some(skip_white(following)),
        None => Some(skip_white(inside)),
    }
}

/// Returns what follows an expression's end and the whitespace before it. Returns `None` if no expression ends here.
pub fn expression_end(s: &str) -> Option<&str>
    ensures closes { IfSome result (λ rest. ClosesExpression s.now rest.now) }
    ensures shorter { IfSome result (λ rest. length rest.now < length s.now) }
{
    closer(skip_white(s), b'}')
}

/// Returns the literal or the name that a value begins with, and what follows it. Returns `None` if no value begins
/// here.
pub fn value_head(s: &str) -> Option<(Head<'_>, &str)>
    ensures found { MatchOption result (¬ (Begins ValueRule s.now)) (λ p. HasHead s.now p.0 p.1.now) }
    ensures only { (rest : List ℕ) (v : Value) → ValueRule s.now rest v
        → MatchOption result ⊥ (λ p. IsHead s.now rest p.0 p.1.now v) }
    ensures shorter { IfSome result (λ p. length p.1.now < length s.now) }
{
    read_head(s)
}

/// Returns the beginning of the next index of a variable inside this many open brackets, and what follows it. Returns
/// `None` if no index is left.
pub fn next_index<'a>(s: &'a str, depth: usize) -> Option<(IndexStart<'a>, &'a str)>
    ensures only { (rest : List ℕ) (is : List Index) → Repeated IndexRule s.now rest is
        → (0 < depth → Begins CloseBracket rest)
        → MatchOption result (NoneLeft s.now rest is)
        (λ p. First (IsIndex s.now p.0 p.1.now) (Repeated IndexRule) rest is) }
    ensures shorter { IfSome result (λ p. length p.1.now < length s.now) }
{
    if !begins_index(byte_at(s.as_bytes(), 0)) {
        return None;
    }
    match read_named_index(s) {
        Some((name, rest)) => Some((IndexStart::Named(name), rest)),
        None if depth == 0 => {
            let _ = match_bracket(s)?;
            Some((IndexStart::Bracket, bracket::open_bracket(s)?))
        }
        // Inside brackets, a bracket here begins an index: otherwise nothing would close the open ones.
        None => Some((IndexStart::Bracket, bracket::open_bracket(s)?)),
    }
}

/// Returns what follows a close bracket and the whitespace before it.
pub fn close_bracket(s: &str) -> Option<&str>
    ensures found { MatchOption result (¬ (Begins CloseBracket s.now)) (λ rest. (byte : ℕ) × CloseBracket s.now rest.now byte) }
    ensures only { (rest : List ℕ) (byte : ℕ) → CloseBracket s.now rest byte → MatchOption result ⊥ (λ after. after.now ≡ rest) }
    ensures shorter { IfSome result (λ rest. length rest.now < length s.now) }
{
    bracket::close_bracket(s)
}

/// Returns the beginning of the next filter of a chain. Returns `None` if no filter is left.
pub fn next_filter(s: &str) -> Option<FilterStart<'_>>
    ensures only { (rest : List ℕ) (filters : List Filter) → Repeated (Following bar FilterRule) s.now rest filters
        → MatchOption result (NoneLeft s.now rest filters)
        (λ f. First (IsFilter f) (Repeated (Following bar FilterRule)) rest filters) }
    ensures shorter { IfSome result (λ f. length f.rest.now < length s.now) }
{
    let place = following(s, b'|')?;
    let (name, rest) = identifier(place)?;
    Some(FilterStart { place, name, rest })
}

/// Returns the beginning of the next filter of an expression's chain, or the expression's end. Returns `None` if
/// neither is here.
///
/// The whitespace before both is walked once.
pub fn chain_step(s: &str) -> Option<ChainStep<'_>>
    ensures only { (rest : List ℕ) (filters : List Filter) → Repeated (Following bar FilterRule) s.now rest filters
        → MatchOption result (Unclosed s.now rest filters) (λ step. IsStep s.now step rest filters) }
    ensures shorter { IfSome result (λ step. length (step_rest step) < length s.now) }
{
    let here = skip_white(s);
    match eat(here, b'|') {
        Some(following) => {
            let place = skip_white(following);
            let (name, rest) = identifier(place)?;
            Some(ChainStep::Filter(FilterStart { place, name, rest }))
        }
        None => Some(ChainStep::End(closer(here, b'}')?)),
    }
}

/// Returns the beginning of the next argument of a filter, or of its first one, which follows the filter's name.
/// Returns `None` if no argument is left.
///
/// The identifier that it begins with is read once. It is the argument's name if a colon and a value follow it;
/// otherwise the value begins with it.
pub fn next_argument(s: &str, is_first: bool) -> Option<ArgumentStart<'_>>
    ensures only { (rest : List ℕ) (arguments : List Argument) → ArgumentsFrom is_first s.now rest arguments
        → MatchOption result (NoneLeft s.now rest arguments)
        (λ a. First (IsArgument a) (ArgumentsFrom false) rest arguments) }
    ensures shorter { IfSome result (λ a. length a.rest.now < length s.now) }
{
    let place = following(s, separator(is_first))?;
    match identifier(place) {
        Some((word, rest)) => match head_after_colon(rest) {
            Some((head, rest)) => Some(ArgumentStart {
                name: Some(word),
                head,
                rest,
            }),
            None => Some(ArgumentStart {
                name: None,
                head: head_of_word(word),
                rest,
            }),
        },
        None => {
            let (literal, rest) = text_or_number(place)?;
            Some(ArgumentStart {
                name: None,
                head: Head::Literal(literal),
                rest,
            })
        }
    }
}

fn separator(is_first: bool) -> u8
    ensures value { result ≡ part.separator is_first }
    ensures ascii { result < 128 }
{
    if is_first { b':' } else { b',' }
}

/// Returns how the value after a colon begins, and what follows that.
fn head_after_colon(s: &str) -> Option<(Head<'_>, &str)>
    ensures value { MatchOption result (¬ (Begins (Following colon ValueRule) s.now)) (λ p. HasColon s.now p.0 p.1.now) }
    ensures shorter { IfSome result (λ p. length p.1.now < length s.now) }
{
    value_head(following(s, b':')?)
}

/// Returns the next token of a tag. Returns `None` if no token is left.
pub fn next_token(s: &str) -> Option<TokenText<'_>>
    ensures only { (rest : List ℕ) (tokens : List Token) → Repeated (White ▷ TokenRule) s.now rest tokens
        → MatchOption result (NoneLeft s.now rest tokens)
        (λ t. First (IsToken t) (Repeated (White ▷ TokenRule)) rest tokens) }
    ensures cut { IfSome result (λ t. t.place.now ≡ t.text.now ++ t.rest.now) }
    ensures shorter { IfSome result (λ t. length t.rest.now < length s.now) }
{
    let place = skip_white(s);
    let (parts, rest) = token_parts(place)?;
    Some(TokenText {
        place,
        text: before(place, rest),
        parts,
        rest,
    })
}

/// Returns the parts of the token that begins here, and what follows it. The first byte decides which of them it can
/// be.
fn token_parts(place: &str) -> Option<(TokenParts<'_>, &str)>
    ensures value { MatchOption result (¬ (Begins TokenRule place.now))
        (λ p. (token : Token) × TokenRule place.now p.1.now token × HasParts p.0 place.now p.1.now token) }
    ensures shorter { IfSome result (λ p. length p.1.now < length place.now) }
{
    let first = byte_at(place.as_bytes(), 0);
    if first == b'(' {
        let (start, stop, _, rest) = range_parts(place)?;
        Some((TokenParts::Range { start, stop }, rest))
    } else if begins_value(first) {
        let (kind, _, rest) = chain_and_kind(place)?;
        Some((TokenParts::Chain(kind), rest))
    } else {
        let rest = symbol(place)?;
        Some((TokenParts::Symbol(before(place, rest)), rest))
    }
}
