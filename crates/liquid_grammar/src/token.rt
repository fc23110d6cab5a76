//! Tokens, expressions and tags.
ghost use Rattle.std.specs.Prelude.{◌≡◌, ◌<◌, ◌≤◌, ◌++◌, length, Some, IfSome, option_map};
ghost use Rattle.liquid_grammar.specs.meaning.Tokens as spec;
ghost use Rattle.liquid_grammar.specs.meaning.Faults.{range_fault, token_fault, first_fault};
ghost use Rattle.liquid_grammar.specs.meaning.KindMeanings.{FindsKind};
ghost use Rattle.liquid_grammar.specs.meaning.Meanings.{Scans, SeesTag, SeesChain};
ghost use Rattle.liquid_grammar.specs.meaning.Parts.{HasEnds};
ghost use Rattle.liquid_grammar.specs.steps.Steps.{Splits, Leaves};
ghost use Rattle.liquid_grammar.specs.steps.Steps as step;
ghost use Rattle.liquid_grammar.specs.steps.TokenSteps as read;

use crate::bytes::{begins_value, byte_at};
use crate::fault::Fault;
use crate::filter::{chain, chain_and_kind};
use crate::kind::TokenKind;
use crate::name::identifier;
use crate::opener::{closer, opener};
use crate::text::{eat, skip_white};
use crate::value::value;

/// A tag that was matched: the text from its name on, the text after its name, its first fault, and what follows it.
#[derive(Clone, Copy)]
pub(crate) struct TagMatch<'a> {
    pub(crate) place: &'a str,
    pub(crate) name: &'a str,
    pub(crate) tokens: &'a str,
    pub(crate) fault: Option<Fault<'a>>,
    pub(crate) rest: &'a str,
}

/// Matches the tag that the text begins with.
#[tactic(auto, unfolding(crate::specs::steps::TokenSteps::tag))]
pub(crate) fn tag<'a>(s: &'a str) -> Option<TagMatch<'a>>
    ensures value { SeesTag (option_map (λ t. (t.name, t.tokens, t.fault, t.rest)) result) (read.tag s.now) }
    ensures place { IfSome result (λ t. t.place.now ≡ t.name.now ++ t.tokens.now) }
    ensures shorter { IfSome result (λ t. length t.rest.now < length s.now) }
{
    let (place, name, start) = tag_start(s)?;
    let (fault, rest) = tokens(start);
    Some(TagMatch {
        place,
        name,
        tokens: start,
        fault,
        rest: closer(skip_white(rest), b'%')?,
    })
}

/// Returns the text from the name on of a tag that may begin here, the name, and what follows it.
#[tactic(auto, unfolding(crate::specs::steps::TokenSteps::tag_start), using(crate::proofs::PartLemmas::identifier_joined))]
fn tag_start(s: &str) -> Option<(&str, &str, &str)>
    ensures value { Splits (option_map (λ p. (p.1, p.2)) result) (read.tag_start s.now) }
    ensures place { IfSome result (λ p. p.0.now ≡ p.1.now ++ p.2.now) }
    ensures shorter { IfSome result (λ p. length p.2.now < length s.now) }
{
    let place = skip_white(opener(s, b'%')?);
    let (name, rest) = identifier(place)?;
    Some((place, name, rest))
}

/// Matches the expression that the text begins with. Returns the text from its chain on, the chain's kind, its first
/// fault, and what follows it.
#[inline(always)]
#[tactic(auto, unfolding(crate::specs::steps::TokenSteps::full_expression, crate::specs::steps::TokenSteps::chain_of))]
pub(crate) fn expression<'a>(
    s: &'a str,
) -> Option<(&'a str, TokenKind<'a>, Option<Fault<'a>>, &'a str)>
    ensures kind { FindsKind (option_map (λ p. p.1) result) (read.full_expression s.now) }
    ensures value { SeesChain (option_map (λ p. (p.0, p.2, p.3)) result) (read.full_expression s.now) }
    ensures shorter { IfSome result (λ x. length x.3.now < length s.now) }
{
    let start = expression_start(s)?;
    let (kind, fault, rest) = chain_and_kind(start)?;
    Some((start, kind, fault, closer(skip_white(rest), b'}')?))
}

#[tactic(auto, unfolding(crate::specs::steps::TokenSteps::expression_start))]
fn expression_start(s: &str) -> Option<&str>
    ensures value { Leaves result (read.expression_start s.now) }
    ensures shorter { IfSome result (λ rest. length rest.now < length s.now) }
{
    Some(skip_white(opener(s, b'{')?))
}

/// Matches all tokens, each after whitespace or none. Returns their first fault and what follows them.
fn tokens<'a>(s: &'a str) -> (Option<Fault<'a>>, &'a str)
    ensures value { Scans (first_fault token_fault) (Some result) (read.repeated (step.right step.white read.token) s.now) }
    ensures shorter { length result.1.now ≤ length s.now }
{
    let mut fault = None;
    let mut rest = s;
    'tokens: while let Some((found, after)) = next_token(rest) {
        fault = fault.or(found);
        rest = after;
    }
    (fault, rest)
}

fn next_token<'a>(s: &'a str) -> Option<(Option<Fault<'a>>, &'a str)>
    ensures value { Scans token_fault result (step.right step.white read.token s.now) }
    ensures shorter { IfSome result (λ x. length x.1.now < length s.now) }
{
    token(skip_white(s))
}

/// Matches a token. Returns its first fault and what follows it. The first byte decides which token it can be.
pub(crate) fn token<'a>(s: &'a str) -> Option<(Option<Fault<'a>>, &'a str)>
    ensures value { Scans token_fault result (read.token s.now) }
    ensures shorter { IfSome result (λ x. length x.1.now < length s.now) }
{
    let first = byte_at(s.as_bytes(), 0);
    if first == b'(' {
        range(s)
    } else if begins_value(first) {
        chain(s)
    } else {
        Some((None, symbol(s)?))
    }
}

pub(crate) fn range<'a>(s: &'a str) -> Option<(Option<Fault<'a>>, &'a str)>
    ensures value { Scans range_fault result (read.ranged s.now) }
    ensures shorter { IfSome result (λ x. length x.1.now < length s.now) }
{
    let (_, _, fault, rest) = range_parts(s)?;
    Some((fault, rest))
}

/// Returns the texts from the two values of a range on, its first fault, and what follows it.
#[inline(always)]
pub(crate) fn range_parts<'a>(s: &'a str) -> Option<(&'a str, &'a str, Option<Fault<'a>>, &'a str)>
    ensures value { Scans range_fault (option_map (λ p. (p.2, p.3)) result) (read.ranged s.now) }
    ensures ends { IfSome result (λ p. HasEnds s.now p.3.now p.0.now p.1.now) }
    ensures shorter { IfSome result (λ p. length p.3.now < length s.now) }
{
    let start = range_start(s)?;
    let (first, rest) = value(start)?;
    let stop = dots(rest)?;
    let (second, rest) = value(stop)?;
    let rest = range_end(rest)?;
    Some((start, stop, first.or(second), rest))
}

#[tactic(auto, unfolding(crate::specs::steps::TokenSteps::range_start))]
fn range_start(s: &str) -> Option<&str>
    ensures value { Leaves result (read.range_start s.now) }
    ensures shorter { IfSome result (λ rest. length rest.now < length s.now) }
{
    Some(skip_white(eat(s, b'(')?))
}

#[tactic(auto, unfolding(crate::specs::steps::TokenSteps::range_end))]
fn range_end(s: &str) -> Option<&str>
    ensures value { Leaves result (read.range_end s.now) }
    ensures shorter { IfSome result (λ rest. length rest.now < length s.now) }
{
    eat(skip_white(s), b')')
}

#[tactic(auto, unfolding(crate::specs::steps::TokenSteps::dots))]
fn dots(s: &str) -> Option<&str>
    ensures value { Leaves result (read.dots s.now) }
    ensures shorter { IfSome result (λ rest. length rest.now < length s.now) }
{
    Some(skip_white(eat(eat(skip_white(s), b'.')?, b'.')?))
}

/// Returns what follows the longest symbol that the text begins with.
#[tactic(auto, unfolding(crate::specs::steps::TokenSteps::symbol_of))]
pub(crate) fn symbol(s: &str) -> Option<&str>
    ensures value { Leaves result (read.symbol_of s.now) }
    ensures shorter { IfSome result (λ rest. length rest.now < length s.now) }
{
    let bytes = s.as_bytes();
    if bytes.len() > 1 && is_double(bytes[0], bytes[1]) {
        Some(&s[2..])
    } else if bytes.len() > 0 && is_single(bytes[0]) {
        Some(&s[1..])
    } else {
        None
    }
}

fn is_double(first: u8, second: u8) -> bool
    ensures { result ≡ spec.is_double (first, second) }
{
    second == b'=' && (first == b'<' || first == b'>' || first == b'=' || first == b'!')
        || first == b'<' && second == b'>'
}

fn is_single(byte: u8) -> bool
    ensures { result ≡ spec.is_single byte }
{
    byte == b'<' || byte == b'>' || byte == b'=' || byte == b',' || byte == b':'
}
