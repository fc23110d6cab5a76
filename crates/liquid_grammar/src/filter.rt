//! Arguments, filters and chains.
ghost use Rattle.std.specs.Prelude.{◌≡◌, ℕ, List, ◌<◌, ◌≤◌, length, Some, IfSome, option_map};
ghost use Rattle.liquid_grammar.specs.meaning.Bytes.{bar, comma};
ghost use Rattle.liquid_grammar.specs.meaning.Faults.{argument_fault, filter_fault, value_fault, chain_fault, first_fault};
ghost use Rattle.liquid_grammar.specs.meaning.KindMeanings.{FindsKind, FindsValueKind};
ghost use Rattle.liquid_grammar.specs.meaning.Meanings.{Scans};
ghost use Rattle.liquid_grammar.specs.steps.Steps.{Splits, Leaves};
ghost use Rattle.liquid_grammar.specs.steps.TokenSteps as read;

use crate::bytes::byte_at;
use crate::fault::Fault;
use crate::kind::TokenKind;
use crate::name::identifier;
use crate::text::{eat, skip_white};
use crate::value::{value, value_and_kind};

/// Matches a chain at the beginning of the text. Returns its first fault and what follows it.
pub(crate) fn chain<'a>(s: &'a str) -> Option<(Option<Fault<'a>>, &'a str)>
    ensures value { Scans chain_fault result (read.chain_of s.now) }
    ensures shorter { IfSome result (λ x. length x.1.now < length s.now) }
{
    let (_, fault, rest) = chain_and_kind(s)?;
    Some((fault, rest))
}

/// Matches a chain as `chain` does. Returns its kind, its first fault and what follows it.
#[inline(always)]
pub(crate) fn chain_and_kind<'a>(s: &'a str) -> Option<(TokenKind<'a>, Option<Fault<'a>>, &'a str)>
    ensures kind { FindsKind (option_map (λ p. p.0) result) (read.chain_of s.now) }
    ensures value { Scans chain_fault (option_map (λ p. (p.1, p.2)) result) (read.chain_of s.now) }
    ensures shorter { IfSome result (λ x. length x.2.now < length s.now) }
{
    let (kind, first, rest) = value_and_kind(s)?;
    if begins_filter(rest) {
        Some(match_filters(kind, first, rest))
    } else {
        Some((kind, first, rest))
    }
}

/// Matches the filters after a value of this kind and fault. Returns the kind and the first fault of the chain, and
/// what follows it.
///
/// It is a function of its own, so that no room is made for filters if a value has none.
#[inline(never)]
fn match_filters<'a>(
    kind: TokenKind<'a>,
    first: Option<Fault<'a>>,
    rest: &'a str,
) -> (TokenKind<'a>, Option<Fault<'a>>, &'a str)
    ensures kind { (s : List ℕ) → FindsValueKind (Some (kind.entry, rest.entry)) (read.value s)
        → FindsKind (Some result.0) (read.chain_of s) }
    ensures value { (s : List ℕ) → Scans value_fault (Some (first.entry, rest.entry)) (read.value s)
        → Scans chain_fault (Some (result.1, result.2)) (read.chain_of s) }
    ensures shorter { length result.2.now ≤ length rest.now }
{
    match next_filter(rest) {
        Some((second, following)) => {
            let (others, end) = filters(following);
            (TokenKind::Filtered, first.or(second.or(others)), end)
        }
        None => (kind, first, rest),
    }
}

/// Returns `true` if `|` comes next after whitespace, as before each filter.
#[inline]
fn begins_filter(s: &str) -> bool
    ensures { result ≡ read.begins_filter s.now }
{
    byte_at(skip_white(s).as_bytes(), 0) == b'|'
}

/// Matches all filters, each after `|`. Returns their first fault and what follows them.
fn filters<'a>(s: &'a str) -> (Option<Fault<'a>>, &'a str)
    ensures value { Scans (first_fault filter_fault) (Some result) (read.repeated (read.following bar read.filter) s.now) }
    ensures shorter { length result.1.now ≤ length s.now }
{
    let mut fault = None;
    let mut rest = s;
    'filters: while let Some((found, after)) = next_filter(rest) {
        fault = fault.or(found);
        rest = after;
    }
    (fault, rest)
}

fn next_filter<'a>(s: &'a str) -> Option<(Option<Fault<'a>>, &'a str)>
    ensures value { Scans filter_fault result (read.following bar read.filter s.now) }
    ensures shorter { IfSome result (λ x. length x.1.now < length s.now) }
{
    filter(following(s, b'|')?)
}

#[tactic(auto, unfolding(crate::specs::steps::TokenSteps::filter))]
pub(crate) fn filter<'a>(s: &'a str) -> Option<(Option<Fault<'a>>, &'a str)>
    ensures value { Scans filter_fault result (read.filter s.now) }
    ensures shorter { IfSome result (λ x. length x.1.now < length s.now) }
{
    let (_, rest) = identifier(s)?;
    match arguments(rest) {
        Some(found) => Some(found),
        None => Some((None, rest)),
    }
}

#[tactic(auto, unfolding(crate::specs::steps::TokenSteps::arguments))]
fn arguments<'a>(s: &'a str) -> Option<(Option<Fault<'a>>, &'a str)>
    ensures value { Scans (first_fault argument_fault) result (read.arguments s.now) }
    ensures shorter { IfSome result (λ x. length x.1.now < length s.now) }
{
    let (first, rest) = argument(following(s, b':')?)?;
    let (others, rest) = more_arguments(rest);
    Some((first.or(others), rest))
}

/// Matches all further arguments, each after a comma. Returns their first fault and what follows them.
fn more_arguments<'a>(s: &'a str) -> (Option<Fault<'a>>, &'a str)
    ensures value { Scans (first_fault argument_fault) (Some result) (read.repeated (read.following comma read.argument) s.now) }
    ensures shorter { length result.1.now ≤ length s.now }
{
    let mut fault = None;
    let mut rest = s;
    'arguments: while let Some((found, after)) = next_argument(rest) {
        fault = fault.or(found);
        rest = after;
    }
    (fault, rest)
}

fn next_argument<'a>(s: &'a str) -> Option<(Option<Fault<'a>>, &'a str)>
    ensures value { Scans argument_fault result (read.following comma read.argument s.now) }
    ensures shorter { IfSome result (λ x. length x.1.now < length s.now) }
{
    argument(following(s, b',')?)
}

#[tactic(auto, unfolding(crate::specs::steps::TokenSteps::argument))]
pub(crate) fn argument<'a>(s: &'a str) -> Option<(Option<Fault<'a>>, &'a str)>
    ensures value { Scans argument_fault result (read.argument s.now) }
    ensures shorter { IfSome result (λ x. length x.1.now < length s.now) }
{
    match keyword(s) {
        Some(found) => Some(found),
        None => value(s),
    }
}

fn keyword<'a>(s: &'a str) -> Option<(Option<Fault<'a>>, &'a str)>
    ensures value { Scans argument_fault result (read.keyword_argument s.now) }
    ensures shorter { IfSome result (λ x. length x.1.now < length s.now) }
{
    value(keyword_start(s)?.1)
}

/// Returns the identifier before `:`, and what follows the colon and its whitespace.
#[tactic(auto, unfolding(crate::specs::steps::TokenSteps::keyword_start))]
fn keyword_start(s: &str) -> Option<(&str, &str)>
    ensures value { Splits result (read.keyword_start s.now) }
    ensures shorter { IfSome result (λ x. length x.1.now < length s.now) }
{
    let (name, rest) = identifier(s)?;
    Some((name, skip_white(eat(skip_white(rest), b':')?)))
}

/// Returns what follows a separator between whitespace.
pub(crate) fn following(s: &str, separator: u8) -> Option<&str>
    requires { separator < 128 }
    ensures value { Leaves result (read.separated separator s.now) }
    ensures shorter { IfSome result (λ rest. length rest.now < length s.now) }
{
    Some(skip_white(eat(skip_white(s), separator)?))
}
