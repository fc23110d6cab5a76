//! Values: literals, and variables with their indexes.
ghost use Rattle.std.specs.Prelude.{◌≡◌, ℕ, List, ◌<◌, ◌≤◌, length, None, Some, IfSome, option_map};
ghost use Rattle.liquid_grammar.specs.meaning.Values.{gather};
ghost use Rattle.liquid_grammar.specs.meaning.Faults.{value_fault, indexes_fault, index_fault};
ghost use Rattle.liquid_grammar.specs.meaning.KindMeanings.{FindsValueKind};
ghost use Rattle.liquid_grammar.specs.meaning.Meanings.{Scans};
ghost use Rattle.liquid_grammar.specs.steps.Steps.{Splits, Leaves};
ghost use Rattle.liquid_grammar.specs.steps.Steps as step;
ghost use Rattle.liquid_grammar.specs.steps.TokenSteps as read;

use crate::bracket::match_bracket;
use crate::bytes::{begins_index, byte_at};
use crate::fault::{Fault, literal_fault};
use crate::head::{Head, read_head};
use crate::kind::TokenKind;
use crate::name::{identifier, name};
use crate::text::eat;

/// Matches the value that the text begins with. Returns its first fault and what follows it.
#[inline(always)]
pub(crate) fn value<'a>(s: &'a str) -> Option<(Option<Fault<'a>>, &'a str)>
    ensures value { Scans value_fault result (read.value s.now) }
    ensures shorter { IfSome result (λ x. length x.1.now < length s.now) }
{
    let (_, fault, rest) = value_and_kind(s)?;
    Some((fault, rest))
}

/// Matches a value as `value` does. Returns its kind, its first fault and what follows it.
#[inline(always)]
pub(crate) fn value_and_kind<'a>(s: &'a str) -> Option<(TokenKind<'a>, Option<Fault<'a>>, &'a str)>
    ensures kind { FindsValueKind (option_map (λ p. (p.0, p.2)) result) (read.value s.now) }
    ensures value { Scans value_fault (option_map (λ p. (p.1, p.2)) result) (read.value s.now) }
    ensures shorter { IfSome result (λ x. length x.2.now < length s.now) }
{
    match read_head(s)? {
        (Head::Literal(literal), rest) => Some((
            TokenKind::Literal(literal),
            literal_fault(s, literal),
            rest,
        )),
        (Head::Name(name), rest) => {
            if begins_index(byte_at(rest.as_bytes(), 0)) {
                Some(match_indexes(name, rest))
            } else {
                Some((TokenKind::Identifier(name), None, rest))
            }
        }
    }
}

/// Matches the indexes of the variable with this name. Returns the kind and the first fault of the variable, and what
/// follows it.
///
/// It is a function of its own, so that no room is made for indexes if a name has none.
#[inline(never)]
fn match_indexes<'a>(name: &'a str, rest: &'a str) -> (TokenKind<'a>, Option<Fault<'a>>, &'a str)
    ensures kind { (s : List ℕ) → None ≡ read.literal s → Some (name.now, rest.now) ≡ step.name s
        → FindsValueKind (Some (result.0, result.2)) (read.value s) }
    ensures value { (s : List ℕ) → None ≡ read.literal s → Some (name.now, rest.now) ≡ step.name s
        → Scans value_fault (Some (result.1, result.2)) (read.value s) }
    ensures shorter { length result.2.now ≤ length rest.now }
{
    match index(rest) {
        Some((first, following)) => {
            let (others, end) = indexes(following);
            (TokenKind::Variable, first.or(others), end)
        }
        None => (TokenKind::Identifier(name), None, rest),
    }
}

pub(crate) fn variable<'a>(s: &'a str) -> Option<(Option<Fault<'a>>, &'a str)>
    ensures value { Scans value_fault result (read.variable_over read.value s.now) }
    ensures shorter { IfSome result (λ x. length x.1.now < length s.now) }
{
    Some(indexes(name(s)?.1))
}

/// Matches all indexes that begin here. Returns their first fault and what follows them.
fn indexes<'a>(s: &'a str) -> (Option<Fault<'a>>, &'a str)
    ensures value { Scans (λ x. indexes_fault 0 (gather x)) (Some result) (read.repeated (read.index_over read.value) s.now) }
    ensures shorter { length result.1.now ≤ length s.now }
{
    let mut fault = None;
    let mut rest = s;
    'indexes: while let Some((found, after)) = index(rest) {
        fault = fault.or(found);
        rest = after;
    }
    (fault, rest)
}

pub(crate) fn index<'a>(s: &'a str) -> Option<(Option<Fault<'a>>, &'a str)>
    ensures value { Scans (index_fault 0) result (read.index_over read.value s.now) }
    ensures shorter { IfSome result (λ x. length x.1.now < length s.now) }
{
    if begins_index(byte_at(s.as_bytes(), 0)) {
        match match_named_index(s) {
            Some(rest) => Some((None, rest)),
            None => match_bracket(s),
        }
    } else {
        None
    }
}

/// Returns what follows `.` and an identifier.
pub(crate) fn match_named_index(s: &str) -> Option<&str>
    ensures value { Leaves result (read.named s.now) }
    ensures shorter { IfSome result (λ rest. length rest.now < length s.now) }
{
    Some(read_named_index(s)?.1)
}

/// Returns the identifier after `.`, and what follows it.
#[tactic(auto, unfolding(crate::specs::steps::TokenSteps::named))]
pub(crate) fn read_named_index(s: &str) -> Option<(&str, &str)>
    ensures value { Splits result (read.named s.now) }
    ensures shorter { IfSome result (λ x. length x.1.now < length s.now) }
{
    identifier(eat(s, b'.')?)
}
