//! Nested brackets, matched in a loop with a count of those that are open.
ghost use Rattle.std.specs.Prelude.{◌≡◌, ◌+◌, ◌*◌, ◌^◌, ◌<◌, ◌≤◌, length, Some, IfSome, MatchOption, None};
ghost use Rattle.liquid_grammar.specs.meaning.Faults.{index_fault, deep_fault};
ghost use Rattle.liquid_grammar.specs.meaning.Meanings.{Scans, faults_of};
ghost use Rattle.liquid_grammar.specs.steps.Steps.{Leaves};
ghost use Rattle.liquid_grammar.specs.steps.BracketSteps.{going, rank, bracket_index};
ghost use Rattle.liquid_grammar.specs.steps.TokenSteps as read;

use crate::fault::{Fault, FaultKind, literal_fault};
use crate::head::{Head, read_head};
use crate::text::{eat, skip_white};
use crate::value::match_named_index;

/// The greatest number of brackets that may be open at once.
pub const BRACKET_LIMIT: usize = 100;

/// What comes next inside the brackets.
#[derive(Clone, Copy)]
pub(crate) enum Await {
    Value,
    Index,
    Close,
}

/// Brackets that are open, and the text after what was matched in them.
#[derive(Clone, Copy)]
pub(crate) struct Open<'a> {
    rest: &'a str,
    depth: usize,
    fault: Option<Fault<'a>>,
    awaits: Await,
}

/// Matches an index in brackets. Returns its first fault and what follows it.
pub(crate) fn match_bracket<'a>(s: &'a str) -> Option<(Option<Fault<'a>>, &'a str)>
    ensures value { Scans (index_fault 0) result (bracket_index s.now) }
    ensures shorter { IfSome result (λ x. length x.1.now < length s.now) }
{
    let mut state = Open {
        rest: open_bracket(s)?,
        depth: 1,
        fault: None,
        awaits: Await::Value,
    };
    'brackets: while state.depth > 0 {
        state = turn(state)?;
    }
    Some((state.fault, state.rest))
}

/// Takes one step inside the brackets.
fn turn<'a>(state: Open<'a>) -> Option<Open<'a>>
    requires some { 0 < state.depth }
    requires fits { state.depth + length state.rest.now < 2 ^ 64 }
    ensures same { MatchOption result (going state.entry ≡ None) (λ next. going state.entry ≡ going next) }
    ensures room { IfSome result (λ next. next.depth + length next.rest.now ≤ state.entry.depth + length state.entry.rest.now) }
    ensures ends { IfSome result
        (λ next. 2 * length next.rest.now + rank next.awaits < 2 * length state.entry.rest.now + rank state.entry.awaits) }
    ensures within { IfSome result (λ next. length next.rest.now ≤ length state.entry.rest.now) }
    ensures whole { IfSome result (λ next. next.depth ≡ 0 → next.awaits ≡ Await.Index) }
{
    match state.awaits {
        Await::Value => at_value(state),
        Await::Index => Some(at_index(state)),
        Await::Close => {
            let after = close_bracket(state.rest)?;
            Some(Open {
                rest: after,
                depth: state.depth - 1,
                awaits: Await::Index,
                ..state
            })
        }
    }
}

/// Takes the step over the value that is awaited.
fn at_value<'a>(state: Open<'a>) -> Option<Open<'a>>
    requires some { 0 < state.depth }
    requires value { state.awaits ≡ Await.Value }
    ensures same { MatchOption result (going state.entry ≡ None) (λ next. going state.entry ≡ going next) }
    ensures room { IfSome result (λ next. next.depth + length next.rest.now ≤ state.entry.depth + length state.entry.rest.now) }
    ensures ends { IfSome result
        (λ next. 2 * length next.rest.now + rank next.awaits < 2 * length state.entry.rest.now + rank state.entry.awaits) }
    ensures within { IfSome result (λ next. length next.rest.now ≤ length state.entry.rest.now) }
    ensures whole { IfSome result (λ next. next.depth ≡ 0 → next.awaits ≡ Await.Index) }
{
    match read_head(state.rest)? {
        (Head::Literal(literal), after) => Some(Open {
            rest: after,
            fault: state.fault.or(literal_fault(state.rest, literal)),
            awaits: Await::Close,
            ..state
        }),
        (Head::Name(_), after) => Some(Open {
            rest: after,
            awaits: Await::Index,
            ..state
        }),
    }
}

/// Takes the step over an index, if one begins here, or to the close bracket.
fn at_index<'a>(state: Open<'a>) -> Open<'a>
    requires some { 0 < state.depth }
    requires index { state.awaits ≡ Await.Index }
    requires fits { state.depth + length state.rest.now < 2 ^ 64 }
    ensures same { going state.entry ≡ going result }
    ensures room { result.depth + length result.rest.now ≤ state.entry.depth + length state.entry.rest.now }
    ensures ends { 2 * length result.rest.now + rank result.awaits < 2 * length state.entry.rest.now + rank state.entry.awaits }
    ensures within { length result.rest.now ≤ length state.entry.rest.now }
    ensures whole { result.depth ≡ 0 → result.awaits ≡ Await.Index }
{
    let rest = state.rest;
    match match_named_index(rest) {
        Some(after) => Open {
            rest: after,
            ..state
        },
        None => match open_bracket(rest) {
            Some(after) => Open {
                rest: after,
                depth: state.depth + 1,
                fault: state.fault.or(depth_fault(rest, state.depth)),
                awaits: Await::Value,
            },
            None => Open {
                awaits: Await::Close,
                ..state
            },
        },
    }
}

/// Returns the fault of a bracket that opens inside this many open ones.
fn depth_fault<'a>(place: &'a str, depth: usize) -> Option<Fault<'a>>
    ensures { faults_of result ≡ deep_fault depth place.now }
{
    if depth < BRACKET_LIMIT {
        None
    } else {
        Some(Fault {
            kind: FaultKind::NestedTooDeep,
            place,
        })
    }
}

/// Returns what follows `[` and whitespace.
#[tactic(auto, unfolding(crate::specs::steps::TokenSteps::open_bracket))]
pub(crate) fn open_bracket(s: &str) -> Option<&str>
    ensures value { Leaves result (read.open_bracket s.now) }
    ensures shorter { IfSome result (λ rest. length rest.now < length s.now) }
{
    Some(skip_white(eat(s, b'[')?))
}

/// Returns what follows whitespace and `]`.
#[tactic(auto, unfolding(crate::specs::steps::TokenSteps::close_bracket))]
pub(crate) fn close_bracket(s: &str) -> Option<&str>
    ensures value { Leaves result (read.close_bracket s.now) }
    ensures shorter { IfSome result (λ rest. length rest.now < length s.now) }
{
    eat(skip_white(s), b']')
}
