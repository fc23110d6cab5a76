//! Openers and closers.
ghost use Rattle.std.specs.Prelude.{◌<◌, length, IfSome};
ghost use Rattle.liquid_grammar.specs.steps.Steps as read;
ghost use Rattle.liquid_grammar.specs.steps.Steps.{Leaves};

use crate::text::{eat, skip_white};

/// Returns what follows `{{` or `{%`.
#[tactic(auto, unfolding(crate::specs::steps::Steps::braces))]
pub(crate) fn braces(s: &str, kind: u8) -> Option<&str>
    requires { kind < 128 }
    ensures value { Leaves result (read.braces kind s.now) }
    ensures shorter { IfSome result (λ rest. length rest.now < length s.now) }
{
    eat(eat(s, b'{')?, kind)
}

#[tactic(auto, unfolding(crate::specs::steps::Steps::dashed_opener))]
fn dashed_opener(s: &str, kind: u8) -> Option<&str>
    requires { kind < 128 }
    ensures value { Leaves result (read.dashed_opener kind s.now) }
    ensures shorter { IfSome result (λ rest. length rest.now < length s.now) }
{
    eat(braces(skip_white(s), kind)?, b'-')
}

/// Returns what follows an opener.
#[tactic(auto, unfolding(crate::specs::steps::Steps::opener))]
pub(crate) fn opener(s: &str, kind: u8) -> Option<&str>
    requires { kind < 128 }
    ensures value { Leaves result (read.opener kind s.now) }
    ensures shorter { IfSome result (λ rest. length rest.now < length s.now) }
{
    match dashed_opener(s, kind) {
        Some(rest) => Some(rest),
        None => braces(s, kind),
    }
}

#[tactic(auto, unfolding(crate::specs::steps::Steps::dashed_closer))]
fn dashed_closer(s: &str, kind: u8) -> Option<&str>
    requires { kind < 128 }
    ensures value { Leaves result (read.dashed_closer kind s.now) }
    ensures shorter { IfSome result (λ rest. length rest.now < length s.now) }
{
    Some(skip_white(eat(eat(eat(s, b'-')?, kind)?, b'}')?))
}

/// Returns what follows a closer.
#[tactic(auto, unfolding(crate::specs::steps::Steps::closer))]
pub(crate) fn closer(s: &str, kind: u8) -> Option<&str>
    requires { kind < 128 }
    ensures value { Leaves result (read.closer kind s.now) }
    ensures shorter { IfSome result (λ rest. length rest.now < length s.now) }
{
    match dashed_closer(s, kind) {
        Some(rest) => Some(rest),
        None => eat(eat(s, kind)?, b'}'),
    }
}
