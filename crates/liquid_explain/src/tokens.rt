//! Where the tokens of a tag can't be read.
ghost use Rattle.std.specs.Prelude.{◌<◌, length, IfSome, MatchOption};
ghost use Rattle.liquid_grammar.specs.meaning.Rules.{Begins, ◌▷◌};
ghost use Rattle.liquid_grammar.specs.meaning.Grammar.{White};
ghost use Rattle.liquid_grammar.specs.meaning.Bytes.{dot};
ghost use Rattle.liquid_grammar.specs.meaning.Tokens.{TokenRule};
ghost use Rattle.liquid_grammar.specs.steps.Steps as step;
ghost use Rattle.liquid_grammar.specs.steps.Steps.{Leaves};
ghost use Rattle.liquid_grammar.specs.steps.TokenSteps as read;
ghost use Rattle.liquid_explain.specs.meaning.Tokens as spec;
ghost use Rattle.liquid_explain.specs.meaning.Farthest.{IsFarthest, Ends};

use crate::filters::chain_stop;
use crate::part::Part;
use crate::stop::{Stop, farther, want};
use crate::values::{byte_stop, eat, skip_white, value_stop};
use liquid_grammar::{match_token, match_value};

/// Returns where the tokens of a tag, or its end, can't be read.
pub(crate) fn tokens_stop(s: &str) -> Option<Stop>
    ensures { IsFarthest spec.TokensMisses s.now result }
{
    let mut rest = s;
    let mut stop = next_token_stop(s);
    'tokens: while let Some(after) = next_token(rest) {
        let next = next_token_stop(after);
        stop = farther(stop, next);
        rest = after;
    }
    let last = closer_stop(rest, b'%');
    farther(stop, last)
}

/// Returns where the end of an element is missing.
pub(crate) fn closer_stop(s: &str, kind: u8) -> Option<Stop>
    requires { kind < 128 }
    ensures { IsFarthest (spec.CloserMisses kind) s.now result }
{
    let place = skip_white(s);
    match closer(place, kind) {
        Some(_) => None,
        None => want(place, Part::Closer),
    }
}

/// Returns what follows the end of an element.
#[tactic(auto, unfolding(liquid_grammar::specs::steps::Steps::closer, liquid_grammar::specs::steps::Steps::dashed_closer))]
fn closer(s: &str, kind: u8) -> Option<&str>
    requires { kind < 128 }
    ensures { Leaves result (step.closer kind s.now) }
{
    match dashed_closer(s, kind) {
        Some(rest) => Some(rest),
        None => eat(eat(s, kind)?, b'}'),
    }
}

#[tactic(auto, unfolding(liquid_grammar::specs::steps::Steps::dashed_closer))]
fn dashed_closer(s: &str, kind: u8) -> Option<&str>
    requires { kind < 128 }
    ensures { Leaves result (step.dashed_closer kind s.now) }
{
    Some(skip_white(eat(eat(eat(s, b'-')?, kind)?, b'}')?))
}

/// Returns what follows the next token.
fn next_token(s: &str) -> Option<&str>
    ensures value { MatchOption result (¬ (Begins (White ▷ TokenRule) s.now)) (λ rest. Ends (White ▷ TokenRule) s.now rest.now) }
    ensures shorter { IfSome result (λ rest. length rest.now < length s.now) }
{
    let place = skip_white(s);
    match match_token(place) {
        None => None,
        Some((_, rest)) => Some(rest),
    }
}

/// Returns where the next token can't be read.
fn next_token_stop(s: &str) -> Option<Stop>
    ensures { IsFarthest spec.NextTokenMisses s.now result }
{
    let place = skip_white(s);
    farther(
        token_wanted(place),
        farther(range_stop(place), chain_stop(place)),
    )
}

fn token_wanted(s: &str) -> Option<Stop>
    ensures { IsFarthest spec.NoToken s.now result }
{
    match match_token(s) {
        Some(_) => None,
        None => want(s, Part::Token),
    }
}

/// Returns where a range can't be read.
fn range_stop(s: &str) -> Option<Stop>
    ensures { IsFarthest spec.RangeMisses s.now result }
{
    match range_start(s) {
        None => None,
        Some(start) => start_stop(start),
    }
}

/// Returns where a range can't be read from its first value on.
fn start_stop(s: &str) -> Option<Stop>
    ensures { IsFarthest spec.StartMisses s.now result }
{
    let first = value_stop(s);
    match match_value(s) {
        None => first,
        Some((_, rest)) => farther(first, dots_stop(rest)),
    }
}

/// Returns what follows `(` and whitespace.
#[tactic(auto, unfolding(liquid_grammar::specs::steps::TokenSteps::range_start))]
fn range_start(s: &str) -> Option<&str>
    ensures { Leaves result (read.range_start s.now) }
{
    Some(skip_white(eat(s, b'(')?))
}

/// Returns where a range can't be read after its first value.
fn dots_stop(s: &str) -> Option<Stop>
    ensures { IsFarthest spec.DotsMisses s.now result }
{
    let place = skip_white(s);
    match dots(place) {
        None => want(place, Part::Dots),
        Some(after) => end_stop(skip_white(after)),
    }
}

fn dots(s: &str) -> Option<&str>
    ensures { Leaves result (step.right (step.byte dot) (step.byte dot) s.now) }
{
    eat(eat(s, b'.')?, b'.')
}

/// Returns where a range can't be read from its second value on.
fn end_stop(s: &str) -> Option<Stop>
    ensures { IsFarthest spec.EndMisses s.now result }
{
    let first = value_stop(s);
    match match_value(s) {
        None => first,
        Some((_, rest)) => farther(first, byte_stop(rest, b')', Part::CloseParen)),
    }
}
