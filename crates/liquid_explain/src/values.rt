//! Where values can't be read.
ghost use Rattle.std.specs.Prelude.{◌<◌, ◌≤◌, length, Some, IfSome};
ghost use Rattle.liquid_grammar.specs.meaning.Rules.{Begins, Byte};
ghost use Rattle.liquid_grammar.specs.meaning.Grammar.{White};
ghost use Rattle.liquid_grammar.specs.meaning.Values.{ValueRule};
ghost use Rattle.liquid_grammar.specs.meaning.Bytes.{double_quote, single_quote};
ghost use Rattle.liquid_grammar.specs.steps.Steps as read;
ghost use Rattle.liquid_grammar.specs.steps.TokenSteps as bracket;
ghost use Rattle.liquid_grammar.specs.steps.Steps.{Leaves};
ghost use Rattle.liquid_explain.specs.meaning.Misses.{After, Wants};
ghost use Rattle.liquid_explain.specs.meaning.Values as spec;
ghost use Rattle.liquid_explain.specs.meaning.Farthest.{IsFarthest};

use crate::part::Part;
use crate::stop::{Stop, farther, want};
use liquid_grammar::{BRACKET_LIMIT, match_identifier, match_value, match_variable, match_white};

/// Returns what follows this byte, if the text begins with it.
pub(crate) fn eat(s: &str, byte: u8) -> Option<&str>
    requires { byte < 128 }
    ensures value { Leaves result (read.byte byte s.now) }
    ensures shorter { IfSome result (λ rest. length rest.now < length s.now) }
{
    let bytes = s.as_bytes();
    if bytes.len() > 0 && bytes[0] == byte {
        Some(&s[1..])
    } else {
        None
    }
}

/// Returns what follows whitespace.
pub(crate) fn skip_white(s: &str) -> &str
    ensures value { Leaves (Some result) (read.white s.now) }
    ensures shorter { length result.now ≤ length s.now }
{
    match_white(s).1
}

/// Returns where a value can't be read.
pub(crate) fn value_stop(s: &str) -> Option<Stop>
    ensures { IsFarthest spec.ValueMisses s.now result }
{
    nested_stop(s, BRACKET_LIMIT + 1)
}

/// Returns the same for a value inside fewer than this many brackets.
fn nested_stop(s: &str, depth: usize) -> Option<Stop>
    ensures { IsFarthest (spec.NestedMisses depth) s.now result }
{
    if depth == 0 {
        return None;
    }
    match match_value(s) {
        None => value_wanted(s),
        Some(_) => match match_variable(s) {
            None => None,
            Some((_, rest)) => match open_bracket(rest) {
                None => member_stop(rest),
                Some(inside) => {
                    let inner = nested_stop(inside, depth - 1);
                    farther(inner, bracket_stop(inside))
                }
            },
        },
    }
}

/// Returns the stop where no value begins: one at a quote lacks its end.
fn value_wanted(s: &str) -> Option<Stop>
    requires { ¬ (Begins ValueRule s.now) }
    ensures { IsFarthest spec.NoValue s.now result }
{
    match after_quote(s) {
        Some(_) => want(s, Part::EndQuote),
        None => want(s, Part::Value),
    }
}

/// Returns what follows a quote.
fn after_quote(s: &str) -> Option<&str>
    ensures { Leaves result (read.either (read.byte double_quote) (read.byte single_quote) s.now) }
{
    match eat(s, b'"') {
        Some(rest) => Some(rest),
        None => eat(s, b'\''),
    }
}

/// Returns what follows `[` and whitespace.
#[tactic(auto, unfolding(liquid_grammar::specs::steps::TokenSteps::open_bracket))]
fn open_bracket(s: &str) -> Option<&str>
    ensures { Leaves result (bracket.open_bracket s.now) }
{
    Some(skip_white(eat(s, b'[')?))
}

/// Returns where the name of a member is missing.
fn member_stop(s: &str) -> Option<Stop>
    ensures { IsFarthest spec.MemberMisses s.now result }
{
    match eat(s, b'.') {
        None => None,
        Some(name) => match match_identifier(name) {
            Some(_) => None,
            None => want(name, Part::Member),
        },
    }
}

/// Returns where the end of a bracket is missing.
fn bracket_stop(inside: &str) -> Option<Stop>
    ensures { IsFarthest spec.BracketMisses inside.now result }
{
    match match_value(inside) {
        None => None,
        Some((_, rest)) => byte_stop(rest, b']', Part::CloseBracket),
    }
}

/// Returns where a byte is missing after whitespace.
pub(crate) fn byte_stop(s: &str, byte: u8, part: Part) -> Option<Stop>
    requires { byte < 128 }
    ensures { IsFarthest (After White (Wants (Byte byte) part)) s.now result }
{
    let place = skip_white(s);
    match eat(place, byte) {
        Some(_) => None,
        None => want(place, part),
    }
}
