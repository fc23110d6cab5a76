//! Where elements can't be read.
ghost use Rattle.std.specs.Prelude.{◌<◌};
ghost use Rattle.liquid_grammar.specs.steps.Steps.{Leaves};
ghost use Rattle.liquid_explain.specs.meaning.Elements as spec;
ghost use Rattle.liquid_explain.specs.meaning.Farthest.{IsFarthest};
ghost use Rattle.liquid_explain.specs.steps.Opened as read;

use crate::filters::chain_stop;
use crate::part::Part;
use crate::stop::{Stop, farther, want};
use crate::tokens::{closer_stop, tokens_stop};
use crate::values::{eat, skip_white};
use liquid_grammar::{match_chain, match_identifier};

/// Returns the farthest place that the rules of a tag, or of an expression, come to from the braces at the beginning of
/// the text, and the parts with which some rule would go on there. Returns `None` if no rule stops: an element begins
/// here, or the text doesn't begin with `{{` or `{%`.
pub fn find_stop(s: &str) -> Option<Stop>
    ensures { IsFarthest spec.ElementMisses s.now result }
{
    let first = expression_stop(s);
    let second = tag_stop(s);
    farther(first, second)
}

fn expression_stop(s: &str) -> Option<Stop>
    ensures { IsFarthest spec.ExpressionMisses s.now result }
{
    match after_braces(s, b'{') {
        None => None,
        Some(start) => closed_chain_stop(start),
    }
}

/// Returns where the chain of an expression, or its end, can't be read.
fn closed_chain_stop(s: &str) -> Option<Stop>
    ensures { IsFarthest spec.ClosedChainMisses s.now result }
{
    let first = chain_stop(s);
    match match_chain(s) {
        None => first,
        Some((_, rest)) => farther(first, closer_stop(rest, b'}')),
    }
}

fn tag_stop(s: &str) -> Option<Stop>
    ensures { IsFarthest spec.TagMisses s.now result }
{
    match after_braces(s, b'%') {
        None => None,
        Some(start) => named_stop(start),
    }
}

/// Returns where a tag can't be read from its name on.
fn named_stop(s: &str) -> Option<Stop>
    ensures { IsFarthest spec.NamedMisses s.now result }
{
    match match_identifier(s) {
        None => want(s, Part::TagName),
        Some((_, rest)) => tokens_stop(rest),
    }
}

/// Returns what follows the braces, a dash if there is one, and whitespace.
#[tactic(auto, unfolding(crate::specs::steps::Opened::opened, liquid_grammar::specs::steps::Steps::braces))]
fn after_braces(s: &str, kind: u8) -> Option<&str>
    requires { kind < 128 }
    ensures { Leaves result (read.opened kind s.now) }
{
    let inside = eat(eat(s, b'{')?, kind)?;
    match eat(inside, b'-') {
        Some(after) => Some(skip_white(after)),
        None => Some(skip_white(inside)),
    }
}
