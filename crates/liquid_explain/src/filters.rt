//! Where filters and chains can't be read.
ghost use Rattle.std.specs.Prelude.{◌<◌, length, IfSome, MatchOption};
ghost use Rattle.liquid_grammar.specs.meaning.Rules.{Begins};
ghost use Rattle.liquid_grammar.specs.meaning.Bytes.{bar, comma};
ghost use Rattle.liquid_grammar.specs.meaning.Tokens.{Following, ArgumentRule, FilterRule};
ghost use Rattle.liquid_grammar.specs.steps.Steps.{Leaves};
ghost use Rattle.liquid_grammar.specs.steps.TokenSteps as read;
ghost use Rattle.liquid_explain.specs.meaning.Filters as spec;
ghost use Rattle.liquid_explain.specs.meaning.Farthest.{IsFarthest, Ends};

use crate::part::Part;
use crate::stop::{Stop, farther, want};
use crate::values::{eat, skip_white, value_stop};
use liquid_grammar::{match_argument, match_filter, match_identifier, match_value};

/// Returns where a chain can't be read.
pub(crate) fn chain_stop(s: &str) -> Option<Stop>
    ensures { IsFarthest spec.ChainMisses s.now result }
{
    let first = value_stop(s);
    match match_value(s) {
        None => first,
        Some((_, rest)) => farther(first, filters_stop(rest)),
    }
}

/// Returns where the filters of a chain can't be read.
fn filters_stop(s: &str) -> Option<Stop>
    ensures { IsFarthest spec.FiltersMisses s.now result }
{
    let mut rest = s;
    let mut stop = next_filter_stop(s);
    'filters: while let Some(after) = next_filter(rest) {
        let next = next_filter_stop(after);
        stop = farther(stop, next);
        rest = after;
    }
    stop
}

/// Returns what follows the next filter.
fn next_filter(s: &str) -> Option<&str>
    ensures value { MatchOption result (¬ (Begins (Following bar FilterRule) s.now))
        (λ rest. Ends (Following bar FilterRule) s.now rest.now) }
    ensures shorter { IfSome result (λ rest. length rest.now < length s.now) }
{
    match match_separator(s, b'|') {
        None => None,
        Some(start) => match match_filter(start) {
            None => None,
            Some((_, rest)) => Some(rest),
        },
    }
}

/// Returns where the next filter can't be read.
fn next_filter_stop(s: &str) -> Option<Stop>
    ensures { IsFarthest spec.NextFilterMisses s.now result }
{
    let place = skip_white(s);
    match eat(place, b'|') {
        None => want(place, Part::Bar),
        Some(after) => filter_stop(skip_white(after)),
    }
}

fn filter_stop(s: &str) -> Option<Stop>
    ensures { IsFarthest spec.FilterMisses s.now result }
{
    match match_identifier(s) {
        None => want(s, Part::FilterName),
        Some((_, rest)) => arguments_stop(rest),
    }
}

/// Returns where the arguments of a filter can't be read.
fn arguments_stop(s: &str) -> Option<Stop>
    ensures { IsFarthest spec.ArgumentsMisses s.now result }
{
    let place = skip_white(s);
    match eat(place, b':') {
        None => want(place, Part::Colon),
        Some(after) => list_stop(skip_white(after)),
    }
}

/// Returns where the arguments after `:` can't be read.
fn list_stop(s: &str) -> Option<Stop>
    ensures { IsFarthest spec.ListMisses s.now result }
{
    let first = argument_stop(s);
    match match_argument(s) {
        None => first,
        Some((_, rest)) => farther(first, more_stop(rest)),
    }
}

/// Returns where further arguments can't be read.
fn more_stop(s: &str) -> Option<Stop>
    ensures { IsFarthest spec.MoreMisses s.now result }
{
    let mut rest = s;
    let mut stop = next_argument_stop(s);
    'arguments: while let Some(after) = next_argument(rest) {
        let next = next_argument_stop(after);
        stop = farther(stop, next);
        rest = after;
    }
    stop
}

/// Returns what follows the next argument.
fn next_argument(s: &str) -> Option<&str>
    ensures value { MatchOption result (¬ (Begins (Following comma ArgumentRule) s.now))
        (λ rest. Ends (Following comma ArgumentRule) s.now rest.now) }
    ensures shorter { IfSome result (λ rest. length rest.now < length s.now) }
{
    match match_separator(s, b',') {
        None => None,
        Some(start) => match match_argument(start) {
            None => None,
            Some((_, rest)) => Some(rest),
        },
    }
}

/// Returns where the next argument can't be read.
fn next_argument_stop(s: &str) -> Option<Stop>
    ensures { IsFarthest spec.NextArgumentMisses s.now result }
{
    let place = skip_white(s);
    match eat(place, b',') {
        None => want(place, Part::Comma),
        Some(after) => argument_stop(skip_white(after)),
    }
}

fn argument_stop(s: &str) -> Option<Stop>
    ensures { IsFarthest spec.ArgumentMisses s.now result }
{
    let first = value_stop(s);
    match match_identifier(s) {
        None => first,
        Some((_, rest)) => farther(first, keyword_stop(rest)),
    }
}

/// Returns where the value after the name of a keyword can't be read.
fn keyword_stop(s: &str) -> Option<Stop>
    ensures { IsFarthest spec.KeywordMisses s.now result }
{
    match match_separator(s, b':') {
        None => None,
        Some(start) => value_stop(start),
    }
}

/// Returns what follows a separator between whitespace.
fn match_separator(s: &str, separator: u8) -> Option<&str>
    requires { separator < 128 }
    ensures value { Leaves result (read.separated separator s.now) }
    ensures shorter { IfSome result (λ rest. length rest.now < length s.now) }
{
    Some(skip_white(eat(skip_white(s), separator)?))
}
