//! The arguments of a filter, built from the text after its name.
ghost use Rattle.std.specs.Prelude.{◌≤◌, ℕ, List, IfOk, IfSome, length, true};
ghost use Rattle.liquid_grammar.specs.meaning.Faults.{argument_fault, first_fault};
ghost use Rattle.liquid_grammar.specs.meaning.Parts.{ArgumentsFrom};
ghost use Rattle.liquid_grammar.specs.meaning.Tokens.{Argument};
ghost use Rattle.liquid_plugins.specs.meaning.ArgumentsOf.{arguments_of};
ghost use Rattle.liquid_parser.specs.steps.Built.{Builds};
ghost use Rattle.liquid_parser.specs.meaning.Handed.{arguments_meant};

use crate::chain::build::build_from;
use liquid_grammar::next_argument;
use liquid_plugins::FilterArguments;
use std::alloc::{AllocError, Global};

/// Builds the arguments after a filter's name. Returns them and what follows them.
///
/// Returns `None` if one of their literals or brackets has a fault.
pub(crate) fn build_arguments<'a>(
    alloc: Global,
    s: &'a str,
) -> Result<Option<(FilterArguments<'a>, &'a str)>, AllocError>
    ensures value { (rest : List ℕ) (given : List Argument) → ArgumentsFrom true s.now rest given
        → Builds (first_fault argument_fault given) arguments_of result (arguments_meant given) rest }
    ensures within { IfOk result (λ found. IfSome found (λ p. length p.1.now ≤ length s.now)) }
{
    let mut positional = Vec::new(alloc);
    let mut keyword = Vec::new(alloc);
    let mut rest = s;
    let mut is_first = true;
    'arguments: while let Some(start) = next_argument(rest, is_first) {
        match build_from(alloc, start.head, start.rest, 0)? {
            Some((value, following)) => {
                match start.name {
                    Some(name) => keyword.push((name, value))?,
                    None => positional.push(value)?,
                }
                rest = following;
                is_first = false;
            }
            None => return Ok(None),
        }
    }
    Ok(Some((
        FilterArguments {
            positional,
            keyword,
        },
        rest,
    )))
}
