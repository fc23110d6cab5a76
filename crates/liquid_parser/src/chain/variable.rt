//! Variables that are whole texts.
ghost use Rattle.std.specs.Prelude.{◌≡◌, [], codes};
ghost use Rattle.liquid_error.specs.meaning.Told.{Gives};
ghost use Rattle.liquid_grammar.specs.meaning.Faults.{value_fault};
ghost use Rattle.liquid_grammar.specs.meaning.Meanings.{faults_of};
ghost use Rattle.liquid_grammar.specs.meaning.Values.{Value as MatchedValue, VariableRule};
ghost use Rattle.liquid_plugins.specs.meaning.ExpressionOf.{variable_of};
ghost use Rattle.liquid_parser.specs.meaning.Reading.{refused_at};
ghost use Rattle.liquid_parser.specs.meaning.Variables.{WholeVariable, variable_read};
ghost use Rattle.liquid_parser.specs.meaning.WholeTag.{Refuses};

use crate::chain::build::build_variable;
use crate::reading::place::{check, error_at};
use liquid_error::Error;
use liquid_grammar::{Fault, match_identifier, match_variable, one_match};
use liquid_plugins::Variable;
use std::alloc::Global;

/// Parses a text that is one variable.
///
/// If the whole text is not a variable, the error is "Invalid liquid", at its beginning. Otherwise the error is the
/// first fault of its literals and brackets, if there is one.
pub fn parse_variable(alloc: Global, text: &str) -> std::result::Result<Variable, Error>
    ensures variable { (v : MatchedValue) → VariableRule text.now [] v → Gives variable_of result (variable_read text.now v) }
    ensures none { ¬ (WholeVariable text.now) → Refuses result (refused_at text.now (codes "Invalid liquid") text.now) }
{
    match match_variable(text) {
        Some((fault, rest)) => {
            if rest.is_empty() {
                whole_variable(alloc, text, fault)
            } else {
                Err(error_at(alloc, text, "Invalid liquid", text))
            }
        }
        None => Err(error_at(alloc, text, "Invalid liquid", text)),
    }
}

/// Returns the variable that was matched as the whole text, or the error of its first fault.
fn whole_variable(
    alloc: Global,
    text: &str,
    fault: Option<Fault<'_>>,
) -> std::result::Result<Variable, Error>
    ensures { (v : MatchedValue) → VariableRule text.now [] v → faults_of fault.entry ≡ value_fault v
        → Gives variable_of result (variable_read text.now v) }
{
    one_match();
    check(alloc, text, fault)?;
    match match_identifier(text) {
        Some((name, rest)) => match build_variable(alloc, name, rest, 0)? {
            Some((expression, _)) => match expression.into_variable() {
                Some(variable) => Ok(variable),
                None => Err(error_at(alloc, text, "Invalid liquid", text)),
            },
            None => Err(error_at(alloc, text, "Invalid liquid", text)),
        },
        None => Err(error_at(alloc, text, "Invalid liquid", text)),
    }
}
