//! The filter `date`.
ghost use Rattle.std.specs.Prelude.{◌≡◌, map, string_bytes};
ghost use Rattle.liquid_error.specs.meaning.Told.{Gives};
ghost use Rattle.liquid_scalar.specs.meaning.Scalar.{text as text_of};
ghost use Rattle.liquid_value.specs.meaning.Cow.{cow_view};
ghost use Rattle.liquid_value.specs.meaning.Tree.{scalar};
ghost use Rattle.liquid_value.specs.meaning.View.{view as tree_of};
ghost use Rattle.liquid_filters.specs.meaning.Dates.{dated, formatted, printed, printed_by};

use crate::value::errors::unexpected_arguments_error;
use filter_dates::{moment_of, pattern_error};
use liquid_dates::DateTime;
use liquid_error::Error;
use liquid_scalar::ScalarOf;
use liquid_value::{Value, ValueCow};
use std::alloc::Global;

/// Formats the moment that the input means, by the pattern. Returns the input if it means no moment or if the pattern is
/// empty.
pub fn date(
    alloc: Global,
    now: Option<DateTime>,
    input: &Value,
    arguments: &[ValueCow<'_>],
) -> Result<Value, Error>
    ensures { Gives tree_of result (dated now (tree_of input.now) (map cow_view arguments.now)) }
{
    match arguments {
        [pattern] => {
            let pattern = pattern.as_view().to_kstr(alloc)?;
            print(alloc, now, input, pattern.as_str())
        }
        _ => Err(unexpected_arguments_error(alloc)),
    }
}

fn print(alloc: Global, now: Option<DateTime>, input: &Value, pattern: &str) -> Result<Value, Error>
    ensures { Gives tree_of result (printed_by now (tree_of input.now) pattern.now) }
{
    if pattern.is_empty() {
        return Ok(input.clone()?);
    }
    match moment_of(alloc, input, now)? {
        Some(moment) => format(alloc, &moment, pattern),
        None => Ok(input.clone()?),
    }
}

fn format(alloc: Global, moment: &DateTime, pattern: &str) -> Result<Value, Error>
    ensures { Gives tree_of result (printed pattern.now (formatted moment.now pattern.now)) }
{
    match moment.format(alloc, pattern) {
        Ok(text) => Ok(text_value(text)),
        Err(error) => Err(pattern_error(alloc, error, pattern)),
    }
}

fn text_value(text: String) -> Value
    ensures { tree_of result ≡ scalar (text_of (string_bytes text)) }
{
    Value::Scalar(ScalarOf::Str(text))
}
