//! The filters on any value.
ghost use Rattle.std.specs.Prelude.{◌≡◌, Ok, option_map};
ghost use Rattle.liquid_error.specs.meaning.Told.{Gives};
ghost use Rattle.liquid_value.specs.meaning.View.{view as tree_of};
ghost use Rattle.liquid_filters.specs.meaning.Given.{given};
ghost use Rattle.liquid_filters.specs.meaning.Values.{allows_false, defaulted, is_false, is_missing, size};

use crate::arguments::CallArguments;
use crate::value::errors::unexpected_arguments_error;
use crate::value::parts::{is_truthy, size_of};
use liquid_error::Error;
use liquid_scalar::ScalarOf;
use liquid_value::{State, Value};
use std::alloc::Global;

/// Returns the argument if the input is nil, `false` or empty, and otherwise the input. With a truthy `allow_false` the
/// input `false` is kept.
pub fn default(alloc: Global, input: &Value, arguments: &CallArguments<'_>) -> Result<Value, Error>
    ensures { Gives tree_of result (defaulted (tree_of input.now) (given arguments.now)) }
{
    let missing = is_missing(input, arguments.keyword("allow_false"));
    match arguments.positional {
        [] => if missing {
            Ok(Value::Scalar(ScalarOf::Str(String::new(alloc))))
        } else {
            Ok(input.clone()?)
        },
        [value] => if missing {
            Ok(value.as_view().clone()?)
        } else {
            Ok(input.clone()?)
        },
        _ => Err(unexpected_arguments_error(alloc)),
    }
}

/// Returns `true` if the input is nil, `false` or empty, except for a `false` that is kept.
fn is_missing(input: &Value, allow_false: Option<&Value>) -> bool
    ensures { result ≡ is_missing (tree_of input.now) (option_map (λ v. tree_of v.now) allow_false.entry) }
{
    input.query_state(State::DefaultValue) && !(is_false(input) && allows_false(allow_false))
}

fn is_false(value: &Value) -> bool
    ensures { result ≡ is_false (tree_of value.now) }
{
    match value {
        Value::Scalar(ScalarOf::Bool(truth)) => !*truth,
        _ => false,
    }
}

fn allows_false(argument: Option<&Value>) -> bool
    ensures { result ≡ allows_false (option_map (λ v. tree_of v.now) argument.entry) }
{
    match argument {
        Some(value) => is_truthy(value),
        None => false,
    }
}

/// Returns the number of entries of an array or an object, or the number of characters in the text of any other value.
pub fn size(alloc: Global, input: &Value) -> Result<Value, Error>
    ensures { Gives tree_of result (Ok (size (tree_of input.now))) }
{
    let size = size_of(alloc, input)?;
    match i64::try_from(size) {
        Ok(number) => Ok(Value::Scalar(ScalarOf::Integer(number))),
        Err(_) => Err(Error::Memory),
    }
}
