//! The number of a value.
ghost use Rattle.std.specs.Prelude.{◌≡◌, string_bytes};
ghost use Rattle.liquid_error.specs.meaning.Told.{Gives};
ghost use Rattle.liquid_scalar.specs.meaning.Scalar.{scal};
ghost use Rattle.liquid_value.specs.meaning.View.{view as tree_of};
ghost use Rattle.liquid_filters.specs.meaning.value.Numbers.{limited, number, number_of, scalar_number, whole, whole_of};

use crate::value::errors::{past_limit_error, whole_number_error};
use liquid_error::Error;
use liquid_scalar::{Scalar, ScalarCow, ScalarOf};
use liquid_value::Value;
use std::alloc::Global;
use std::borrow::CowStr;

/// Returns the number of a value, which is 0 for nil. Fails for a value that is not a number.
pub fn number(alloc: Global, value: &Value) -> Result<i64, Error>
    ensures { Gives (λ n. n) result (number (tree_of value.now)) }
{
    match number_of(value) {
        Some(number) => Ok(number),
        None => Err(whole_number_error(alloc, value)),
    }
}

/// Returns the integer of a value. Fails for a value that is not one, such as nil.
pub fn whole(alloc: Global, value: &Value) -> Result<i64, Error>
    ensures { Gives (λ n. n) result (whole (tree_of value.now)) }
{
    match whole_of(value) {
        Some(number) => Ok(number),
        None => Err(whole_number_error(alloc, value)),
    }
}

/// Returns the number as a value. Fails if it did not fit.
pub fn check_limit(alloc: Global, number: Option<i64>) -> Result<Value, Error>
    ensures { Gives tree_of result (limited number) }
{
    match number {
        Some(number) => Ok(Value::Scalar(ScalarOf::Integer(number))),
        None => Err(past_limit_error(alloc)),
    }
}

/// Returns the number of a value, if it has one.
pub fn number_of(value: &Value) -> Option<i64>
    ensures { result ≡ number_of (tree_of value.now) }
{
    match value {
        Value::Nil => Some(0),
        other => whole_of(other),
    }
}

/// Returns the integer of a value, if it is one.
pub fn whole_of(value: &Value) -> Option<i64>
    ensures { result ≡ whole_of (tree_of value.now) }
{
    match value {
        Value::Scalar(scalar) => scalar_number(scalar),
        _ => None,
    }
}

/// Returns the number of a scalar, if it is one. A string may have whitespace at its ends.
fn scalar_number(scalar: &Scalar) -> Option<i64>
    ensures { result ≡ scalar_number (scal string_bytes scalar.now) }
{
    match scalar {
        ScalarOf::Str(text) => {
            let text: ScalarCow<'_> = ScalarOf::Str(CowStr::Borrowed(text.as_str().trim()));
            text.to_integer()
        }
        other => other.to_integer(),
    }
}
