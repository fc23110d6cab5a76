//! Conversions from JSON to scalars.
ghost use Rattle.std.specs.Prelude.{ℤ, string_bytes};
ghost use Rattle.serde_json.specs.View.{view as json_view, number_view};
ghost use Rattle.liquid_error.specs.meaning.Told.{Gives};
ghost use Rattle.liquid_scalar.specs.meaning.Scalar.{scal};
ghost use Rattle.liquid_json.specs.meaning.Given.{number_given, scalar_given};

use liquid_error::{Error, Result};
use liquid_scalar::Scalar;
use serde_json::{Number, Value as Json};
use std::alloc::Global;

/// Returns the scalar of a boolean, a string or an integer. A string is copied.
///
/// An integer from 2^63 to 2^64 - 1 is the error "Cannot fit number", and a number that is kept as a float is
/// "Fractional number". Null, an array and an object are "Scalar must be a string.".
pub fn to_scalar(alloc: Global, json: &Json) -> Result<Scalar>
    ensures { Gives (scal string_bytes) result (scalar_given (json_view json.now)) }
{
    match json {
        Json::Bool(truth) => Ok(Scalar::Bool(*truth)),
        Json::Number(number) => Ok(Scalar::Integer(integer(alloc, number)?)),
        Json::String(text) => Ok(Scalar::Str(text.clone()?)),
        Json::Null | Json::Array(_) | Json::Object(_) => {
            Err(Error::with_msg(alloc, "Scalar must be a string."))
        }
    }
}

/// Returns the integer that a number is. Fails for one past 2^63 - 1, and for every other number.
pub(crate) fn integer(alloc: Global, number: &Number) -> Result<i64>
    ensures { Gives (λ (n : ℤ). n) result (number_given (number_view number.now)) }
{
    match number.as_i64() {
        Some(whole) => Ok(whole),
        None if number.is_u64() => Err(Error::with_msg(alloc, "Cannot fit number")),
        None => Err(Error::with_msg(alloc, "Fractional number")),
    }
}
