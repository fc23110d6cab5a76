//! Jekyll's filter that reads a number.
ghost use Rattle.std.specs.Prelude.{◌≡◌, string_bytes};
ghost use Rattle.liquid_error.specs.meaning.Told.{Gives};
ghost use Rattle.liquid_value.specs.meaning.View.{view as tree_of};
ghost use Rattle.liquid_scalar.specs.meaning.Scalar.{scal};
ghost use Rattle.liquid_jekyll.specs.meaning.value.Numbers as Spec;

use crate::text::numeral;
use liquid_error::Error;
use liquid_filters::value::errors::whole_number_error;
use liquid_filters::value::numbers::check_limit;
use liquid_scalar::{Scalar, ScalarCow, ScalarOf};
use liquid_value::Value;
use std::alloc::Global;
use std::borrow::CowStr;

/// Returns the integer of a value: a number itself, 1 for `true`, 0 for `false` and nil, and otherwise the number with
/// which the text begins after whitespace, or 0 without one.
///
/// Fails for an array and an object, and for a number that is not an `i64`.
pub fn to_integer(alloc: Global, input: &Value) -> Result<Value, Error>
    ensures { Gives tree_of result (Spec.to_integer (tree_of input.now)) }
{
    match input {
        Value::Array(_) | Value::Object(_) => Err(whole_number_error(alloc, input)),
        Value::Nil | Value::State(_) => check_limit(alloc, Some(0)),
        Value::Scalar(scalar) => integer_of(alloc, scalar),
    }
}

fn integer_of(alloc: Global, scalar: &Scalar) -> Result<Value, Error>
    ensures { Gives tree_of result (Spec.integer_of (scal string_bytes scalar.now)) }
{
    match scalar {
        ScalarOf::Integer(number) => check_limit(alloc, Some(*number)),
        ScalarOf::Bool(truth) => check_limit(alloc, Some(i64::from(*truth))),
        other => {
            let text = other.to_kstr(alloc)?;
            check_limit(alloc, leading_integer(text.as_str()))
        }
    }
}

/// Returns the number with which a string begins after whitespace, or 0 without one. Returns `None` for a number that is
/// not an `i64`.
fn leading_integer(text: &str) -> Option<i64>
    ensures { result ≡ Spec.leading_integer text.now }
{
    let numeral = numeral(text);
    if numeral.is_empty() {
        return Some(0);
    }
    let numeral: ScalarCow<'_> = ScalarOf::Str(CowStr::Borrowed(numeral));
    numeral.to_integer()
}
