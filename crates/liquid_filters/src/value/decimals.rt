//! The decimal of a value, and the value of a decimal.
ghost use Rattle.std.specs.Prelude.{◌≡◌, option_map, string_bytes};
ghost use Rattle.liquid_decimals.specs.meaning.Dec.{dec};
ghost use Rattle.liquid_error.specs.meaning.Told.{Gives};
ghost use Rattle.liquid_scalar.specs.meaning.Scalar.{scal};
ghost use Rattle.liquid_value.specs.meaning.View.{view as tree_of};
ghost use Rattle.liquid_filters.specs.meaning.value.Decimals.{decimal, decimal_of, decimal_tree, is_whole, limited_decimal, scalar_decimal};
ghost use Rattle.liquid_filters.specs.meaning.value.Decimals.{written_decimal};

use crate::value::errors::{past_limit_error, whole_number_error};
use crate::value::numbers::number_of;
use liquid_decimals::Decimal;
use liquid_error::Error;
use liquid_scalar::{Scalar, ScalarOf};
use liquid_value::Value;
use std::alloc::Global;

/// Returns the decimal of a value: its number, or the decimal that its text writes. Fails for a value that is no number.
pub fn decimal(alloc: Global, value: &Value) -> Result<Decimal, Error>
    ensures { Gives dec result (decimal (tree_of value.now)) }
{
    match decimal_of(value) {
        Some(decimal) => Ok(decimal),
        None => Err(whole_number_error(alloc, value)),
    }
}

/// Returns the decimal of a value, if it has one.
pub fn decimal_of(value: &Value) -> Option<Decimal>
    ensures { option_map dec result ≡ decimal_of (tree_of value.now) }
{
    match number_of(value) {
        Some(number) => Some(Decimal::from_whole(number)),
        None => written_decimal(value),
    }
}

/// Returns the decimal as a value: a number if it has no digits after the point, and otherwise its text. Fails if there is
/// none, since it was past its limit.
pub fn limited_decimal(alloc: Global, decimal: Option<Decimal>) -> Result<Value, Error>
    ensures { Gives tree_of result (limited_decimal (option_map dec decimal)) }
{
    match decimal {
        Some(decimal) => decimal_value(alloc, decimal),
        None => Err(past_limit_error(alloc)),
    }
}

/// Returns `true` if the decimal has no digits after the point.
pub fn is_whole(decimal: Decimal) -> bool
    ensures { result ≡ is_whole (dec decimal) }
{
    decimal.scale() == 0
}

/// Returns the decimal as a value: a number if it has no digits after the point, and otherwise its text. Fails if memory runs
/// out.
pub fn decimal_value(alloc: Global, decimal: Decimal) -> Result<Value, Error>
    ensures { Gives tree_of result (Ok (decimal_tree (dec decimal))) }
{
    if is_whole(decimal) {
        return Ok(Value::Scalar(ScalarOf::Integer(decimal.mantissa())));
    }
    Ok(Value::Scalar(ScalarOf::Str(decimal.to_string(alloc)?)))
}

fn written_decimal(value: &Value) -> Option<Decimal>
    ensures { option_map dec result ≡ written_decimal (tree_of value.now) }
{
    match value {
        Value::Scalar(scalar) => scalar_decimal(scalar),
        _ => None,
    }
}

fn scalar_decimal(scalar: &Scalar) -> Option<Decimal>
    ensures { option_map dec result ≡ scalar_decimal (scal string_bytes scalar.now) }
{
    match scalar {
        ScalarOf::Str(text) => Decimal::from_text(text.as_str()),
        _ => None,
    }
}
