//! Numbers of JSON as values.
ghost use Rattle.std.specs.Prelude.{◌≡◌, option_map};
ghost use Rattle.std.specs.List.{position};
ghost use Rattle.liquid_error.specs.meaning.Told.{Gives};
ghost use Rattle.liquid_value.specs.meaning.View.{view};
ghost use Rattle.liquid_decimals.specs.meaning.Dec.{dec};
ghost use Rattle.liquid_json.specs.meaning.decimals.Number.{decimal_given, decimal_of_number, is_integer, is_mark};
ghost use Rattle.liquid_json.specs.meaning.decimals.Number.{is_point_or_mark, number_given, with_exponent, without_plus};

use liquid_decimals::Decimal;
use liquid_error::{Error, Result};
use liquid_scalar::Scalar;
use liquid_value::Value;
use std::alloc::Global;

/// Returns the value of a number: an integer if it has no digits after the point, and otherwise the string of its
/// decimal.
///
/// An integer that is not an `i64` is the error "Cannot fit number", and any other number that is not a decimal is
/// "Fractional number".
pub fn number_value(alloc: Global, text: &str) -> Result<Value>
    ensures { Gives view result (number_given text.now) }
{
    match decimal_of_number(text.as_bytes()) {
        Some(decimal) => decimal_value(alloc, decimal),
        None if is_integer(text.as_bytes()) => Err(Error::with_msg(alloc, "Cannot fit number")),
        None => Err(Error::with_msg(alloc, "Fractional number")),
    }
}

/// Returns the decimal that a number of JSON is, if it is one.
fn decimal_of_number(number: &[u8]) -> Option<Decimal>
    ensures { option_map dec result ≡ decimal_of_number number.now }
{
    match mark_in(number) {
        Some(mark) => with_exponent(&number[..mark], &number[mark + 1..]),
        None => Decimal::from_bytes(number),
    }
}

/// Returns the decimal of a number with an exponent.
fn with_exponent(front: &[u8], exponent: &[u8]) -> Option<Decimal>
    ensures { option_map dec result ≡ with_exponent front.now exponent.now }
{
    let decimal = Decimal::from_bytes(front)?;
    let exponent = Decimal::from_bytes(without_plus(exponent))?;
    let power = exponent.mantissa().checked_sub(i64::from(decimal.scale()))?;
    Decimal::from_power(decimal.mantissa(), power)
}

fn without_plus(exponent: &[u8]) -> &[u8]
    ensures { result.now ≡ without_plus exponent.now }
{
    match exponent {
        [b'+', rest @ ..] => rest,
        _ => exponent,
    }
}

/// Returns the position of the mark before an exponent, if there is one.
fn mark_in(number: &[u8]) -> Option<usize>
    ensures { result ≡ position is_mark number.now }
{
    number.iter().position(|byte| is_mark(*byte))
}

/// Returns `true` for a number without a point and an exponent.
fn is_integer(number: &[u8]) -> bool
    ensures { result ≡ is_integer number.now }
{
    point_or_mark_in(number).is_none()
}

fn point_or_mark_in(number: &[u8]) -> Option<usize>
    ensures { result ≡ position is_point_or_mark number.now }
{
    number.iter().position(|byte| is_point_or_mark(*byte))
}

fn is_mark(byte: u8) -> bool
    ensures { result ≡ is_mark byte }
{
    byte == b'e' || byte == b'E'
}

fn is_point_or_mark(byte: u8) -> bool
    ensures { result ≡ is_point_or_mark byte }
{
    byte == b'.' || is_mark(byte)
}

fn decimal_value(alloc: Global, decimal: Decimal) -> Result<Value>
    ensures { Gives view result (decimal_given (dec decimal)) }
{
    if decimal.scale() == 0 {
        Ok(Value::Scalar(Scalar::Integer(decimal.mantissa())))
    } else {
        Ok(Value::Scalar(Scalar::Str(decimal.to_string(alloc)?)))
    }
}
