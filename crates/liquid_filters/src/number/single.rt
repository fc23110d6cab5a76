//! The filters on one number.
ghost use Rattle.std.specs.Prelude.{◌≡◌, pos, map, option_map, unsigned_abs};
ghost use Rattle.liquid_decimals.specs.meaning.Dec.{dec};
ghost use Rattle.liquid_error.specs.meaning.Told.{Gives};
ghost use Rattle.liquid_value.specs.meaning.Cow.{cow_view};
ghost use Rattle.liquid_value.specs.meaning.View.{view as tree_of};
ghost use Rattle.liquid_filters.specs.meaning.value.Numbers.{fits, limited};
ghost use Rattle.liquid_filters.specs.meaning.number.Rounding.{rounded};
ghost use Rattle.liquid_filters.specs.meaning.number.Filters.{abs, ceil, digits, floor, round, rounded_decimal, rounded_number};

use crate::number::division::narrow;
use crate::number::rounding::round_to_digits;
use crate::value::decimals::{decimal, is_whole, limited_decimal};
use crate::value::errors::unexpected_arguments_error;
use crate::value::numbers::{check_limit, number};
use liquid_decimals::Decimal;
use liquid_error::Error;
use liquid_scalar::ScalarOf;
use liquid_value::{Value, ValueCow};
use std::alloc::Global;

/// The greatest number of digits after the point.
const GREATEST_SCALE: u64 = 18;

/// Returns the distance of the input from zero.
pub fn abs(alloc: Global, input: &Value) -> Result<Value, Error>
    ensures { Gives tree_of result (abs (tree_of input.now)) }
{
    let number = decimal(alloc, input)?;
    if is_whole(number) {
        check_limit(alloc, magnitude(number.mantissa()))
    } else {
        limited_decimal(alloc, number.abs())
    }
}

/// Returns the least integer that is not below the input.
pub fn ceil(alloc: Global, input: &Value) -> Result<Value, Error>
    ensures { Gives tree_of result (ceil (tree_of input.now)) }
{
    let number = decimal(alloc, input)?;
    let ceiling = if is_whole(number) {
        number.mantissa()
    } else {
        number.ceil()
    };
    Ok(Value::Scalar(ScalarOf::Integer(ceiling)))
}

/// Returns the greatest integer that is not above the input.
pub fn floor(alloc: Global, input: &Value) -> Result<Value, Error>
    ensures { Gives tree_of result (floor (tree_of input.now)) }
{
    let number = decimal(alloc, input)?;
    let floor = if is_whole(number) {
        number.mantissa()
    } else {
        number.floor()
    };
    Ok(Value::Scalar(ScalarOf::Integer(floor)))
}

/// Returns the input rounded to the number of digits after the point that the argument gives: to tens by -1, to hundreds by
/// -2, and so on.
///
/// A half is rounded away from zero. From 0 digits down, or without an argument, the result is an integer. An integer
/// stays itself from 0 digits on.
pub fn round(alloc: Global, input: &Value, arguments: &[ValueCow<'_>]) -> Result<Value, Error>
    ensures { Gives tree_of result (round (tree_of input.now) (map cow_view arguments.now)) }
{
    let number = decimal(alloc, input)?;
    let digits = digits(alloc, arguments)?;
    round_number(alloc, number, digits)
}

fn round_number(alloc: Global, number: Decimal, digits: i64) -> Result<Value, Error>
    ensures { Gives tree_of result (rounded_number (dec number) digits) }
{
    if is_whole(number) {
        round_whole(alloc, number.mantissa(), digits)
    } else {
        limited_decimal(alloc, round_decimal(number, digits))
    }
}

fn round_whole(alloc: Global, number: i64, digits: i64) -> Result<Value, Error>
    ensures { Gives tree_of result (limited (fits (rounded number digits))) }
{
    check_limit(alloc, narrow(round_to_digits(number, digits)))
}

/// Returns the decimal rounded to that many digits after the point, and from 0 digits down to an integer.
#[tactic(auto, using(crate::proofs::RoundingLemmas::round_past))]
fn round_decimal(decimal: Decimal, digits: i64) -> Option<Decimal>
    ensures { option_map dec result ≡ rounded_decimal (dec decimal) digits }
{
    let count = digits.unsigned_abs();
    if digits <= 0 {
        return decimal.round_to_power(count);
    }
    if count > GREATEST_SCALE {
        return None;
    }
    decimal.round(count as u32)
}

/// Returns the number of digits to round to: none, or as many as the argument says.
fn digits(alloc: Global, arguments: &[ValueCow<'_>]) -> Result<i64, Error>
    ensures { Gives (λ n. n) result (digits (map cow_view arguments.now)) }
{
    match arguments {
        [] => Ok(0),
        [digits] => number(alloc, digits.as_view()),
        _ => Err(unexpected_arguments_error(alloc)),
    }
}

fn magnitude(number: i64) -> Option<i64>
    ensures { result ≡ fits (pos (unsigned_abs number)) }
{
    number.checked_abs()
}
