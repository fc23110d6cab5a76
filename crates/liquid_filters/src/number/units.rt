//! The filters that write decimals and change their unit.
ghost use Rattle.std.specs.Prelude.{◌≡◌, map, option_map};
ghost use Rattle.liquid_decimals.specs.meaning.Dec.{dec};
ghost use Rattle.liquid_error.specs.meaning.Told.{Gives};
ghost use Rattle.liquid_value.specs.meaning.Cow.{cow_view};
ghost use Rattle.liquid_value.specs.meaning.View.{view as tree_of};
ghost use Rattle.liquid_filters.specs.meaning.number.Units.{from_minor, minor, styled_number, styled_text, to_minor, written_decimal};

use crate::number::digits::scale;
use crate::value::decimals::{decimal, limited_decimal};
use crate::value::errors::{digits_past_limit_error, past_limit_error, unexpected_arguments_error};
use crate::value::numbers::number;
use liquid_decimals::Decimal;
use liquid_error::Error;
use liquid_scalar::ScalarOf;
use liquid_value::{Value, ValueCow};
use std::alloc::Global;

/// Returns the text of the input with exactly as many digits after the point as the first argument says; a half is rounded
/// away from zero. The second argument is the point, and the third stands between each three digits before it.
pub fn written_decimal(
    alloc: Global,
    input: &Value,
    arguments: &[ValueCow<'_>],
) -> Result<Value, Error>
    ensures { Gives tree_of result (written_decimal (tree_of input.now) (map cow_view arguments.now)) }
{
    match arguments {
        [digits] => styled_number(alloc, ".", "", input, digits.as_view()),
        [digits, point] => {
            let point = point.as_view().to_kstr(alloc)?;
            styled_number(alloc, point.as_str(), "", input, digits.as_view())
        }
        [digits, point, separator] => {
            let point = point.as_view().to_kstr(alloc)?;
            let separator = separator.as_view().to_kstr(alloc)?;
            styled_number(
                alloc,
                point.as_str(),
                separator.as_str(),
                input,
                digits.as_view(),
            )
        }
        _ => Err(unexpected_arguments_error(alloc)),
    }
}

/// Returns the integer of the input as a decimal with as many digits after the point as the argument says.
pub fn from_minor(alloc: Global, input: &Value, arguments: &[ValueCow<'_>]) -> Result<Value, Error>
    ensures { Gives tree_of result (from_minor (tree_of input.now) (map cow_view arguments.now)) }
{
    match arguments {
        [digits] => {
            let number = number(alloc, input)?;
            let scale = scale(alloc, digits.as_view())?;
            limited_decimal(alloc, Decimal::new(number, scale))
        }
        _ => Err(unexpected_arguments_error(alloc)),
    }
}

/// Returns the input times ten to as many digits as the argument says, an integer. Fails if a digit would be lost.
pub fn to_minor(alloc: Global, input: &Value, arguments: &[ValueCow<'_>]) -> Result<Value, Error>
    ensures { Gives tree_of result (to_minor (tree_of input.now) (map cow_view arguments.now)) }
{
    match arguments {
        [digits] => {
            let decimal = decimal(alloc, input)?;
            let scale = scale(alloc, digits.as_view())?;
            if decimal.loses_digits(scale) {
                return Err(digits_past_limit_error(alloc));
            }
            minor(alloc, decimal.round(scale))
        }
        _ => Err(unexpected_arguments_error(alloc)),
    }
}

fn minor(alloc: Global, decimal: Option<Decimal>) -> Result<Value, Error>
    ensures { Gives tree_of result (minor (option_map dec decimal)) }
{
    match decimal {
        Some(decimal) => Ok(Value::Scalar(ScalarOf::Integer(decimal.mantissa()))),
        None => Err(past_limit_error(alloc)),
    }
}

fn styled_number(
    alloc: Global,
    point: &str,
    separator: &str,
    input: &Value,
    digits: &Value,
) -> Result<Value, Error>
    ensures { Gives tree_of result (styled_number point.now separator.now (tree_of input.now) (tree_of digits.now)) }
{
    let decimal = decimal(alloc, input)?;
    let scale = scale(alloc, digits)?;
    styled_text(alloc, point, separator, decimal.round(scale))
}

fn styled_text(
    alloc: Global,
    point: &str,
    separator: &str,
    decimal: Option<Decimal>,
) -> Result<Value, Error>
    ensures { Gives tree_of result (styled_text point.now separator.now (option_map dec decimal)) }
{
    match decimal {
        Some(decimal) => Ok(Value::Scalar(ScalarOf::Str(decimal.to_grouped(
            alloc, point, separator,
        )?))),
        None => Err(past_limit_error(alloc)),
    }
}
