//! The filters that take two numbers: the input and the argument.
ghost use Rattle.std.specs.Prelude.{◌≡◌, ◌≢◌, ◌+ℤ◌, ◌-ℤ◌, ◌*ℤ◌, pos, [], ◌∷◌, ◌&&◌, map, IfOk};
ghost use Rattle.liquid_decimals.specs.meaning.Dec.{dec};
ghost use Rattle.liquid_error.specs.meaning.Told.{Gives};
ghost use Rattle.liquid_value.specs.meaning.Cow.{cow_view};
ghost use Rattle.liquid_value.specs.meaning.View.{view as tree_of};
ghost use Rattle.liquid_filters.specs.meaning.value.Decimals.{is_whole};
ghost use Rattle.liquid_filters.specs.meaning.value.Numbers.{fits};
ghost use Rattle.liquid_filters.specs.meaning.number.Filters.{at_least, at_most, divided_by, division_operands, greater, lesser, minus};
ghost use Rattle.liquid_filters.specs.meaning.number.Filters.{modulo, operands, plus, quotient, quotient_with_digits, times};

use crate::number::digits::scale;
use crate::number::division::{floor_quotient, floor_remainder, narrow};
use crate::value::decimals::{decimal, decimal_value, is_whole, limited_decimal};
use crate::value::errors::{division_by_zero_error, unexpected_arguments_error};
use crate::value::numbers::check_limit;
use liquid_decimals::Decimal;
use liquid_error::Error;
use liquid_scalar::ScalarOf;
use liquid_value::{Value, ValueCow};
use std::alloc::Global;

/// Returns the sum of the input and the argument.
pub fn plus(alloc: Global, input: &Value, arguments: &[ValueCow<'_>]) -> Result<Value, Error>
    ensures { Gives tree_of result (plus (tree_of input.now) (map cow_view arguments.now)) }
{
    let (augend, addend) = operands(alloc, input, arguments)?;
    if are_whole(augend, addend) {
        check_limit(alloc, sum(augend.mantissa(), addend.mantissa()))
    } else {
        limited_decimal(alloc, augend.plus(addend))
    }
}

/// Returns the difference of the input and the argument.
pub fn minus(alloc: Global, input: &Value, arguments: &[ValueCow<'_>]) -> Result<Value, Error>
    ensures { Gives tree_of result (minus (tree_of input.now) (map cow_view arguments.now)) }
{
    let (minuend, subtrahend) = operands(alloc, input, arguments)?;
    if are_whole(minuend, subtrahend) {
        check_limit(alloc, difference(minuend.mantissa(), subtrahend.mantissa()))
    } else {
        limited_decimal(alloc, minuend.minus(subtrahend))
    }
}

/// Returns the product of the input and the argument.
pub fn times(alloc: Global, input: &Value, arguments: &[ValueCow<'_>]) -> Result<Value, Error>
    ensures { Gives tree_of result (times (tree_of input.now) (map cow_view arguments.now)) }
{
    let (multiplicand, multiplier) = operands(alloc, input, arguments)?;
    if are_whole(multiplicand, multiplier) {
        check_limit(
            alloc,
            product(multiplicand.mantissa(), multiplier.mantissa()),
        )
    } else {
        limited_decimal(alloc, multiplicand.times(multiplier))
    }
}

/// Returns the quotient of the input by the first argument: of integers rounded down, and of others with the greater
/// scale, a half away from zero. A second argument is the number of digits that the quotient has after the point.
pub fn divided_by(alloc: Global, input: &Value, arguments: &[ValueCow<'_>]) -> Result<Value, Error>
    ensures { Gives tree_of result (divided_by (tree_of input.now) (map cow_view arguments.now)) }
{
    match arguments {
        [divisor, digits] => quotient_with_digits(
            alloc,
            input,
            divisor.as_view(),
            digits.as_view(),
        ),
        [divisor] => quotient(alloc, input, divisor.as_view()),
        _ => Err(unexpected_arguments_error(alloc)),
    }
}

fn quotient(alloc: Global, input: &Value, divisor: &Value) -> Result<Value, Error>
    ensures { Gives tree_of result (divided_by (tree_of input.now) (tree_of divisor.now ∷ [])) }
{
    let (dividend, divisor) = division_operands(alloc, input, divisor)?;
    quotient_of(alloc, dividend, divisor)
}

fn quotient_of(alloc: Global, dividend: Decimal, divisor: Decimal) -> Result<Value, Error>
    requires { (dec divisor).0 ≢ pos 0 }
    ensures { Gives tree_of result (quotient (dec dividend, dec divisor)) }
{
    if are_whole(dividend, divisor) {
        check_limit(
            alloc,
            narrow(floor_quotient(dividend.mantissa(), divisor.mantissa())),
        )
    } else {
        let scale = dividend.scale().max(divisor.scale());
        limited_decimal(alloc, dividend.divided_by(divisor, scale))
    }
}

/// Returns the numbers of the input and of the argument, which is not 0.
fn division_operands(
    alloc: Global,
    input: &Value,
    argument: &Value,
) -> Result<(Decimal, Decimal), Error>
    ensures numbers { Gives (λ p. (dec p.0, dec p.1)) result (division_operands (tree_of input.now) (tree_of argument.now ∷ [])) }
    ensures nonzero { IfOk result (λ p. (dec p.1).0 ≢ pos 0) }
{
    let (dividend, divisor) = two_numbers(alloc, input, argument)?;
    if divisor.mantissa() == 0 {
        return Err(division_by_zero_error(alloc));
    }
    Ok((dividend, divisor))
}

fn quotient_with_digits(
    alloc: Global,
    input: &Value,
    divisor: &Value,
    digits: &Value,
) -> Result<Value, Error>
    ensures { Gives tree_of result (quotient_with_digits (tree_of input.now) (tree_of divisor.now) (tree_of digits.now)) }
{
    let (dividend, divisor) = two_numbers(alloc, input, divisor)?;
    let scale = scale(alloc, digits)?;
    if divisor.mantissa() == 0 {
        return Err(division_by_zero_error(alloc));
    }
    limited_decimal(alloc, dividend.divided_by(divisor, scale))
}

/// Returns the remainder of the input for the quotient that is rounded down. It has the sign of the argument.
pub fn modulo(alloc: Global, input: &Value, arguments: &[ValueCow<'_>]) -> Result<Value, Error>
    ensures { Gives tree_of result (modulo (tree_of input.now) (map cow_view arguments.now)) }
{
    let (dividend, divisor) = operands(alloc, input, arguments)?;
    if divisor.mantissa() == 0 {
        return Err(division_by_zero_error(alloc));
    }
    if are_whole(dividend, divisor) {
        check_limit(
            alloc,
            narrow(floor_remainder(dividend.mantissa(), divisor.mantissa())),
        )
    } else {
        limited_decimal(alloc, dividend.modulo(divisor))
    }
}

/// Returns the greater of the input and the argument.
pub fn at_least(alloc: Global, input: &Value, arguments: &[ValueCow<'_>]) -> Result<Value, Error>
    ensures { Gives tree_of result (at_least (tree_of input.now) (map cow_view arguments.now)) }
{
    let (number, least) = operands(alloc, input, arguments)?;
    if are_whole(number, least) {
        return Ok(Value::Scalar(ScalarOf::Integer(number.mantissa().max(least.mantissa()))));
    }
    decimal_value(alloc, greater(number, least))
}

/// Returns the lesser of the input and the argument.
pub fn at_most(alloc: Global, input: &Value, arguments: &[ValueCow<'_>]) -> Result<Value, Error>
    ensures { Gives tree_of result (at_most (tree_of input.now) (map cow_view arguments.now)) }
{
    let (number, most) = operands(alloc, input, arguments)?;
    if are_whole(number, most) {
        return Ok(Value::Scalar(ScalarOf::Integer(number.mantissa().min(most.mantissa()))));
    }
    decimal_value(alloc, lesser(number, most))
}

/// Returns the numbers of the input and of the one argument.
fn operands(
    alloc: Global,
    input: &Value,
    arguments: &[ValueCow<'_>],
) -> Result<(Decimal, Decimal), Error>
    ensures { Gives (λ p. (dec p.0, dec p.1)) result (operands (tree_of input.now) (map cow_view arguments.now)) }
{
    match arguments {
        [argument] => two_numbers(alloc, input, argument.as_view()),
        _ => Err(unexpected_arguments_error(alloc)),
    }
}

fn two_numbers(alloc: Global, input: &Value, argument: &Value) -> Result<(Decimal, Decimal), Error>
    ensures { Gives (λ p. (dec p.0, dec p.1)) result (operands (tree_of input.now) (tree_of argument.now ∷ [])) }
{
    let left = decimal(alloc, input)?;
    let right = decimal(alloc, argument)?;
    Ok((left, right))
}

fn are_whole(a: Decimal, b: Decimal) -> bool
    ensures { result ≡ (is_whole (dec a) && is_whole (dec b)) }
{
    is_whole(a) && is_whole(b)
}

fn greater(a: Decimal, b: Decimal) -> Decimal
    ensures { dec result ≡ greater (dec a) (dec b) }
{
    if a.compare(b).is_lt() { b } else { a }
}

fn lesser(a: Decimal, b: Decimal) -> Decimal
    ensures { dec result ≡ lesser (dec a) (dec b) }
{
    if b.compare(a).is_lt() { b } else { a }
}

fn sum(a: i64, b: i64) -> Option<i64>
    ensures { result ≡ fits (a +ℤ b) }
{
    a.checked_add(b)
}

fn difference(a: i64, b: i64) -> Option<i64>
    ensures { result ≡ fits (a -ℤ b) }
{
    a.checked_sub(b)
}

fn product(a: i64, b: i64) -> Option<i64>
    ensures { result ≡ fits (a *ℤ b) }
{
    a.checked_mul(b)
}
