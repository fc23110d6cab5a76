//! Division that rounds down.
ghost use Rattle.std.specs.Prelude.{◌≡◌, ◌≢◌, pos};
ghost use Rattle.liquid_filters.specs.meaning.value.Numbers.{fits};
ghost use Rattle.liquid_decimals.specs.meaning.Arithmetic.{floor_quotient, floor_remainder};

/// Returns the quotient rounded down.
pub(crate) fn floor_quotient(dividend: i64, divisor: i64) -> i128
    requires { divisor ≢ pos 0 }
    ensures { result ≡ floor_quotient dividend divisor }
{
    let (dividend, divisor) = (i128::from(dividend), i128::from(divisor));
    if divisor < 0 {
        (-dividend).div_euclid(-divisor)
    } else {
        dividend.div_euclid(divisor)
    }
}

/// Returns the remainder of the dividend for the quotient rounded down.
pub(crate) fn floor_remainder(dividend: i64, divisor: i64) -> i128
    requires { divisor ≢ pos 0 }
    ensures { result ≡ floor_remainder dividend divisor }
{
    let (dividend, divisor) = (i128::from(dividend), i128::from(divisor));
    if divisor < 0 {
        -(-dividend).rem_euclid(-divisor)
    } else {
        dividend.rem_euclid(divisor)
    }
}

/// Returns the number as an `i64`, if it fits.
pub(crate) fn narrow(number: i128) -> Option<i64>
    ensures { result ≡ fits number }
{
    i64::try_from(number).ok()
}
