//! Sums, differences, products and remainders of decimals.
ghost use Rattle.std.specs.Prelude.{◌≡◌, ◌≢◌, ◌≤◌, ◌<◌, ◌*◌, ◌^◌, pos, neg_ℤ, ◌*ℤ◌, ◌≤ℤ◌, option_map, unsigned_abs};
ghost use Rattle.std.specs.Int.{is_negative};
ghost use Rattle.liquid_decimals.specs.meaning.Dec.{dec, signed};
ghost use Rattle.liquid_decimals.specs.meaning.Arithmetic.{abs, compare, floor_remainder, mantissa_at, minus, modulo, plus, times};
ghost use Rattle.liquid_decimals.specs.meaning.Arithmetic.{power_of_ten_times};

use crate::decimal::Decimal;
use crate::division::multiply_by_tens;
use crate::parts::{GREATEST_SCALE, decimal_from, narrow};
use std::cmp::Ordering;

impl Decimal {
    /// Returns the exact sum, with the greater of the two scales, if its mantissa is an `i64`.
    pub fn plus(self, addend: Decimal) -> Option<Decimal>
        ensures { option_map dec result ≡ plus (dec self) (dec addend) }
    {
        let scale = self.scale.max(addend.scale);
        narrow(mantissa_at(self, scale) + mantissa_at(addend, scale), scale)
    }

    /// Returns the exact difference, with the greater of the two scales, if its mantissa is an `i64`.
    pub fn minus(self, subtrahend: Decimal) -> Option<Decimal>
        ensures { option_map dec result ≡ minus (dec self) (dec subtrahend) }
    {
        let scale = self.scale.max(subtrahend.scale);
        narrow(
            mantissa_at(self, scale) - mantissa_at(subtrahend, scale),
            scale,
        )
    }

    /// Returns the exact product, whose scale is the sum of the two scales, if that is at most 18 and its mantissa is an
    /// `i64`.
    pub fn times(self, multiplier: Decimal) -> Option<Decimal>
        ensures { option_map dec result ≡ times (dec self) (dec multiplier) }
    {
        let mantissa = self.mantissa.checked_mul(multiplier.mantissa)?;
        Decimal::new(mantissa, self.scale + multiplier.scale)
    }

    /// Returns the remainder for the quotient rounded down, with the greater of the two scales. It has the sign of the
    /// divisor. Returns `None` if the divisor is 0 or the mantissa is no `i64`.
    pub fn modulo(self, divisor: Decimal) -> Option<Decimal>
        ensures { option_map dec result ≡ modulo (dec self) (dec divisor) }
    {
        if divisor.mantissa == 0 {
            return None;
        }
        let scale = self.scale.max(divisor.scale);
        let rest = floor_remainder(mantissa_at(self, scale), mantissa_at(divisor, scale));
        narrow(rest, scale)
    }

    /// Returns the distance from zero, if its mantissa is an `i64`.
    pub fn abs(self) -> Option<Decimal>
        ensures { option_map dec result ≡ abs (dec self) }
    {
        decimal_from(false, self.mantissa.unsigned_abs(), self.scale)
    }

    /// Compares the two numbers. Their scales don't matter: 1.5 equals 1.50.
    pub fn compare(self, other: Decimal) -> Ordering
        ensures { result ≡ compare (dec self) (dec other) }
    {
        let left = multiple(self.mantissa, other.scale);
        let right = multiple(other.mantissa, self.scale);
        left.cmp(&right)
    }

    /// Returns the decimal of a mantissa times ten to a power. The scale is 0, or for a power below 0 as many digits as
    /// that has. Returns `None` for a scale above 18 and for a mantissa that is no `i64`.
    #[tactic(auto, using(crate::proofs::Tens::power_below, crate::proofs::Tens::power_above))]
    pub fn from_power(mantissa: i64, exponent: i64) -> Option<Decimal>
        ensures { option_map dec result ≡ power_of_ten_times mantissa exponent }
    {
        let power = exponent.unsigned_abs();
        if power > u64::from(GREATEST_SCALE) {
            return far_power(mantissa, exponent);
        }
        if exponent < 0 {
            Decimal::new(mantissa, power as u32)
        } else {
            narrow(multiple(mantissa, power as u32), 0)
        }
    }
}

/// Returns 0 for no mantissa and a power that is not below 0, and otherwise `None`.
#[tactic(auto, using(crate::proofs::Tens::far_below, crate::proofs::Tens::far_zero, crate::proofs::Tens::far_above))]
fn far_power(mantissa: i64, exponent: i64) -> Option<Decimal>
    requires { 18 < unsigned_abs exponent }
    ensures { option_map dec result ≡ power_of_ten_times mantissa exponent }
{
    if exponent < 0 {
        None
    } else if mantissa == 0 {
        Decimal::new(0, 0)
    } else {
        None
    }
}

/// Returns the mantissa of the decimal with this number of digits after the point.
fn mantissa_at(decimal: Decimal, scale: u32) -> i128
    requires room { decimal.scale ≤ scale }
    requires scale { scale ≤ 18 }
    ensures value { result ≡ mantissa_at scale (dec decimal) }
    ensures nonzero { decimal.mantissa ≢ pos 0 → result ≢ pos 0 }
    ensures below { result ≤ℤ pos (10 ^ 37) }
    ensures above { neg_ℤ (pos (10 ^ 37)) ≤ℤ result }
{
    multiple(decimal.mantissa, scale - decimal.scale)
}

/// Returns the mantissa times ten to a power.
#[tactic(auto, using(crate::proofs::Tens::signed_product))]
fn multiple(mantissa: i64, power: u32) -> i128
    requires { power ≤ 18 }
    ensures value { result ≡ mantissa *ℤ pos (10 ^ power) }
    ensures nonzero { mantissa ≢ pos 0 → result ≢ pos 0 }
    ensures below { result ≤ℤ pos (10 ^ 37) }
    ensures above { neg_ℤ (pos (10 ^ 37)) ≤ℤ result }
{
    signed_multiple(mantissa, power)
}

fn signed_multiple(mantissa: i64, power: u32) -> i128
    requires { power ≤ 18 }
    ensures value { result ≡ signed (is_negative mantissa) (unsigned_abs mantissa * 10 ^ power) }
    ensures nonzero { mantissa ≢ pos 0 → result ≢ pos 0 }
    ensures below { result ≤ℤ pos (10 ^ 37) }
    ensures above { neg_ℤ (pos (10 ^ 37)) ≤ℤ result }
{
    let magnitude = multiply_by_tens(mantissa, power) as i128;
    if mantissa < 0 { -magnitude } else { magnitude }
}

/// Returns the remainder of the dividend for the quotient rounded down.
fn floor_remainder(dividend: i128, divisor: i128) -> i128
    requires divisor { divisor ≢ pos 0 }
    requires dividend_below { dividend ≤ℤ pos (10 ^ 37) }
    requires dividend_above { neg_ℤ (pos (10 ^ 37)) ≤ℤ dividend }
    requires below { divisor ≤ℤ pos (10 ^ 37) }
    requires above { neg_ℤ (pos (10 ^ 37)) ≤ℤ divisor }
    ensures { result ≡ floor_remainder dividend divisor }
{
    if divisor < 0 {
        -(-dividend).rem_euclid(-divisor)
    } else {
        dividend.rem_euclid(divisor)
    }
}
