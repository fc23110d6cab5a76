//! Quotients of decimals.
ghost use Rattle.std.specs.Prelude.{◌≡◌, ◌≢◌, ◌≤◌, ◌<◌, ◌+◌, ◌-◌, ◌*◌, ◌^◌, Some};
ghost use Rattle.std.specs.Prelude.{None, pos, neg_ℤ, ◌<ℤ◌, ◌≤ℤ◌, nat_lt, unsigned_abs, option_map, if◌then◌else◌};
ghost use Rattle.std.specs.Int.{int_div_euclid};
ghost use Rattle.liquid_decimals.specs.meaning.Dec.{dec, limited, signed};
ghost use Rattle.liquid_decimals.specs.meaning.Rounding.{ceil, differ_in_sign, divided_by, floor};
ghost use Rattle.liquid_decimals.specs.meaning.Rounding.{loses_digits, nearest, round, round_to_power};

use crate::decimal::Decimal;
use crate::parts::{GREATEST_SCALE, decimal_from};

/// The exponent of the greatest power of ten whose half some mantissa reaches.
const GREATEST_POWER: u64 = 19;

impl Decimal {
    /// Returns the quotient with this number of digits after the point, rounded to the nearest; a half is rounded away from
    /// zero. Returns `None` if the divisor is 0, if the scale is above 18, and if the mantissa is no `i64`.
    pub fn divided_by(self, divisor: Decimal, scale: u32) -> Option<Decimal>
        ensures { option_map dec result ≡ divided_by (dec self) (dec divisor) scale }
    {
        if divisor.mantissa == 0 || scale > GREATEST_SCALE {
            return None;
        }
        quotient(
            differ_in_sign(self.mantissa, divisor.mantissa),
            multiply_by_tens(self.mantissa, divisor.scale),
            multiply_by_tens(divisor.mantissa, self.scale),
            scale,
        )
    }

    /// Returns the nearest decimal with this number of digits after the point; a half is rounded away from zero. Returns
    /// `None` if the scale is above 18 or the mantissa is no `i64`.
    pub fn round(self, scale: u32) -> Option<Decimal>
        ensures { option_map dec result ≡ round scale (dec self) }
    {
        if scale > GREATEST_SCALE {
            return None;
        }
        let magnitude = u128::from(self.mantissa.unsigned_abs());
        quotient(self.mantissa < 0, magnitude, ten_to(self.scale), scale)
    }

    /// Returns the nearest multiple of ten to this power, an integer; a half is rounded away from zero. Returns `None`
    /// if it is no `i64`.
    pub fn round_to_power(self, power: u64) -> Option<Decimal>
        ensures { option_map dec result ≡ round_to_power power (dec self) }
    {
        if power > GREATEST_POWER {
            return Decimal::new(0, 0);
        }
        let power = power as u32;
        let magnitude = u128::from(self.mantissa.unsigned_abs());
        let multiples = whole_quotient(magnitude, ten_to(self.scale + power));
        multiple_of_power(self.mantissa < 0, multiples, power)
    }

    /// Returns the greatest integer that is not above this number.
    pub fn floor(self) -> i64
        ensures { result ≡ floor (dec self) }
    {
        self.mantissa.div_euclid(unit(self.scale))
    }

    /// Returns the least integer that is not below this number.
    pub fn ceil(self) -> i64
        ensures { result ≡ ceil (dec self) }
    {
        -floor_quotient(-i128::from(self.mantissa), unit(self.scale)) as i64
    }

    /// Returns `true` if a digit other than 0 would be lost with this number of digits after the point.
    pub fn loses_digits(self, scale: u32) -> bool
        ensures { result ≡ loses_digits scale (dec self) }
    {
        let unit = ten_to(self.scale.saturating_sub(scale));
        u128::from(self.mantissa.unsigned_abs()) % unit != 0
    }
}

/// Returns `true` if one number is below 0 and the other isn't.
fn differ_in_sign(a: i64, b: i64) -> bool
    ensures { result ≡ differ_in_sign a b }
{
    if a < 0 { b >= 0 } else { b < 0 }
}

/// Returns the decimal nearest to the quotient, if its mantissa is an `i64`.
#[tactic(auto, using(crate::proofs::Nearest::limited_past))]
fn quotient(minus: bool, dividend: u128, divisor: u128, scale: u32) -> Option<Decimal>
    requires positive { 0 < divisor }
    requires dividend { dividend ≤ 10 ^ 37 }
    requires divisor { divisor ≤ 10 ^ 37 }
    requires scale { scale ≤ 18 }
    ensures { option_map dec result ≡ limited (signed minus (nearest (dividend * 10 ^ scale) divisor)) scale }
{
    match long_division(dividend, divisor, scale) {
        Some(magnitude) => decimal_from(minus, magnitude, scale),
        None => None,
    }
}

/// Returns the integer nearest to the quotient of a magnitude.
fn whole_quotient(dividend: u128, divisor: u128) -> u128
    requires positive { 0 < divisor }
    requires dividend { dividend ≤ 2 ^ 63 }
    requires divisor { divisor ≤ 10 ^ 37 }
    ensures value { result ≡ nearest dividend divisor }
    ensures below { result ≤ 2 ^ 63 }
{
    (dividend * 2 + divisor) / (divisor * 2)
}

/// Returns a multiple of ten to a power, as a decimal, if its mantissa is an `i64`.
#[tactic(auto, using(crate::proofs::Nearest::limited_past))]
fn multiple_of_power(minus: bool, multiples: u128, power: u32) -> Option<Decimal>
    requires power { power ≤ 19 }
    requires multiples { multiples ≤ 2 ^ 63 }
    ensures { option_map dec result ≡ limited (signed minus (multiples * 10 ^ power)) 0 }
{
    match u64::try_from(multiples * ten_to_19(power)) {
        Ok(magnitude) => decimal_from(minus, magnitude, 0),
        Err(_) => None,
    }
}

/// Returns ten to a scale.
#[tactic(auto, using(crate::proofs::Tens::tens_le_18, crate::proofs::Tens::tens_above_0))]
fn unit(scale: u32) -> i64
    requires { scale ≤ 18 }
    ensures value { result ≡ pos (10 ^ scale) }
    ensures above { pos 0 <ℤ result }
{
    10u64.pow(scale) as i64
}

/// Returns the quotient of the dividend by the unit, rounded down.
#[tactic(auto, using(crate::proofs::FloorLemmas::quotient_below, crate::proofs::FloorLemmas::quotient_above))]
fn floor_quotient(dividend: i128, unit: i64) -> i128
    requires unit { pos 0 <ℤ unit }
    requires below { dividend ≤ℤ pos (2 ^ 63) }
    requires above { neg_ℤ (pos (2 ^ 63 - 1)) ≤ℤ dividend }
    ensures value { result ≡ int_div_euclid dividend unit }
    ensures below { result ≤ℤ pos (2 ^ 63) }
    ensures above { neg_ℤ (pos (2 ^ 63 - 1)) ≤ℤ result }
{
    dividend.div_euclid(i128::from(unit))
}

/// Returns ten to a power.
#[tactic(auto, using(crate::proofs::Tens::tens_le_37, crate::proofs::Tens::tens_above_0))]
fn ten_to(power: u32) -> u128
    requires { power ≤ 37 }
    ensures value { result ≡ 10 ^ power }
    ensures above { 0 < result }
    ensures below { result ≤ 10 ^ 37 }
{
    10u128.pow(power)
}

/// Returns ten to a power of at most 19.
#[tactic(auto, using(crate::proofs::Tens::tens_le_19))]
fn ten_to_19(power: u32) -> u128
    requires { power ≤ 19 }
    ensures value { result ≡ 10 ^ power }
    ensures below { result ≤ 10 ^ 19 }
{
    10u128.pow(power)
}

/// Returns the magnitude of the mantissa times ten to a power.
#[tactic(auto, using(crate::proofs::Tens::tens_le_18, crate::proofs::Tens::tens_above_0, crate::proofs::Tens::product_le, crate::proofs::Tens::product_above_0, crate::proofs::Tens::unsigned_abs_above_0))]
pub(crate) fn multiply_by_tens(mantissa: i64, power: u32) -> u128
    requires { power ≤ 18 }
    ensures value { result ≡ unsigned_abs mantissa * 10 ^ power }
    ensures below { result ≤ 10 ^ 37 }
    ensures above { mantissa ≢ pos 0 → 0 < result }
{
    u128::from(mantissa.unsigned_abs()) * u128::from(10u64.pow(power))
}

/// Returns the quotient with that many decimal digits, without its point, rounded to the nearest; a half is rounded up.
/// Returns `None` if it is no `u64`.
fn long_division(dividend: u128, divisor: u128, digits: u32) -> Option<u64>
    requires positive { 0 < divisor }
    requires dividend { dividend ≤ 10 ^ 37 }
    requires divisor { divisor ≤ 10 ^ 37 }
    ensures { let quotient = nearest (dividend * 10 ^ digits) divisor in
        result ≡ (if nat_lt quotient (2 ^ 64) then Some quotient else None) }
{
    let mut quotient = dividend / divisor;
    let mut rest = dividend % divisor;
    for _digit in 0..digits {
        if quotient > u128::from(u64::MAX) {
            return None;
        }
        quotient = quotient * 10 + rest * 10 / divisor;
        rest = rest * 10 % divisor;
    }
    u64::try_from(round_quotient(quotient, rest, divisor)).ok()
}

/// Returns the quotient, or the next one if the rest is half the divisor or more.
fn round_quotient(quotient: u128, rest: u128, divisor: u128) -> u128
    requires rest { rest < divisor }
    requires divisor { divisor ≤ 10 ^ 37 }
    requires quotient { quotient ≤ 10 ^ 37 }
    ensures { result ≡ nearest (quotient * divisor + rest) divisor }
{
    if rest * 2 < divisor {
        quotient
    } else {
        quotient + 1
    }
}
