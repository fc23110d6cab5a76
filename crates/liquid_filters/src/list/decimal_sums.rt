//! The sum of decimals.
ghost use Rattle.std.specs.Prelude.{◌≡◌, ◌≤◌, ◌^◌, ◌*ℤ◌, ◌+ℤ◌, ◌≤ℤ◌, ◌<ℤ◌, pos, neg_ℤ, map, option_map};
ghost use Rattle.liquid_decimals.specs.meaning.Arithmetic.{mantissa_at};
ghost use Rattle.liquid_decimals.specs.meaning.Dec.{dec};
ghost use Rattle.liquid_filters.specs.meaning.value.Numbers.{fits};
ghost use Rattle.liquid_filters.specs.meaning.list.DecimalSums.{greatest_scale, sum_at, sum_of};

use liquid_decimals::Decimal;

/// The bound of the lower part of a mantissa. The sums of parts fit into an `i128`, which the sum of mantissas may not.
const PART: i128 = 0x4000_0000_0000_0000;

/// Returns the exact sum of the decimals with the greatest of their scales, if its mantissa is an `i64`.
pub(crate) fn sum_of(decimals: &[Decimal]) -> Option<Decimal>
    ensures { option_map dec result ≡ sum_of (map dec decimals.now) }
{
    let scale = greatest_scale(decimals);
    let mantissa = sum_at(decimals, scale)?;
    Decimal::new(mantissa, scale)
}

/// Returns the greatest scale, which is 0 for no decimals.
fn greatest_scale(decimals: &[Decimal]) -> u32
    ensures value { result ≡ greatest_scale (map dec decimals.now) }
    ensures limit { result ≤ 18 }
{
    let mut greatest = 0;
    for decimal in decimals {
        greatest = decimal.scale().max(greatest);
    }
    greatest
}

/// Returns the sum of the mantissas at that scale, if it is an `i64`.
fn sum_at(decimals: &[Decimal], scale: u32) -> Option<i64>
    requires { scale ≤ 18 }
    ensures { result ≡ fits (sum_at scale (map dec decimals.now)) }
{
    let mut upper = 0i128;
    let mut lower = 0i128;
    for decimal in decimals {
        let mantissa = mantissa_at(decimal, scale);
        let (more_upper, more_lower) = parts(mantissa);
        upper += more_upper;
        lower += more_lower;
    }
    let (carry, rest) = parts(lower);
    join_parts(upper + carry, rest)
}

/// Returns the mantissa of the decimal with this number of digits after the point.
#[tactic(auto, using(crate::proofs::Sums::product_below, crate::proofs::Sums::product_above))]
fn mantissa_at(decimal: &Decimal, scale: u32) -> i128
    requires { scale ≤ 18 }
    ensures value { result ≡ mantissa_at scale (dec decimal.now) }
    ensures below { result ≤ℤ pos (2 ^ 124) }
    ensures above { neg_ℤ (pos (2 ^ 124)) ≤ℤ result }
{
    let power = scale.saturating_sub(decimal.scale());
    i128::from(decimal.mantissa()) * i128::from(ten_to(power))
}

/// Returns ten to a power.
#[tactic(auto, using(liquid_decimals::proofs::Tens::tens_le_18, liquid_decimals::proofs::Tens::tens_above_0))]
fn ten_to(power: u32) -> u64
    requires { power ≤ 18 }
    ensures value { result ≡ 10 ^ power }
    ensures below { result ≤ 10 ^ 18 }
{
    10u64.pow(power)
}

/// Returns the parts of a number: the quotient by the bound of lower parts, rounded down, and the remainder.
#[tactic(auto, using(crate::proofs::Sums::parts_add_up, crate::proofs::Sums::rest_above, crate::proofs::Sums::rest_below))]
fn parts(number: i128) -> (i128, i128)
    ensures sum { result.0 *ℤ pos (2 ^ 62) +ℤ result.1 ≡ number }
    ensures from { pos 0 ≤ℤ result.1 }
    ensures below { result.1 <ℤ pos (2 ^ 62) }
{
    (number.div_euclid(PART), number.rem_euclid(PART))
}

/// Returns the number of these parts, if it is an `i64`.
fn join_parts(upper: i128, lower: i128) -> Option<i64>
    requires from { pos 0 ≤ℤ lower }
    requires below { lower <ℤ pos (2 ^ 62) }
    ensures { result ≡ fits (upper *ℤ pos (2 ^ 62) +ℤ lower) }
{
    if upper < -2 || upper > 1 {
        return None;
    }
    Some((upper * PART + lower) as i64)
}
