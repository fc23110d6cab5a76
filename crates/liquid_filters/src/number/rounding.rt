//! Rounding to tens, hundreds and so on.
ghost use Rattle.std.specs.Prelude.{◌≡◌, pos, ◌^◌, ◌≤◌, ◌<◌};
ghost use Rattle.liquid_filters.specs.meaning.number.Rounding.{nearest_multiple, rounded, rounded_to};

/// The exponent of the greatest power of ten whose half some number reaches.
const GREATEST_POWER: u64 = 19;

/// Returns the number rounded to that many digits after the point.
pub(crate) fn round_to_digits(number: i64, digits: i64) -> i128
    ensures { result ≡ rounded number digits }
{
    if 0 <= digits {
        return i128::from(number);
    }
    let power = digits.unsigned_abs();
    if power > GREATEST_POWER {
        return 0;
    }
    round_to_multiple(10u64.pow(power as u32), number)
}

/// Returns the multiple of the unit that is nearest to the number.
fn round_to_multiple(unit: u64, number: i64) -> i128
    requires above { 0 < unit }
    requires below { unit ≤ 10 ^ 19 }
    ensures { result ≡ rounded_to unit number }
{
    let magnitude = i128::from(nearest_multiple(unit, number.unsigned_abs()));
    if number < 0 { -magnitude } else { magnitude }
}

fn nearest_multiple(unit: u64, magnitude: u64) -> u64
    requires above { 0 < unit }
    requires below { unit ≤ 10 ^ 19 }
    requires number { magnitude ≤ 2 ^ 63 }
    ensures { result ≡ nearest_multiple unit magnitude }
{
    (magnitude + unit / 2) / unit * unit
}
