//! Consequences of what the filters mean, a function for each. Its body is empty, and its contract is the law.
ghost use Rattle.std.specs.Prelude.{◌≡◌, ◌≢◌, ◌+ℤ◌, ◌*ℤ◌, ◌^◌, negsuc, pos, suc};
ghost use Rattle.liquid_decimals.specs.meaning.Arithmetic.{floor_quotient, floor_remainder};
ghost use Rattle.liquid_filters.specs.meaning.number.Rounding.{rounded};
ghost use Rattle.liquid_filters.specs.laws.number.Division.{IsRest};
ghost use Rattle.liquid_filters.specs.laws.number.Rounding.{IsNearestMultiple};

/// A number is the quotient times the divisor plus the remainder, and the remainder is between 0 and the divisor.
pub fn division_is_exact(dividend: i64, divisor: i64)
    ensures adds_up { dividend ≡ divisor *ℤ floor_quotient dividend divisor +ℤ floor_remainder dividend divisor }
    ensures rest { divisor ≢ pos 0 → IsRest divisor (floor_remainder dividend divisor) }
{}

/// A number that is rounded to tens, hundreds and so on is a multiple of that unit, and no other multiple is nearer.
pub fn rounding_is_to_a_nearest_multiple(number: i64, power: u32)
    ensures { IsNearestMultiple (10 ^ suc power) number (rounded number (negsuc power)) }
{}
