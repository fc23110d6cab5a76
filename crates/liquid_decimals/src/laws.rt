//! Consequences of what decimals mean, a function for each. Its body is empty, and its contract is the law.
ghost use Rattle.std.specs.Prelude.{◌≡◌, ◌≤◌, ◌<◌, ◌+◌, ◌*◌, Some, false, IfSome};
ghost use Rattle.liquid_decimals.specs.meaning.Arithmetic.{mantissa_at, minus, plus, shared_scale, times};
ghost use Rattle.liquid_decimals.specs.meaning.Dec.{SameValue, dec, limited};
ghost use Rattle.liquid_decimals.specs.meaning.Rounding.{loses_digits, nearest, round};
ghost use Rattle.liquid_decimals.specs.meaning.Text.{decimal_of_text};
ghost use Rattle.liquid_decimals.specs.meaning.Written.{written};

use crate::decimal::Decimal;

/// The order of two addends doesn't matter, and neither does that of two factors.
#[tactic(auto, using(crate::proofs::LawProofs::plus_swapped, crate::proofs::LawProofs::times_swapped))]
pub fn sums_and_products_are_commutative(a: Decimal, b: Decimal)
    ensures sums { plus (dec a) (dec b) ≡ plus (dec b) (dec a) }
    ensures products { times (dec a) (dec b) ≡ times (dec b) (dec a) }
{}

/// A decimal that is written with more digits after the point means the same number.
pub fn more_digits_keep_the_value(decimal: Decimal, scale: u32)
    ensures { (dec decimal).1 ≤ scale → SameValue (mantissa_at scale (dec decimal), scale) (dec decimal) }
{}

/// A number that is taken away and added again leaves the decimal with the greater of the two scales.
pub fn minus_undoes_plus(a: Decimal, b: Decimal)
    ensures { IfSome (minus (dec a) (dec b)) (λ rest. plus rest (dec b)
        ≡ limited (mantissa_at (shared_scale (dec a) (dec b)) (dec a)) (shared_scale (dec a) (dec b))) }
{}

/// No multiple of the divisor is nearer to the dividend than the rounded quotient's: the two are at most half a divisor apart,
/// and a half is rounded up.
#[tactic(auto, using(crate::proofs::LawProofs::nearest_from_below, crate::proofs::LawProofs::nearest_from_above))]
pub fn rounding_is_to_the_nearest(dividend: u64, divisor: u64)
    ensures below { 0 < divisor → 2 * (nearest dividend divisor * divisor) ≤ 2 * dividend + divisor }
    ensures above { 0 < divisor → 2 * dividend + divisor < 2 * (nearest dividend divisor * divisor) + 2 * divisor }
{}

/// What is written is read: the text of a decimal writes that decimal.
pub fn written_is_read(decimal: Decimal)
    ensures { decimal_of_text (written (dec decimal)) ≡ Some (dec decimal) }
{}

/// A decimal that loses no digit with fewer digits after the point is the same number with them, if it is within its limits.
pub fn no_digit_is_lost(decimal: Decimal, scale: u32)
    ensures { loses_digits scale (dec decimal) ≡ false → IfSome (round scale (dec decimal)) (λ r. SameValue r (dec decimal)) }
{}
