//! Consequences of what the filters mean, a function for each. Its body is empty, and its contract is the law.
ghost use Rattle.std.specs.Prelude.{◌≡◌, map, reverse};
ghost use Rattle.liquid_decimals.specs.meaning.Dec.{dec};
ghost use Rattle.liquid_filters.specs.meaning.list.DecimalSums.{sum_of};

use liquid_decimals::Decimal;

/// The sum of decimals is the same from the last to the first.
#[tactic(auto, using(crate::proofs::Sums::sum_of_reverse))]
pub fn sums_are_the_same_backwards(decimals: &[Decimal])
    ensures { sum_of (reverse (map dec decimals.now)) ≡ sum_of (map dec decimals.now) }
{}
