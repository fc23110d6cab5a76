//! The laws of the comparisons of scalars. Each function only states its law.
ghost use Rattle.liquid_scalar.specs.laws.ScalarLaws.{LooseEqualityIsReflexive, LooseEqualityIsSymmetric, OrderSwappedIsReversed};
ghost use Rattle.liquid_scalar.specs.laws.ScalarLaws.{EqualInOrderIsLooselyEqual, StrictEqualityIsEquivalence};
ghost use Rattle.liquid_scalar.specs.laws.ScalarLaws.{StrictlyEqualIsLooselyEqual, HashAgreesWithEquality};

/// Each scalar loosely equals itself.
#[tactic(auto, using(crate::specs::steps::ScalarLawProofs::loose_refl))]
pub fn loose_equality_is_reflexive()
    ensures { LooseEqualityIsReflexive }
{}

/// Loose equality of scalars is symmetric.
#[tactic(auto, using(crate::specs::steps::ScalarLawProofs::loose_symm))]
pub fn loose_equality_is_symmetric()
    ensures { LooseEqualityIsSymmetric }
{}

/// Swapping two scalars reverses their order, or leaves them without one.
#[tactic(auto, using(crate::specs::steps::ScalarLawProofs::order_swapped))]
pub fn order_swapped_is_reversed()
    ensures { OrderSwappedIsReversed }
{}

/// Scalars that compare as `Equal` are loosely equal.
#[tactic(auto, using(crate::specs::steps::ScalarLawProofs::equal_is_loose))]
pub fn equal_in_order_is_loosely_equal()
    ensures { EqualInOrderIsLooselyEqual }
{}

/// Strict equality is an equivalence.
#[tactic(auto, using(crate::specs::steps::ScalarLawProofs::same_scalar_equiv))]
pub fn strict_equality_is_equivalence()
    ensures { StrictEqualityIsEquivalence }
{}

/// Strictly equal scalars are loosely equal.
#[tactic(auto, using(crate::specs::steps::ScalarLawProofs::same_is_loose))]
pub fn strictly_equal_is_loosely_equal()
    ensures { StrictlyEqualIsLooselyEqual }
{}

/// Strictly equal scalars feed a hasher the same bytes.
#[tactic(auto, using(crate::specs::steps::ScalarLawProofs::hash_agrees))]
pub fn hash_agrees_with_equality()
    ensures { HashAgreesWithEquality }
{}
