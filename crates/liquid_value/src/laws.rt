//! The laws of the comparisons of values. Each function only states its law.
ghost use Rattle.liquid_value.specs.laws.LooseLaws.{LooseEqualityIsReflexive, LooseEqualityIsSymmetric, LooseEqualityIsNotTransitive};
ghost use Rattle.liquid_value.specs.laws.LooseLaws.{OrderSwappedIsReversed, EqualInOrderIsLooselyEqual};
ghost use Rattle.liquid_value.specs.laws.LooseLaws.{LooseEqualityOfObjectsGoesByName, in_name_order};
ghost use Rattle.liquid_value.specs.laws.StrictLaws.{StrictEqualityIsEquivalence, HashAgreesWithEquality};
ghost use Rattle.std.specs.Prelude.{◌≡◌, true};
ghost use Rattle.liquid_value.specs.meaning.View.{members_view};

use crate::value::Object;

/// Each value in which the state `Truthy` does not occur loosely equals itself.
#[tactic(auto, using(crate::proofs::LooseEquality::value_eq_refl))]
pub fn loose_equality_is_reflexive()
    ensures { LooseEqualityIsReflexive }
{}

/// Loose equality is symmetric between values in which the state `Truthy` does not occur.
#[tactic(auto, using(crate::proofs::LooseEquality::value_eq_symm))]
pub fn loose_equality_is_symmetric()
    ensures { LooseEqualityIsSymmetric }
{}

/// Loose equality is not transitive: `""` equals the state `Empty`, which equals the empty array, but `""` does not
/// equal the empty array.
pub fn loose_equality_is_not_transitive()
    ensures { LooseEqualityIsNotTransitive }
{}

/// Swapping two values reverses their order, or leaves them without one.
#[tactic(auto, using(crate::proofs::LooseOrder::order_swapped))]
pub fn order_swapped_is_reversed()
    ensures { OrderSwappedIsReversed }
{}

/// Values that compare as `Equal` are loosely equal.
#[tactic(auto, using(crate::proofs::LooseOrder::equal_is_loose))]
pub fn equal_in_order_is_loosely_equal()
    ensures { EqualInOrderIsLooselyEqual }
{}

/// Two objects are loosely equal if they have the same number of entries, each name of the left is in the right, and
/// the values are loosely equal with the right one on the left.
#[tactic(auto, using(crate::proofs::LooseByName::by_name))]
pub fn loose_equality_of_objects_goes_by_name()
    ensures { LooseEqualityOfObjectsGoesByName }
{}

/// The entries of an object are in byte order of their names, each name once.
#[tactic(auto, using(crate::proofs::Names::entries_in_name_order))]
pub fn entries_stand_in_name_order(object: &Object)
    ensures { in_name_order (members_view object.now.entries) ≡ true }
{
    let _size = object.len();
}

/// Strict equality is an equivalence.
#[tactic(auto, using(crate::specs::steps::StrictLawProofs::same_value_equiv))]
pub fn strict_equality_is_equivalence()
    ensures { StrictEqualityIsEquivalence }
{}

/// Strictly equal values feed a hasher the same bytes.
#[tactic(auto, using(crate::specs::steps::StrictLawProofs::hash_agrees))]
pub fn hash_agrees_with_equality()
    ensures { HashAgreesWithEquality }
{}
