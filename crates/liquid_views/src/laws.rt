//! The law of the indexes of an array. The function only states it.
ghost use Rattle.liquid_views.specs.laws.ArrayLaws.{ContainsKeyWhereGet};

/// An array contains an index exactly if `get` returns an item at it.
#[tactic(auto, using(crate::proofs::Lists::contains_where_get))]
pub fn contains_key_agrees_with_get()
    ensures { ContainsKeyWhereGet }
{}
