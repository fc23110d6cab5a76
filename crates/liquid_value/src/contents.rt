//! Whether an array or an object is empty.
ghost use Rattle.std.specs.Prelude.{◌≡◌};
ghost use Rattle.liquid_value.specs.meaning.Kind.{has_no_items, has_no_members};
ghost use Rattle.liquid_value.specs.meaning.View.{items_view, members_view};

use crate::value::{Array, Object};

/// Returns `true` if the list has no items.
#[tactic(auto, using(crate::proofs::Emptiness::has_no_items_of_view))]
pub fn is_empty_array(items: &Array) -> bool
    ensures { result ≡ has_no_items (items_view items.now.items) }
{
    items.is_empty()
}

/// Returns `true` if the map has no entries.
#[tactic(auto, using(crate::proofs::Emptiness::has_no_members_of_view))]
pub fn is_empty_object(members: &Object) -> bool
    ensures { result ≡ has_no_members (members_view members.now.entries) }
{
    members.is_empty()
}
