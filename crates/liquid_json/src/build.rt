//! Values of arrays, and maps that are built from entries whose names ascend, with no search for a name's place.
ghost use Rattle.std.specs.Prelude.{◌≡◌, IfOk};
ghost use Rattle.std.specs.List.Sorted.{IsStrictlySortedBy};
ghost use Rattle.std.specs.Map.{keys_of};
ghost use Rattle.std.specs.String.{string_cmp};
ghost use Rattle.serde_json.specs.View.{members_view as json_members};
ghost use Rattle.liquid_value.specs.meaning.Tree.{array};
ghost use Rattle.liquid_value.specs.meaning.View.{view, items_view, members_view};

use liquid_value::{Array, Object, SharedArray, Value};
use serde_json::{Map, Value as Json};
use std::alloc::{AllocError, Global};

pub(crate) fn object_in_order(
    alloc: Global,
    entries: Vec<(String, Value)>,
) -> Result<Object, AllocError>
    requires { IsStrictlySortedBy string_cmp (keys_of entries.items) }
    ensures { IfOk result (λ object. members_view object.entries ≡ members_view entries.items) }
{
    entries.into_iter().collect(alloc)
}

/// The greatest number of items with which an array stays the value's own.
pub(crate) const FEW_ITEMS: usize = 2;

/// Returns the array as a value whose copies share it. An array of few items stays the value's own: a block of memory
/// to share them costs more than they do.
#[inline(always)]
pub(crate) fn value_of_array(alloc: Global, items: Array) -> Result<Value, AllocError>
    ensures { IfOk result (λ value. view value ≡ array (items_view items.items)) }
{
    if items.len() <= FEW_ITEMS {
        Ok(Value::from(items))
    } else {
        Ok(Value::Array(SharedArray::shared(alloc, items)?))
    }
}

pub(crate) fn map_in_order(
    alloc: Global,
    entries: Vec<(String, Json)>,
) -> Result<Map<String, Json>, AllocError>
    requires { IsStrictlySortedBy string_cmp (keys_of entries.items) }
    ensures { IfOk result (λ map. json_members map.entries ≡ json_members entries.items) }
{
    entries.into_iter().collect(alloc)
}
