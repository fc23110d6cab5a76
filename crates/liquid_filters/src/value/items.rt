//! The items of a value.
ghost use Rattle.std.specs.Prelude.{◌≡◌, ◌++◌, map, OnOk, IfOk};
ghost use Rattle.liquid_value.specs.meaning.View.{view as tree_of, items_view};
ghost use Rattle.liquid_filters.specs.meaning.value.Items.{flat, flat_item, flat_items};

use liquid_value::{Array, Value};
use std::alloc::{AllocError, Global};

/// Returns the items of a value, borrowed. Arrays among the items are replaced by their own items.
pub fn items<'v>(alloc: Global, value: &'v Value) -> Result<Vec<&'v Value>, AllocError>
    ensures { IfOk result (λ v. map (λ r. tree_of r.now) v.items ≡ flat (tree_of value.now)) }
{
    let mut items = Vec::new(alloc);
    match value {
        Value::Nil | Value::State(_) => {}
        other => push_item(other, &mut items)?,
    }
    Ok(items)
}

/// Appends the item, or, in place of an array, its own items.
#[cycle(flat)]
fn push_item<'v>(value: &'v Value, items: &mut Vec<&'v Value>) -> Result<(), AllocError>
    ensures { OnOk result (map (λ r. tree_of r.now) items.new.items
        ≡ map (λ r. tree_of r.now) items.old.items ++ flat_item (tree_of value.now)) }
{
    match value {
        Value::Array(array) => push_items(array.as_array(), items),
        other => Ok(items.push(other)?),
    }
}

#[cycle(flat)]
fn push_items<'v>(array: &'v Array, items: &mut Vec<&'v Value>) -> Result<(), AllocError>
    ensures { OnOk result (map (λ r. tree_of r.now) items.new.items
        ≡ map (λ r. tree_of r.now) items.old.items ++ flat_items (items_view array.now.items)) }
{
    for value in array {
        push_item(value, items)?;
    }
    Ok(())
}
