//! The items that an array or an object has itself.
ghost use Rattle.std.specs.Prelude.{◌≡◌, ◌++◌, map, option_map, IfOk, OnOk};
ghost use Rattle.liquid_value.specs.meaning.View.{view as tree_of, items_view, members_view};
ghost use Rattle.liquid_filters.specs.meaning.value.Items.{own_items};
ghost use Rattle.liquid_jekyll.specs.meaning.list.Own as Spec;

use liquid_value::{Array, Object, Value};
use std::alloc::{AllocError, Global};

/// Returns the items of an array, or the values of an object in the order of its names. Any other value has none.
pub fn own_items<'v>(alloc: Global, value: &'v Value) -> Result<Option<Vec<&'v Value>>, AllocError>
    ensures { IfOk result (λ o. option_map (λ v. map (λ r. tree_of r.now) v.items) o ≡ Spec.own (tree_of value.now)) }
{
    match value {
        Value::Array(items) => Ok(Some(items_of(alloc, items.as_array())?)),
        Value::Object(members) => Ok(Some(values_of(alloc, members.as_object())?)),
        _ => Ok(None),
    }
}

pub(crate) fn items_of<'v>(alloc: Global, items: &'v Array) -> Result<Vec<&'v Value>, AllocError>
    ensures { IfOk result (λ v. map (λ r. tree_of r.now) v.items ≡ own_items (items_view items.now.items)) }
{
    let mut all = Vec::with_capacity(alloc, items.len())?;
    for item in items {
        all.push(item)?;
    }
    Ok(all)
}

fn values_of<'v>(alloc: Global, members: &'v Object) -> Result<Vec<&'v Value>, AllocError>
    ensures { IfOk result (λ v. map (λ r. tree_of r.now) v.items ≡ Spec.member_values (members_view members.now.entries)) }
{
    let mut all = Vec::with_capacity(alloc, members.len())?;
    for (_, value) in members.iter() {
        all.push(value)?;
    }
    Ok(all)
}
