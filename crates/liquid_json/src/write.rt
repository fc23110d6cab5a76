//! Conversions from values to JSON.
ghost use Rattle.std.specs.Prelude.{◌≡◌, IfOk, map, string_bytes};
ghost use Rattle.std.specs.List.Sorted.{IsStrictlySortedBy};
ghost use Rattle.std.specs.Map.{keys_of};
ghost use Rattle.std.specs.String.{string_cmp};
ghost use Rattle.serde_json.specs.View.{view as json_view, items_view as json_items, members_view as json_members};
ghost use Rattle.liquid_scalar.specs.meaning.Scalar.{scal};
ghost use Rattle.liquid_value.specs.meaning.View.{view, items_view, members_view};
ghost use Rattle.liquid_json.specs.meaning.Shown.{value_shown, scalar_shown, text_shown, items_shown, members_shown};
ghost use Rattle.liquid_json.specs.steps.Named.{shown_entry, json_entry};

use crate::build::map_in_order;
use liquid_scalar::Scalar;
use liquid_value::{Array, Object, Value};
use serde_json::{Map, Value as Json};
use std::alloc::{AllocError, Global};

/// Returns the JSON that shows a value.
///
/// A scalar with a `to_integer` is that number, so the text `42` is the number 42. A boolean is itself, and every
/// other scalar is its text. Arrays and objects are converted item by item. States and nil are null.
#[cycle(write)]
pub fn from_value(alloc: Global, value: &Value) -> Result<Json, AllocError>
    ensures { IfOk result (λ json. json_view json ≡ value_shown (view value.now)) }
{
    match value {
        Value::Scalar(scalar) => Ok(from_scalar(alloc, scalar)?),
        Value::Array(items) => Ok(Json::Array(from_items(alloc, items.as_array())?)),
        Value::Object(members) => Ok(Json::Object(from_members(alloc, members.as_object())?)),
        Value::State(_) | Value::Nil => Ok(Json::Null),
    }
}

fn from_scalar(alloc: Global, scalar: &Scalar) -> Result<Json, AllocError>
    ensures { IfOk result (λ json. json_view json ≡ scalar_shown (scal string_bytes scalar.now)) }
{
    match scalar.to_integer() {
        Some(number) => Ok(Json::from(number)),
        None => from_text(alloc, scalar),
    }
}

fn from_text(alloc: Global, scalar: &Scalar) -> Result<Json, AllocError>
    ensures { IfOk result (λ json. json_view json ≡ text_shown (scal string_bytes scalar.now)) }
{
    match scalar {
        Scalar::Bool(truth) => Ok(Json::Bool(*truth)),
        other => Ok(Json::String(other.to_kstr(alloc)?.into_owned(alloc)?)),
    }
}

#[cycle(write)]
fn from_items(alloc: Global, items: &Array) -> Result<Vec<Json>, AllocError>
    ensures { IfOk result (λ shown. json_items shown.items ≡ items_shown (items_view items.now.items)) }
{
    let mut shown = Vec::with_capacity(alloc, items.len())?;
    for item in items {
        shown.push(from_value(alloc, item)?)?;
    }
    Ok(shown)
}

#[cycle(write)]
fn from_members(alloc: Global, members: &Object) -> Result<Map<String, Json>, AllocError>
    ensures { IfOk result (λ map. json_members map.entries ≡ members_shown (members_view members.now.entries)) }
{
    map_in_order(alloc, from_entries(alloc, members)?)
}

// Shows the entries in the order of their names.
#[cycle(write)]
fn from_entries(alloc: Global, members: &Object) -> Result<Vec<(String, Json)>, AllocError>
    ensures shown { IfOk result (λ entries. map json_entry entries.items ≡ map shown_entry members.now.entries) }
    ensures order { IfOk result (λ entries. IsStrictlySortedBy string_cmp (keys_of entries.items)) }
{
    let mut entries = Vec::with_capacity(alloc, members.len())?;
    for (name, member) in members.iter() {
        let name = name.clone()?;
        entries.push((name, from_value(alloc, member)?))?;
    }
    Ok(entries)
}
