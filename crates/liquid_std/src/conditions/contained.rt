//! Whether a value contains another.
ghost use Rattle.std.specs.Prelude.{◌≡◌, is_some, IfOk};
ghost use Rattle.liquid_value.specs.meaning.Members.{get_member};
ghost use Rattle.liquid_value.specs.meaning.View.{view as tree_of, items_view, members_view};
ghost use Rattle.liquid_std.specs.meaning.conditions.Contained.{contains, contains_value, has_item, occurs_in};

use liquid_core::model::{Array, ScalarOf};
use liquid_core::{Object, Value};
use memchr::memmem;
use std::alloc::{AllocError, Global};

/// Returns `true` if the first value contains the second: a text in a text, an item of an array, or a name of an object.
///
/// Nothing contains nil or false, and no other kind of value contains anything.
pub fn contains(alloc: Global, container: &Value, value: &Value) -> Result<bool, AllocError>
    ensures { IfOk result (λ b. b ≡ contains (tree_of container.now) (tree_of value.now)) }
{
    match value {
        Value::Nil | Value::Scalar(ScalarOf::Bool(false)) => Ok(false),
        _ => contains_value(alloc, container, value),
    }
}

fn contains_value(alloc: Global, container: &Value, value: &Value) -> Result<bool, AllocError>
    ensures { IfOk result (λ b. b ≡ contains_value (tree_of container.now) (tree_of value.now)) }
{
    match container {
        Value::Scalar(ScalarOf::Str(text)) => {
            let search = value.to_kstr(alloc)?;
            Ok(occurs_in(search.as_str(), text.as_str()))
        }
        Value::Array(array) => Ok(has_item(value, array.as_array())),
        Value::Object(members) => match value {
            Value::Scalar(ScalarOf::Str(name)) => Ok(has_name(name.as_str(), members.as_object())),
            _ => Ok(false),
        },
        _ => Ok(false),
    }
}

fn occurs_in(search: &str, text: &str) -> bool
    ensures { result ≡ occurs_in search.now text.now }
{
    memmem::find(text.as_bytes(), search.as_bytes()).is_some()
}

fn has_item(value: &Value, items: &Array) -> bool
    ensures { result ≡ has_item (tree_of value.now) (items_view items.now.items) }
{
    for item in items {
        if *item == *value {
            return true;
        }
    }
    false
}

fn has_name(name: &str, members: &Object) -> bool
    ensures { result ≡ is_some (get_member name.now (members_view members.now.entries)) }
{
    members.get(name).is_some()
}
