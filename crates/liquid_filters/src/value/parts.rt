//! What the filters read of one value: a property, its size, whether it counts as true.
ghost use Rattle.std.specs.Prelude.{◌≡◌, length, option_map, IfOk};
ghost use Rattle.std.specs.Str.{chars};
ghost use Rattle.liquid_error.specs.meaning.Told.{Gives};
ghost use Rattle.liquid_value.specs.meaning.Cow.{cow_view};
ghost use Rattle.liquid_value.specs.meaning.Members.{get_member, item_count, member_count};
ghost use Rattle.liquid_value.specs.meaning.View.{view as tree_of, items_view, members_view};
ghost use Rattle.liquid_filters.specs.meaning.value.Parts.{or_nil, property, size_of, truthy};

use crate::value::errors::object_error;
use liquid_error::Error;
use liquid_value::{Array, Object, State, Value, ValueCow};
use std::alloc::{AllocError, Global};

/// Returns an object's own member of that name, or nil if it has none or if the value is nil. Fails for a value that is
/// not an object.
pub fn property<'v>(alloc: Global, value: &'v Value, name: &str) -> Result<ValueCow<'v>, Error>
    ensures { Gives cow_view result (property name.now (tree_of value.now)) }
{
    match value {
        Value::Object(members) => Ok(or_nil(member_at(members, name))),
        Value::Nil => Ok(ValueCow::Owned(Value::Nil)),
        other => Err(object_error(alloc, name, other)),
    }
}

fn or_nil(member: Option<&Value>) -> ValueCow<'_>
    ensures { cow_view result ≡ or_nil (option_map (λ v. tree_of v.now) member.entry) }
{
    match member {
        Some(value) => ValueCow::Borrowed(value),
        None => ValueCow::Owned(Value::Nil),
    }
}

fn member_at<'v>(members: &'v Object, name: &str) -> Option<&'v Value>
    ensures { option_map (λ v. tree_of v.now) result ≡ get_member name.now (members_view members.now.entries) }
{
    members.get(name)
}

/// Returns `true` if the value counts as true: all values do except nil, a state and `false`.
pub fn is_truthy(value: &Value) -> bool
    ensures { result ≡ truthy (tree_of value.now) }
{
    value.query_state(State::Truthy)
}

/// Returns the number of entries of an array or an object, or of characters of another value's text.
pub fn size_of(alloc: Global, value: &Value) -> Result<usize, AllocError>
    ensures { IfOk result (λ n. n ≡ size_of (tree_of value.now)) }
{
    match value {
        Value::Array(items) => Ok(item_count(items)),
        Value::Object(members) => Ok(member_count(members)),
        other => {
            let text = other.to_kstr(alloc)?;
            Ok(character_count(text.as_str()))
        }
    }
}

/// Returns the number of characters of the text.
#[tactic(auto, using(std::proofs::lemmas::Str::chars_from_encodes))]
pub fn character_count(text: &str) -> usize
    ensures { result ≡ length (chars text.now) }
{
    text.chars().count()
}

#[tactic(auto, using(liquid_paths::proofs::Values::count_of_values))]
fn item_count(items: &Array) -> usize
    ensures { result ≡ item_count (items_view items.now.items) }
{
    items.len()
}

#[tactic(auto, using(liquid_paths::proofs::Values::count_of_members))]
fn member_count(members: &Object) -> usize
    ensures { result ≡ member_count (members_view members.now.entries) }
{
    members.len()
}
