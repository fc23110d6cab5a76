//! Strict equality and the hash of values.
ghost use Rattle.std.specs.Prelude.{◌≡◌, ◌++◌, fold};
ghost use Rattle.std.specs.Hash as writes;
ghost use Rattle.std.specs.Cmp.{on_equiv, on_per, partial_equiv_from_equiv};
ghost use Rattle.liquid_value.specs.meaning.View.{view, items_view, members_view};
ghost use Rattle.liquid_value.specs.meaning.Strict.{same_value, same_items, same_members, value_hash, items_hash, members_hash};
ghost use Rattle.liquid_value.specs.steps.StrictLawProofs.{same_value_equiv, hash_agrees};

use crate::value::{Array, Object, Value};
use std::hash::{Hash, Hasher};

/// Compares strictly: equal values have the same kind and the same content.
impl PartialEq for Value {
    ghost eq = { λ v w. same_value (view v) (view w) };

    ghost laws = { on_per view (partial_equiv_from_equiv same_value_equiv) };

    fn eq(&self, other: &Value) -> bool {
        same_value(self, other)
    }
}

impl Eq for Value {
    ghost laws = { on_equiv view same_value_equiv };
}

impl Hash for Value {
    ghost hash_input = { λ v. value_hash (view v) };

    ghost respects_eq = { λ v w same. hash_agrees (view v) (view w) same };

    fn hash<H: Hasher>(&self, state: &mut H) {
        hash_value(self, state)
    }
}

#[cycle(same)]
fn same_value(left: &Value, right: &Value) -> bool
    ensures { result ≡ same_value (view left.now) (view right.now) }
{
    match (left, right) {
        (Value::Scalar(left), Value::Scalar(right)) => *left == *right,
        (Value::Array(left), Value::Array(right)) => same_items(left.as_array(), right.as_array()),
        (Value::Object(left), Value::Object(right)) => same_members(
            left.as_object(),
            right.as_object(),
        ),
        (Value::State(left), Value::State(right)) => *left as u8 == *right as u8,
        (Value::Nil, Value::Nil) => true,
        _ => false,
    }
}

#[cycle(same)]
fn same_items(left: &Array, right: &Array) -> bool
    ensures { result ≡ same_items (items_view left.now.items) (items_view right.now.items) }
{
    if left.len() != right.len() {
        return false;
    }
    for (index, item) in left.iter().enumerate() {
        if !same_value(item, &right[index]) {
            return false;
        }
    }
    true
}

#[cycle(same)]
fn same_members(left: &Object, right: &Object) -> bool
    ensures { result ≡ same_members (members_view left.now.entries) (members_view right.now.entries) }
{
    let mut others = right.iter();
    for (key, value) in left.iter() {
        match others.next() {
            Some((other_key, other_value)) => {
                if key.as_str() != other_key.as_str() || !same_value(value, other_value) {
                    return false;
                }
            }
            None => return false,
        }
    }
    others.next().is_none()
}

#[cycle(hash)]
fn hash_value<H: Hasher>(value: &Value, state: &mut H)
    ensures { state.new ≡ fold H.write state.old (value_hash (view value.now)) }
{
    match value {
        Value::Scalar(scalar) => {
            state.write_u8(0);
            scalar.hash(state)
        }
        Value::Array(items) => {
            state.write_u8(1);
            hash_items(items.as_array(), state)
        }
        Value::Object(members) => {
            state.write_u8(2);
            hash_members(members.as_object(), state)
        }
        Value::State(own) => {
            state.write_u8(3);
            state.write_u8(*own as u8)
        }
        Value::Nil => state.write_u8(4),
    }
}

#[cycle(hash)]
fn hash_items<H: Hasher>(items: &Array, state: &mut H)
    ensures { state.new ≡ fold H.write state.old (items_hash (items_view items.now.items)) }
{
    for item in items {
        hash_value(item, state);
    }
    state.write_u8(5)
}

#[cycle(hash)]
fn hash_members<H: Hasher>(members: &Object, state: &mut H)
    ensures { state.new ≡ fold H.write state.old (members_hash (members_view members.now.entries)) }
{
    for (key, value) in members.iter() {
        hash_member(key.as_str(), value, state);
    }
    state.write_u8(6)
}

#[cycle(hash)]
fn hash_member<H: Hasher>(key: &str, value: &Value, state: &mut H)
    ensures { state.new ≡ fold H.write state.old (writes.str key.now ++ value_hash (view value.now)) }
{
    key.hash(state);
    hash_value(value, state)
}
