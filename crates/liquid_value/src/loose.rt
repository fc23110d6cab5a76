//! Loose equality of values.
ghost use Rattle.std.specs.Prelude.{◌≡◌, true, false};
ghost use Rattle.liquid_value.specs.meaning.Loose.{leaf_eq, facing, items_facing, members_facing, value_eq};
ghost use Rattle.liquid_value.specs.meaning.View.{view, items_view, members_view};

use crate::value::{Array, Object, Value};

/// Returns `true` if the values are loosely equal.
///
/// Arrays are equal if they have equal items in the same order. Objects are equal if they have the same names and the
/// values of each name are equal with the sides swapped. A state equals the values in it. If both values are states,
/// the left one decides. A boolean equals any other scalar, array or object if it is true, and nil if it is false.
/// Other values of different kinds are unequal.
pub(crate) fn value_eq(left: &Value, right: &Value) -> bool
    ensures { result ≡ value_eq (view left.now) (view right.now) }
{
    faces(left, right, true)
}

// `onward` says that the left value is compared with the right one. Within an object the sides are swapped.
#[cycle(loose)]
fn faces(left: &Value, right: &Value, onward: bool) -> bool
    ensures { result ≡ facing onward (view left.now) (view right.now) }
{
    match (left, right) {
        (Value::Array(left), Value::Array(right)) => items_face(
            left.as_array(),
            right.as_array(),
            onward,
        ),
        (Value::Object(left), Value::Object(right)) => members_face(
            left.as_object(),
            right.as_object(),
            onward,
        ),
        _ => {
            if onward {
                leaf_eq(left, right)
            } else {
                leaf_eq(right, left)
            }
        }
    }
}

#[cycle(loose)]
fn items_face(left: &Array, right: &Array, onward: bool) -> bool
    ensures { result ≡ items_facing onward (items_view left.now.items) (items_view right.now.items) }
{
    if left.len() != right.len() {
        return false;
    }
    for (index, item) in left.iter().enumerate() {
        if !faces(item, &right[index], onward) {
            return false;
        }
    }
    true
}

#[cycle(loose)]
fn members_face(left: &Object, right: &Object, onward: bool) -> bool
    ensures { result ≡ members_facing onward (members_view left.now.entries) (members_view right.now.entries) }
{
    let mut others = right.iter();
    for (key, value) in left.iter() {
        match others.next() {
            Some((other_key, other_value)) => {
                if key.as_str() != other_key.as_str() || !faces(value, other_value, !onward) {
                    return false;
                }
            }
            None => return false,
        }
    }
    others.next().is_none()
}

fn leaf_eq(left: &Value, right: &Value) -> bool
    ensures { result ≡ leaf_eq (view left.now) (view right.now) }
{
    match (left, right) {
        (Value::Nil, Value::Nil) => true,
        (Value::State(state), other) | (other, Value::State(state)) => other.query_state(*state),
        (Value::Scalar(left), Value::Scalar(right)) => left.scalar_eq(right),
        (Value::Scalar(scalar), Value::Nil) | (Value::Nil, Value::Scalar(scalar)) => {
            scalar.to_bool() == Some(false)
        }
        (Value::Scalar(scalar), _) | (_, Value::Scalar(scalar)) => scalar.to_bool() == Some(true),
        _ => false,
    }
}
