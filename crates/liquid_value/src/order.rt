//! Loose order of values.
ghost use Rattle.std.specs.Prelude.{◌≡◌, Some};
ghost use Rattle.std.specs.Ordering.{nat_cmp};
ghost use Rattle.std.specs.Cmp.Lexicographic.{slice_cmp};
ghost use Rattle.liquid_value.specs.meaning.Order.{deciding, value_cmp, items_cmp, members_cmp};
ghost use Rattle.liquid_value.specs.meaning.View.{view, items_view, members_view};

use crate::value::{Array, Object, Value};
use std::cmp::Ordering;

/// Returns the loose order of two values, if they have one.
///
/// Scalars have their own order. Arrays are ordered by the first items that are not `Equal`, and objects by the first
/// entries that are not, the name before the value. A beginning is less than the whole. Other values have no order.
#[cycle(order)]
pub(crate) fn value_cmp(left: &Value, right: &Value) -> Option<Ordering>
    ensures { result ≡ value_cmp (view left.now) (view right.now) }
{
    match (left, right) {
        (Value::Scalar(left), Value::Scalar(right)) => left.scalar_cmp(right),
        (Value::Array(left), Value::Array(right)) => items_cmp(left.as_array(), right.as_array()),
        (Value::Object(left), Value::Object(right)) => members_cmp(
            left.as_object(),
            right.as_object(),
        ),
        _ => None,
    }
}

#[cycle(order)]
fn items_cmp(left: &Array, right: &Array) -> Option<Ordering>
    ensures { result ≡ items_cmp (items_view left.now.items) (items_view right.now.items) }
{
    for (index, item) in left.iter().enumerate() {
        match right.get(index) {
            Some(other) => match value_cmp(item, other) {
                Some(Ordering::Equal) => {}
                decided => return decided,
            },
            None => return Some(Ordering::Greater),
        }
    }
    match right.get(left.len()) {
        Some(_) => Some(Ordering::Less),
        None => Some(Ordering::Equal),
    }
}

#[cycle(order)]
fn members_cmp(left: &Object, right: &Object) -> Option<Ordering>
    ensures { result ≡ members_cmp (members_view left.now.entries) (members_view right.now.entries) }
{
    let mut others = right.iter();
    for (key, value) in left.iter() {
        match others.next() {
            Some((other_key, other_value)) => match entry_cmp(
                key.as_str(),
                value,
                other_key.as_str(),
                other_value,
            ) {
                Some(Ordering::Equal) => {}
                decided => return decided,
            },
            None => return Some(Ordering::Greater),
        }
    }
    match others.next() {
        Some(_) => Some(Ordering::Less),
        None => Some(Ordering::Equal),
    }
}

#[cycle(order)]
fn entry_cmp(key: &str, value: &Value, other_key: &str, other_value: &Value) -> Option<Ordering>
    ensures { result ≡ deciding (Some (slice_cmp nat_cmp key.now other_key.now)) (value_cmp (view value.now) (view other_value.now)) }
{
    match key.cmp(other_key) {
        Ordering::Equal => value_cmp(value, other_value),
        decided => Some(decided),
    }
}
