//! The order of two keys, as the standard filter has it.
ghost use Rattle.std.specs.Prelude.{◌≡◌, string_bytes};
ghost use Rattle.liquid_scalar.specs.meaning.Scalar.{scal};
ghost use Rattle.liquid_value.specs.meaning.Parts.{is_nil};
ghost use Rattle.liquid_value.specs.meaning.View.{view as tree_of};
ghost use Rattle.liquid_filters.specs.meaning.sort.Order.{key_cmp, one_kind, order_in_kind, rank, scalar_rank};

use liquid_scalar::{Scalar, ScalarOf};
use liquid_value::Value;
use std::cmp::Ordering;

/// Compares two keys: by their kinds, and in one kind by the order of scalars.
pub(crate) fn compare_keys(left: &Value, right: &Value) -> Ordering
    ensures { result ≡ key_cmp (tree_of left.now) (tree_of right.now) }
{
    match rank(left).cmp(&rank(right)) {
        Ordering::Equal => match order_in_kind(left, right) {
            Some(order) => order,
            None => Ordering::Equal,
        },
        decided => decided,
    }
}

/// Returns the order of two scalars of one kind.
fn order_in_kind(left: &Value, right: &Value) -> Option<Ordering>
    ensures { result ≡ order_in_kind (tree_of left.now) (tree_of right.now) }
{
    match (left, right) {
        (Value::Scalar(left), Value::Scalar(right)) => left.scalar_cmp(right),
        _ => None,
    }
}

pub(crate) fn is_nil(value: &Value) -> bool
    ensures { result ≡ is_nil (tree_of value.now) }
{
    matches!(value, Value::Nil)
}

/// Returns `true` if two keys are scalars of one kind.
pub(crate) fn one_kind(left: &Value, right: &Value) -> bool
    ensures { result ≡ one_kind (tree_of left.now) (tree_of right.now) }
{
    match (left, right) {
        (Value::Scalar(left), Value::Scalar(right)) => scalar_rank(left) == scalar_rank(right),
        _ => false,
    }
}

/// Returns the rank of the key's kind: that of a scalar's, then that of all without an order, and nil last.
fn rank(key: &Value) -> u8
    ensures { result ≡ rank (tree_of key.now) }
{
    match key {
        Value::Scalar(scalar) => scalar_rank(scalar),
        Value::Nil => 6,
        _ => 5,
    }
}

fn scalar_rank(scalar: &Scalar) -> u8
    ensures { result ≡ scalar_rank (scal string_bytes scalar.now) }
{
    match scalar {
        ScalarOf::Integer(_) => 0,
        ScalarOf::Bool(_) => 1,
        ScalarOf::Str(_) => 2,
        ScalarOf::Date(_) => 3,
        ScalarOf::DateTime(_) => 4,
    }
}
