//! When two values are equal in a condition.
ghost use Rattle.std.specs.Prelude.{◌≡◌};
ghost use Rattle.liquid_value.specs.meaning.View.{view as tree_of};
ghost use Rattle.liquid_std.specs.meaning.conditions.Equality.{equal_by, is_same, state_equals};

use liquid_core::Value;
use liquid_core::model::{State, ValueViewCmp};

/// Which values are equal.
#[derive(Debug, Clone, Copy, PartialEq, Eq, Drop)]
pub enum Equality {
    /// Loosely equal ones: `true` also equals each value but nil and `false`, `false` also equals nil, and `empty` and
    /// `blank` equal the values in that state.
    Loose,
    /// Identical ones: a value equals only the same value, except that `empty` equals the texts, arrays and objects without
    /// entries, and `blank` equals nothing.
    Same,
}

/// Returns `true` if two values are equal.
pub fn are_equal(equality: Equality, left: &Value, right: &Value) -> bool
    ensures { result ≡ equal_by equality (tree_of left.now) (tree_of right.now) }
{
    match equality {
        Equality::Loose => ValueViewCmp::new(left).value_eq(&ValueViewCmp::new(right)),
        Equality::Same => is_same(left, right),
    }
}

fn is_same(left: &Value, right: &Value) -> bool
    ensures { result ≡ is_same (tree_of left.now) (tree_of right.now) }
{
    match (left, right) {
        (Value::State(state), other) => state_equals(*state, other),
        (other, Value::State(state)) => state_equals(*state, other),
        (left, right) => *left == *right,
    }
}

/// Returns `true` if the state is `empty`, and the value a text, an array or an object without entries.
fn state_equals(state: State, value: &Value) -> bool
    ensures { result ≡ state_equals state (tree_of value.now) }
{
    match (state, value) {
        (_, Value::Nil | Value::State(_)) => false,
        (State::Empty, value) => value.query_state(State::Empty),
        _ => false,
    }
}
