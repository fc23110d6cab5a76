//! Conversions into a value, which neither fail nor take memory.
ghost use Rattle.std.specs.Prelude.{◌≡◌, string_bytes};
ghost use Rattle.liquid_scalar.specs.meaning.Scalar.{scal};
ghost use Rattle.liquid_value.specs.meaning.Tree.{state, scalar, array, object};
ghost use Rattle.liquid_value.specs.meaning.View.{view, items_view, members_view};

use crate::shared_array::SharedArray;
use crate::shared_object::SharedObject;
use crate::state::State;
use crate::value::{Array, Object, Value};
use liquid_scalar::Scalar;

impl From<Scalar> for Value {
    ghost from_gives = { λ s v. view v ≡ scalar (scal string_bytes s) };

    fn from(other: Scalar) -> Value {
        Value::Scalar(other)
    }
}

impl From<Array> for Value {
    ghost from_gives = { λ items v. view v ≡ array (items_view items.items) };

    fn from(other: Array) -> Value {
        Value::Array(SharedArray::Own(other))
    }
}

impl From<Object> for Value {
    ghost from_gives = { λ members v. view v ≡ object (members_view members.entries) };

    fn from(other: Object) -> Value {
        Value::Object(SharedObject::Own(other))
    }
}

impl From<State> for Value {
    ghost from_gives = { λ s v. view v ≡ state s };

    fn from(other: State) -> Value {
        Value::State(other)
    }
}
