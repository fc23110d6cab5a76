//! A value that is owned or borrowed.
ghost use Rattle.std.specs.Prelude.{◌≡◌, IfOk, option_map, string_bytes};
ghost use Rattle.std.specs.Cmp.{on_equiv, on_per, partial_equiv_from_equiv};
ghost use Rattle.liquid_scalar.specs.meaning.Scalar.{scal};
ghost use Rattle.liquid_value.specs.meaning.Cow.{cow_view};
ghost use Rattle.liquid_value.specs.meaning.Parts.{as_array, as_object};
ghost use Rattle.liquid_value.specs.meaning.Strict.{same_value};
ghost use Rattle.liquid_value.specs.steps.StrictLawProofs.{same_value_equiv};
ghost use Rattle.liquid_value.specs.meaning.Tree.{nil, state, scalar, array, object};
ghost use Rattle.liquid_value.specs.meaning.View.{view, items_view, members_view};

use crate::shared_array::SharedArray;
use crate::shared_object::SharedObject;
use crate::state::State;
use crate::value::{Array, Object, Value};
use liquid_scalar::Scalar;
use std::alloc::AllocError;

/// A value that is owned or borrowed.
#[derive(Debug, Drop)]
pub enum ValueCow<'s> {
    Owned(Value),
    Borrowed(&'s Value),
}

impl ValueCow<'_> {
    /// Returns the value itself. A borrowed one is copied.
    pub fn into_owned(self) -> Result<Value, AllocError>
        ensures { IfOk result (λ v. view v ≡ cow_view self.entry) }
    {
        match self {
            ValueCow::Owned(value) => Ok(value),
            ValueCow::Borrowed(value) => value.clone(),
        }
    }

    /// Returns the value, owned or borrowed.
    pub fn as_view(&self) -> &Value
        ensures { view result.now ≡ cow_view self.now }
    {
        match self {
            ValueCow::Owned(value) => value,
            ValueCow::Borrowed(value) => value,
        }
    }

    /// Returns the list of an array, and `None` for any other value.
    pub fn as_array(&self) -> Option<&Array>
        ensures { option_map (λ v. items_view v.now.items) result ≡ as_array (cow_view self.now) }
    {
        self.as_view().as_array()
    }

    /// Returns the map of an object, and `None` for any other value.
    pub fn as_object(&self) -> Option<&Object>
        ensures { option_map (λ m. members_view m.now.entries) result ≡ as_object (cow_view self.now) }
    {
        self.as_view().as_object()
    }
}

/// Returns the same value. An owned one is copied, and a borrowed one is borrowed again.
impl<'s> Clone for ValueCow<'s> {
    ghost is_clone = { λ v w. cow_view w ≡ cow_view v };

    fn clone(&self) -> Result<ValueCow<'s>, AllocError> {
        match self {
            ValueCow::Owned(value) => Ok(ValueCow::Owned(value.clone()?)),
            ValueCow::Borrowed(value) => Ok(ValueCow::Borrowed(*value)),
        }
    }
}

/// Returns an owned nil.
impl Default for ValueCow<'_> {
    ghost is_default = { λ v. cow_view v ≡ nil };

    fn default() -> Self {
        ValueCow::Owned(Value::Nil)
    }
}

/// Compares the values strictly, whether owned or borrowed.
impl PartialEq for ValueCow<'_> {
    ghost eq = { λ v w. same_value (cow_view v) (cow_view w) };

    ghost laws = { on_per cow_view (partial_equiv_from_equiv same_value_equiv) };

    fn eq(&self, other: &Self) -> bool {
        *self.as_view() == *other.as_view()
    }
}

impl Eq for ValueCow<'_> {
    ghost laws = { on_equiv cow_view same_value_equiv };
}

impl<'s> From<Value> for ValueCow<'s> {
    ghost from_gives = { λ v w. cow_view w ≡ view v };

    fn from(other: Value) -> ValueCow<'s> {
        ValueCow::Owned(other)
    }
}

impl<'s> From<&'s Value> for ValueCow<'s> {
    ghost from_gives = { λ v w. cow_view w ≡ view v.now };

    fn from(other: &'s Value) -> ValueCow<'s> {
        ValueCow::Borrowed(other)
    }
}

impl<'s> From<Scalar> for ValueCow<'s> {
    ghost from_gives = { λ s w. cow_view w ≡ scalar (scal string_bytes s) };

    fn from(other: Scalar) -> ValueCow<'s> {
        ValueCow::Owned(Value::Scalar(other))
    }
}

impl<'s> From<Array> for ValueCow<'s> {
    ghost from_gives = { λ items w. cow_view w ≡ array (items_view items.items) };

    fn from(other: Array) -> ValueCow<'s> {
        ValueCow::Owned(Value::Array(SharedArray::Own(other)))
    }
}

impl<'s> From<Object> for ValueCow<'s> {
    ghost from_gives = { λ members w. cow_view w ≡ object (members_view members.entries) };

    fn from(other: Object) -> ValueCow<'s> {
        ValueCow::Owned(Value::Object(SharedObject::Own(other)))
    }
}

impl<'s> From<State> for ValueCow<'s> {
    ghost from_gives = { λ s w. cow_view w ≡ state s };

    fn from(other: State) -> ValueCow<'s> {
        ValueCow::Owned(Value::State(other))
    }
}
