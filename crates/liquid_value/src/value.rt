//! A value of a template: its kinds, its parts and its text.
ghost use Rattle.std.specs.Prelude.{◌≡◌, IfOk, option_map, string_bytes};
ghost use Rattle.std.specs.Borrow.{LendsIf, sem};
ghost use Rattle.std.specs.Iterator.{IsFinite};
ghost use Rattle.std.specs.Iterator.Runs.{WholeRun};
ghost use Rattle.std.specs.Cow.{cow_str_bytes};
ghost use Rattle.liquid_value.specs.meaning.Kind.{type_name, query_state};
ghost use Rattle.liquid_scalar.specs.meaning.Scalar.{scal};
ghost use Rattle.liquid_value.specs.contracts.value.Value.{the_row};
ghost use Rattle.liquid_value.specs.contracts.shared_object.SharedObject.{the_row as shared_object_row};
ghost use Rattle.liquid_value.specs.contracts.shared_array.SharedArray.{the_row as shared_array_row};
ghost use Rattle.liquid_value.specs.declared.value.Value.{Array, Object};
ghost use Rattle.liquid_value.specs.meaning.Parts.{as_scalar, as_array, as_object, as_state};
ghost use Rattle.liquid_value.specs.meaning.Tree.{nil, scalar, array};
ghost use Rattle.liquid_value.specs.meaning.View.{view, array_view, items_view, object_view, members_view};
ghost use Rattle.liquid_value.specs.meaning.Render.{render};

use crate::contents::{is_empty_array, is_empty_object};
use crate::render::ValueRender;
use crate::shared_array::SharedArray;
use crate::shared_object::SharedObject;
use crate::state::State;
use liquid_scalar::{Scalar, ScalarCow};
use std::alloc::{AllocError, Global};
use std::borrow::CowStr;
use std::collections::BTreeMap;

/// Values in order.
pub type Array = Vec<Value>;

/// Values by their names, in byte order of the names.
pub type Object = BTreeMap<String, Value>;

/// A value of a template.
#[cycle(value)]
#[derive(Debug, Drop)]
pub enum Value {
    Scalar(Scalar),
    Array(SharedArray),
    Object(SharedObject),
    State(State),
    Nil,
}

impl Value {
    /// Returns the text that the value renders as. It borrows the value's own text if it has one.
    pub fn to_kstr(&self, alloc: Global) -> Result<CowStr<'_>, AllocError>
        ensures { IfOk result (λ text. cow_str_bytes text ≡ render (view self.now)) }
    {
        match self {
            Value::Scalar(scalar) => scalar.to_kstr(alloc),
            Value::State(_) | Value::Nil => Ok(CowStr::Borrowed("")),
            Value::Array(_) | Value::Object(_) => Ok(CowStr::Owned(ValueRender::new(self).to_string(
                alloc,
            )?)),
        }
    }

    /// Returns the name of the value's type, such as `whole number`, `string`, `array` or `nil`.
    pub fn type_name(&self) -> &'static str
        ensures { result.now ≡ type_name (view self.now) }
    {
        match self {
            Value::Scalar(scalar) => scalar.type_name(),
            Value::Array(_) => "array",
            Value::Object(_) => "object",
            Value::State(state) => state.type_name(),
            Value::Nil => "nil",
        }
    }

    /// Returns `true` if the value is in the state.
    pub fn query_state(&self, state: State) -> bool
        ensures { result ≡ query_state (view self.now) state }
    {
        match self {
            Value::Scalar(scalar) => state.holds_of_scalar(scalar),
            Value::Array(items) => state.holds_of_container(is_empty_array(items.as_array())),
            Value::Object(members) => state.holds_of_container(is_empty_object(
                members.as_object(),
            )),
            Value::State(_) | Value::Nil => state.holds_of_absent(),
        }
    }

    /// Returns the value of a number, a boolean, a string, a date or a date time.
    pub fn scalar<T: Into<Scalar>>(value: T) -> Value
        ensures { (s : _) × T.converts value s × (view result ≡ scalar (scal string_bytes s)) }
    {
        Value::Scalar(value.into())
    }

    /// Returns the array of the items of a finite iterator.
    pub fn array<I: Iterator<Item = Value>>(alloc: Global, items: I) -> Result<Value, AllocError>
    where
        I: Drop,
        requires can { I.can_next items }
        requires ends { IsFinite (I.remaining items) }
        ensures { IfOk result (λ v. WholeRun I.next_gives items (λ run. view v ≡ array (items_view run.items))) }
    {
        let values: Array = items.collect(alloc)?;
        Ok(Value::from(values))
    }

    /// Returns the scalar, and `None` for any other value, which is dropped.
    pub fn into_scalar(self) -> Option<Scalar>
        ensures { option_map (scal string_bytes) result ≡ as_scalar (view self) }
    {
        match self {
            Value::Scalar(scalar) => Some(scalar),
            _ => None,
        }
    }

    /// Returns the list, and `None` for any other value, which is dropped.
    pub fn into_array(self) -> Option<SharedArray>
        ensures { option_map array_view result ≡ as_array (view self) }
    {
        match self {
            Value::Array(array) => Some(array),
            _ => None,
        }
    }

    /// Returns the map, and `None` for any other value, which is dropped.
    pub fn into_object(self) -> Option<SharedObject>
        ensures { option_map object_view result ≡ as_object (view self) }
    {
        match self {
            Value::Object(object) => Some(object),
            _ => None,
        }
    }

    /// Returns the state, and `None` for any other value, which is dropped.
    pub fn into_state(self) -> Option<State>
        ensures { result ≡ as_state (view self) }
    {
        match self {
            Value::State(state) => Some(state),
            _ => None,
        }
    }

    /// Returns the scalar, with its text borrowed, and `None` for any other value.
    pub fn as_scalar(&self) -> Option<ScalarCow<'_>>
        ensures { option_map (scal cow_str_bytes) result ≡ as_scalar (view self.now) }
    {
        match self {
            Value::Scalar(scalar) => Some(scalar.as_ref()),
            _ => None,
        }
    }

    /// Returns the list, and `None` for any other value.
    pub fn as_array(&self) -> Option<&Array>
        ensures { option_map (λ v. items_view v.now.items) result ≡ as_array (view self.now) }
    {
        match self {
            Value::Array(items) => Some(items.as_array()),
            _ => None,
        }
    }

    /// Returns the map, and `None` for any other value.
    pub fn as_object(&self) -> Option<&Object>
        ensures { option_map (λ m. members_view m.now.entries) result ≡ as_object (view self.now) }
    {
        match self {
            Value::Object(members) => Some(members.as_object()),
            _ => None,
        }
    }

    /// Returns the list, to be changed in place, and `None` for any other value.
    pub fn as_array_mut(&mut self) -> Option<&mut SharedArray>
        ensures* writes_back { sem 𝓛 (LendsIf the_row shared_array_row self.entry result Array self.old) }
        ensures value { option_map (λ a. array_view a.now) result ≡ as_array (view self.old) }
    {
        match self {
            Value::Array(list) => Some(list),
            _ => None,
        }
    }

    /// Returns the map, to be changed in place, and `None` for any other value.
    pub fn as_object_mut(&mut self) -> Option<&mut SharedObject>
        ensures* writes_back { sem 𝓛 (LendsIf the_row shared_object_row self.entry result Object self.old) }
        ensures value { option_map (λ h. object_view h.now) result ≡ as_object (view self.old) }
    {
        match self {
            Value::Object(map) => Some(map),
            _ => None,
        }
    }
}

/// Returns nil.
impl Default for Value {
    ghost is_default = { λ v. view v ≡ nil };

    fn default() -> Value {
        Value::Nil
    }
}
