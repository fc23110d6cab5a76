//! Clones of values, arrays and objects.
ghost use Rattle.std.specs.Prelude.{◌≡◌, IfOk, map};
ghost use Rattle.std.specs.List.Sorted.{IsStrictlySortedBy};
ghost use Rattle.std.specs.Map.{keys_of};
ghost use Rattle.std.specs.String.{string_cmp};
ghost use Rattle.liquid_value.specs.meaning.View.{view, array_view, object_view, items_view, members_view, entry_view};

use crate::shared_array::SharedArray;
use crate::shared_object::SharedObject;
use crate::value::{Array, Object, Value};
use std::alloc::{AllocError, Global};
use std::default::Emptied;

impl Clone for Value {
    ghost is_clone = { λ v w. view w ≡ view v };

    fn clone(&self) -> Result<Value, AllocError> {
        copy(self)
    }
}

/// Returns the same array, shared with the one that is copied.
impl Clone for SharedArray {
    ghost is_clone = { λ a b. array_view b ≡ array_view a };

    fn clone(&self) -> Result<SharedArray, AllocError> {
        copy_shared_array(self)
    }
}

/// Returns the same object, shared with the one that is copied.
impl Clone for SharedObject {
    ghost is_clone = { λ h k. object_view k ≡ object_view h };

    fn clone(&self) -> Result<SharedObject, AllocError> {
        copy_shared_object(self)
    }
}

#[cycle(copy)]
fn copy(value: &Value) -> Result<Value, AllocError>
    ensures { IfOk result (λ v. view v ≡ view value.now) }
{
    match value {
        Value::Scalar(scalar) => Ok(Value::Scalar(scalar.clone()?)),
        Value::Array(items) => Ok(Value::Array(copy_shared_array(items)?)),
        Value::Object(members) => Ok(Value::Object(copy_shared_object(members)?)),
        Value::State(state) => Ok(Value::State(*state)),
        Value::Nil => Ok(Value::Nil),
    }
}

/// Returns a list of the same values.
#[cycle(copy)]
fn copy_array(items: &Array) -> Result<Array, AllocError>
    ensures { IfOk result (λ v. items_view v.items ≡ items_view items.now.items) }
{
    let mut copies = Vec::with_capacity(*items.allocator(), items.len())?;
    for item in items {
        copies.push(copy(item)?)?;
    }
    Ok(copies)
}

/// Returns the same array. A shared one gets one more owner, and another is copied, to be shared.
#[cycle(copy)]
fn copy_shared_array(array: &SharedArray) -> Result<SharedArray, AllocError>
    ensures { IfOk result (λ a. array_view a ≡ array_view array.now) }
{
    match array {
        SharedArray::Own(items) => SharedArray::shared(*items.allocator(), copy_array(items)?),
        SharedArray::Shared(items) => Ok(SharedArray::Shared(items.clone()?)),
    }
}

/// Returns the same object. A shared one gets one more owner, and another is copied, to be shared.
#[cycle(copy)]
fn copy_shared_object(object: &SharedObject) -> Result<SharedObject, AllocError>
    ensures { IfOk result (λ o. object_view o ≡ object_view object.now) }
{
    match object {
        SharedObject::Own(object) => copy_own_object(object),
        SharedObject::Shared(object) => Ok(SharedObject::Shared(object.clone()?)),
    }
}

// Copies a value's own object. Copies of the result share it. An object without names has nothing to share.
#[cycle(copy)]
fn copy_own_object(object: &Object) -> Result<SharedObject, AllocError>
    ensures { IfOk result (λ h. object_view h ≡ members_view object.now.entries) }
{
    match object.iter().next() {
        Some((first, _)) => SharedObject::shared(*first.allocator(), copy_object(object)?),
        None => Ok(SharedObject::Own(Object::emptied(object)?)),
    }
}

/// The greatest number of entries that are inserted one by one, which costs less than collecting them.
const FEW_ENTRIES: usize = 5;

/// Returns a map from the same names to the same values, built in the order of the names.
#[cycle(copy)]
fn copy_object(members: &Object) -> Result<Object, AllocError>
    ensures { IfOk result (λ m. members_view m.entries ≡ members_view members.now.entries) }
{
    if members.len() <= FEW_ENTRIES {
        return copy_few(members);
    }
    match members.iter().next() {
        Some((first, _)) => {
            let alloc = *first.allocator();
            object_in_order(alloc, copy_entries(alloc, members)?)
        }
        None => Object::emptied(members),
    }
}

// Returns the same map. Each entry is inserted where its name belongs.
#[cycle(copy)]
fn copy_few(members: &Object) -> Result<Object, AllocError>
    ensures { IfOk result (λ m. members_view m.entries ≡ members_view members.now.entries) }
{
    let mut copies = Object::emptied(members)?;
    for (key, member) in members.iter() {
        let name = key.clone()?;
        drop(copies.insert(name, copy(member)?)?);
    }
    Ok(copies)
}

// Copies the entries in the order of their names.
#[cycle(copy)]
fn copy_entries(alloc: Global, members: &Object) -> Result<Vec<(String, Value)>, AllocError>
    ensures { IfOk result (λ v. map entry_view v.items ≡ map entry_view members.now.entries) }
{
    let mut copies = Vec::with_capacity(alloc, members.len())?;
    for (key, member) in members.iter() {
        let name = key.clone()?;
        copies.push((name, copy(member)?))?;
    }
    Ok(copies)
}

// Returns the map of entries whose names ascend. It is built from the list, with no search for a name's place.
fn object_in_order(alloc: Global, entries: Vec<(String, Value)>) -> Result<Object, AllocError>
    requires { IsStrictlySortedBy string_cmp (keys_of entries.items) }
    ensures { IfOk result (λ m. members_view m.entries ≡ members_view entries.items) }
{
    entries.into_iter().collect(alloc)
}
