//! The object of a value, which other values may share.
ghost use Rattle.std.specs.Prelude.{◌≡◌, IfOk, IfSome};
ghost use Rattle.std.specs.Borrow.{LendsSo, LendsSoOk, sem};
ghost use Rattle.liquid_value.specs.contracts.shared_object.SharedObject.{the_row as shared_object_row};
ghost use Rattle.liquid_value.specs.meaning.Rows.{object_row};
ghost use Rattle.liquid_value.specs.meaning.Shared.{object_map};
ghost use Rattle.liquid_value.specs.meaning.View.{object_view, members_view};

use crate::value::Object;
use std::alloc::{AllocError, Global};
use std::ops::Deref;
use std::rc::Rc;

/// The object of a value: its own, or one that it shares with other values.
///
/// Copying a value shares its object. To change a shared object, copy it first with [`SharedObject::to_mut`].
#[cycle(value)]
#[derive(Debug, Drop)]
pub enum SharedObject {
    Own(Object),
    Shared(Rc<Object>),
}

impl SharedObject {
    /// Returns the object in a form whose copies share it. An empty object takes no memory.
    pub fn shared(alloc: Global, object: Object) -> Result<SharedObject, AllocError>
        ensures { IfOk result (λ o. object_view o ≡ members_view object.entries) }
    {
        if object.is_empty() {
            Ok(SharedObject::Own(object))
        } else {
            Ok(SharedObject::Shared(Rc::new(alloc, object)?))
        }
    }

    /// Returns the object.
    pub fn as_object(&self) -> &Object
        ensures same { result.now ≡ object_map self.now }
        ensures value { members_view result.now.entries ≡ object_view self.now }
    {
        match self {
            SharedObject::Own(object) => object,
            SharedObject::Shared(object) => object,
        }
    }

    /// Returns the object, to be changed in place, if no other value shares it. It takes no memory.
    pub fn get_mut(&mut self) -> Option<&mut Object>
        ensures* writes_back { sem 𝓛 (LendsSo shared_object_row object_row self.entry result
            (λ o m. object_view o ≡ members_view m.entries) (λ o. object_view o ≡ object_view self.old)) }
        ensures value { IfSome result (λ m. members_view m.now.entries ≡ object_view self.old) }
    {
        match self {
            SharedObject::Own(object) => Some(object),
            SharedObject::Shared(object) => Rc::get_mut(object),
        }
    }

    /// Returns the object, to be changed: a copy of it if other values share it. On an error it is left as it was.
    pub fn to_mut(&mut self) -> Result<&mut Object, AllocError>
        ensures* writes_back { sem 𝓛 (LendsSoOk shared_object_row object_row self.entry result
            (λ o m. object_view o ≡ members_view m.entries) (λ o. object_view o ≡ object_view self.old)) }
        ensures value { IfOk result (λ m. members_view m.now.entries ≡ object_view self.old) }
    {
        match self {
            SharedObject::Own(object) => Ok(object),
            SharedObject::Shared(object) => Rc::make_mut(object),
        }
    }

    /// Returns the object itself, or a copy of it if other values share it.
    pub fn into_object(self) -> Result<Object, AllocError>
        ensures { IfOk result (λ m. members_view m.entries ≡ object_view self) }
    {
        match self {
            SharedObject::Own(object) => Ok(object),
            SharedObject::Shared(object) => Rc::unwrap_or_clone(object),
        }
    }
}

impl Deref for SharedObject {
    type Target = Object;

    ghost deref_gives = { λ o m. members_view m.entries ≡ object_view o };

    fn deref(&self) -> &Object
        ensures { members_view result.now.entries ≡ object_view self.now }
    {
        self.as_object()
    }
}
