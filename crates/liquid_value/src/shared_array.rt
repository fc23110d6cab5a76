//! The array of a value, which other values may share.
ghost use Rattle.std.specs.Prelude.{◌≡◌, IfOk, IfSome};
ghost use Rattle.std.specs.Borrow.{LendsSo, LendsSoOk, sem};
ghost use Rattle.liquid_value.specs.contracts.shared_array.SharedArray.{the_row as shared_array_row};
ghost use Rattle.liquid_value.specs.meaning.Rows.{array_row};
ghost use Rattle.liquid_value.specs.meaning.Shared.{array_list};
ghost use Rattle.liquid_value.specs.meaning.View.{array_view, items_view};

use crate::value::Array;
use std::alloc::{AllocError, Global};
use std::ops::Deref;
use std::rc::Rc;

/// The array of a value: its own, or one that it shares with other values.
///
/// Copying a value shares its array. To change a shared array, copy it first with [`SharedArray::to_mut`].
#[cycle(value)]
#[derive(Debug, Drop)]
pub enum SharedArray {
    Own(Array),
    Shared(Rc<Array>),
}

impl SharedArray {
    /// Returns the array in a form whose copies share it. An empty array takes no memory.
    pub fn shared(alloc: Global, array: Array) -> Result<SharedArray, AllocError>
        ensures { IfOk result (λ a. array_view a ≡ items_view array.items) }
    {
        if array.is_empty() {
            Ok(SharedArray::Own(array))
        } else {
            Ok(SharedArray::Shared(Rc::new(alloc, array)?))
        }
    }

    /// Returns the array.
    pub fn as_array(&self) -> &Array
        ensures same { result.now ≡ array_list self.now }
        ensures value { items_view result.now.items ≡ array_view self.now }
    {
        match self {
            SharedArray::Own(array) => array,
            SharedArray::Shared(array) => array,
        }
    }

    /// Returns the array, to be changed in place, if no other value shares it. It takes no memory.
    pub fn get_mut(&mut self) -> Option<&mut Array>
        ensures* writes_back { sem 𝓛 (LendsSo shared_array_row array_row self.entry result
            (λ a v. array_view a ≡ items_view v.items) (λ a. array_view a ≡ array_view self.old)) }
        ensures value { IfSome result (λ v. items_view v.now.items ≡ array_view self.old) }
    {
        match self {
            SharedArray::Own(array) => Some(array),
            SharedArray::Shared(array) => Rc::get_mut(array),
        }
    }

    /// Returns the array, to be changed: a copy of it if other values share it. On an error it is left as it was.
    pub fn to_mut(&mut self) -> Result<&mut Array, AllocError>
        ensures* writes_back { sem 𝓛 (LendsSoOk shared_array_row array_row self.entry result
            (λ a v. array_view a ≡ items_view v.items) (λ a. array_view a ≡ array_view self.old)) }
        ensures value { IfOk result (λ v. items_view v.now.items ≡ array_view self.old) }
    {
        match self {
            SharedArray::Own(array) => Ok(array),
            SharedArray::Shared(array) => Rc::make_mut(array),
        }
    }

    /// Returns the array itself, or a copy of it if other values share it.
    pub fn into_array(self) -> Result<Array, AllocError>
        ensures { IfOk result (λ v. items_view v.items ≡ array_view self) }
    {
        match self {
            SharedArray::Own(array) => Ok(array),
            SharedArray::Shared(array) => Rc::unwrap_or_clone(array),
        }
    }
}

impl Deref for SharedArray {
    type Target = Array;

    ghost deref_gives = { λ a v. items_view v.items ≡ array_view a };

    fn deref(&self) -> &Array
        ensures { items_view result.now.items ≡ array_view self.now }
    {
        self.as_array()
    }
}
