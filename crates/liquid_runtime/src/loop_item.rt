//! The item of a loop's turn.
ghost use Rattle.std.specs.Prelude.{◌≡◌, map, option_map, slice_get, IfOk};
ghost use Rattle.liquid_value.specs.meaning.View.{view as tree_of};
ghost use Rattle.liquid_runtime.specs.meaning.LoopNames.{item_tree, listed_tree};

use crate::listed::Listed;
use liquid_value::{Array, Value};
use std::alloc::AllocError;
use std::rc::Rc;

/// The item of a turn.
#[derive(Drop)]
pub enum LoopItem {
    /// An item of an array.
    Listed(Listed),
    /// A value of its own, as a number of a range.
    Own(Value),
}

impl Listed {
    /// Returns the item at a place of an array, counted from 0, if there is one.
    ///
    /// It takes no memory. The error is that of sharing the array more often than can be counted.
    pub fn at(array: &Rc<Array>, place: usize) -> Result<Option<Listed>, AllocError>
        ensures { IfOk result (λ listed. option_map listed_tree listed ≡ slice_get (map (λ v. tree_of v) array.now.value.items) place) }
    {
        if place < array.len() {
            Ok(Some(Listed {
                array: array.clone()?,
                place,
            }))
        } else {
            Ok(None)
        }
    }

    /// Returns the item.
    pub fn get(&self) -> &Value
        ensures { tree_of result.now ≡ listed_tree self.now }
    {
        &self.array[self.place]
    }
}

impl LoopItem {
    /// Returns the item.
    pub fn get(&self) -> &Value
        ensures { tree_of result.now ≡ item_tree self.now }
    {
        match self {
            LoopItem::Listed(listed) => listed.get(),
            LoopItem::Own(value) => value,
        }
    }

    /// Returns a copy of the item.
    pub fn to_value(&self) -> Result<Value, AllocError>
        ensures { IfOk result (λ value. tree_of value ≡ item_tree self.now) }
    {
        self.get().clone()
    }
}
