//! The items that a loop has left.
ghost use Rattle.std.specs.Prelude.{◌≡◌, drop, length, map, option_map, slice_get, IfOk, OnOk};
ghost use Rattle.liquid_scalar.specs.meaning.Scalar.{integer};
ghost use Rattle.liquid_value.specs.meaning.Tree.{scalar};
ghost use Rattle.liquid_value.specs.meaning.View.{view as tree_of};
ghost use Rattle.liquid_value.specs.meaning.View.{array_view};
ghost use Rattle.liquid_runtime.specs.meaning.LoopNames.{item_tree, listed_tree};
ghost use Rattle.liquid_tags.specs.meaning.Series.{counted, trees};
ghost use Rattle.liquid_tags.specs.meaning.Items.{items_left};

use liquid_core::model::Array;
use liquid_core::runtime::{Listed, LoopItem};
use liquid_core::{SharedArray, Value};
use std::alloc::{AllocError, Global};
use std::rc::Rc;

/// The items that a loop has left.
///
/// The numbers of a range are made one by one: a list of a million of them takes some 50 MB.
#[derive(Drop)]
pub enum Items {
    /// The items of an array.
    Listed(ArrayItems),
    /// The numbers of a range.
    Counted(RangeItems),
}

/// The items of an array from a place on. The array is shared and not copied.
#[derive(Drop)]
pub struct ArrayItems {
    pub(crate) array: Rc<Array>,
    pub(crate) place: usize,
}

/// That many numbers, from the next one on.
#[derive(Drop)]
pub struct RangeItems {
    pub(crate) next: i64,
    pub(crate) size: u64,
}

impl Items {
    /// Returns the items of an array, which is moved into memory of its own unless it is shared.
    #[tactic(auto, using(crate::proofs::LoopItems::own_trees, crate::proofs::LoopItems::shared_trees))]
    pub(crate) fn from_shared(alloc: Global, array: SharedArray) -> Result<Items, AllocError>
        ensures { IfOk result (λ items. items_left items ≡ trees (array_view array)) }
    {
        match array {
            SharedArray::Own(array) => Items::from_array(alloc, array),
            SharedArray::Shared(array) => Ok(Items::Listed(ArrayItems { array, place: 0 })),
        }
    }

    /// Returns the items of an array.
    pub(crate) fn from_array(alloc: Global, array: Array) -> Result<Items, AllocError>
        ensures { IfOk result (λ items. items_left items ≡ map tree_of array.items) }
    {
        let array = Rc::new(alloc, array)?;
        Ok(Items::Listed(ArrayItems { array, place: 0 }))
    }

    /// Returns that many numbers, from this one on.
    pub(crate) fn from_range(next: i64, size: u64) -> Items
        ensures { items_left result ≡ counted next size }
    {
        Items::Counted(RangeItems { next, size })
    }

    /// Returns the number of items.
    pub fn len(&self) -> u64
        ensures { result ≡ length (items_left self.now) }
    {
        match self {
            Items::Listed(items) => items.len() as u64,
            Items::Counted(numbers) => numbers.size,
        }
    }

    /// Returns the item at a place, counted from 0, if there is one.
    pub fn get(&self, place: u64) -> Result<Option<LoopItem>, AllocError>
        ensures { IfOk result (λ item. option_map item_tree item ≡ slice_get (items_left self.now) place) }
    {
        match self {
            Items::Listed(items) => Ok(loop_item(items.get(place)?)),
            Items::Counted(numbers) => Ok(number_item(numbers.get(place)?)),
        }
    }

    /// Removes the first one and returns it, if there is one.
    pub(crate) fn take_first(&mut self) -> Result<Option<LoopItem>, AllocError>
        ensures first { IfOk result (λ item. option_map item_tree item ≡ slice_get (items_left self.old) 0) }
        ensures rest { OnOk result (items_left self.new ≡ drop 1 (items_left self.old)) }
    {
        match self {
            Items::Listed(items) => Ok(loop_item(items.take_first()?)),
            Items::Counted(numbers) => Ok(number_item(numbers.take_first()?)),
        }
    }
}

/// Returns an item of an array as that of a turn.
fn loop_item(listed: Option<Listed>) -> Option<LoopItem>
    ensures { option_map item_tree result ≡ option_map listed_tree listed }
{
    match listed {
        Some(listed) => Some(LoopItem::Listed(listed)),
        None => None,
    }
}

/// Returns a number as the item of a turn.
fn number_item(number: Option<i64>) -> Option<LoopItem>
    ensures { option_map item_tree result ≡ option_map (λ n. scalar (integer n)) number }
{
    match number {
        Some(number) => Some(LoopItem::Own(Value::scalar(number))),
        None => None,
    }
}

impl ArrayItems {
    /// Returns the number of items that are left.
    #[tactic(auto, using(crate::proofs::LoopItems::left_count))]
    fn len(&self) -> usize
        ensures { result ≡ length (drop self.now.place (map tree_of self.now.array.value.items)) }
    {
        self.array.len().saturating_sub(self.place)
    }

    /// Returns the item at a place, counted from 0, if there is one.
    #[tactic(auto, using(crate::proofs::LoopItems::left_at))]
    fn get(&self, place: u64) -> Result<Option<Listed>, AllocError>
        ensures { IfOk result (λ item. option_map listed_tree item
            ≡ slice_get (drop self.now.place (map tree_of self.now.array.value.items)) place) }
    {
        let Some(at) = (self.place as u64).checked_add(place) else {
            return Err(AllocError);
        };
        Listed::at(&self.array, at as usize)
    }

    /// Removes the first item and returns it, if there is one.
    #[tactic(auto, using(crate::proofs::LoopItems::at_place, crate::proofs::LoopItems::rest_after, crate::proofs::LoopItems::none_after))]
    fn take_first(&mut self) -> Result<Option<Listed>, AllocError>
        ensures first { IfOk result (λ item. option_map listed_tree item
            ≡ slice_get (drop self.old.place (map tree_of self.old.array.value.items)) 0) }
        ensures rest { OnOk result (drop self.new.place (map tree_of self.new.array.value.items)
            ≡ drop 1 (drop self.old.place (map tree_of self.old.array.value.items))) }
    {
        let Some(next) = self.place.checked_add(1) else {
            return Err(AllocError);
        };
        match Listed::at(&self.array, self.place)? {
            Some(item) => {
                self.place = next;
                Ok(Some(item))
            }
            None => Ok(None),
        }
    }
}

impl RangeItems {
    /// Returns the number at a place, counted from 0, if there is one.
    #[tactic(auto, using(crate::proofs::LoopItems::number_at, crate::proofs::LoopItems::number_past))]
    fn get(&self, place: u64) -> Result<Option<i64>, AllocError>
        ensures { IfOk result (λ number. option_map (λ n. scalar (integer n)) number
            ≡ slice_get (counted self.now.next self.now.size) place) }
    {
        if place >= self.size {
            return Ok(None);
        }
        match self.next.checked_add_unsigned(place) {
            Some(number) => Ok(Some(number)),
            None => Err(AllocError),
        }
    }

    /// Removes the first one and returns it, if there is one. A number after the greatest one is never reached, since a
    /// range ends at a number.
    fn take_first(&mut self) -> Result<Option<i64>, AllocError>
        ensures first { IfOk result (λ number. option_map (λ n. scalar (integer n)) number
            ≡ slice_get (counted self.old.next self.old.size) 0) }
        ensures rest { OnOk result (counted self.new.next self.new.size ≡ drop 1 (counted self.old.next self.old.size)) }
    {
        let number = self.next;
        match self.size.checked_sub(1) {
            None => Ok(None),
            Some(0) => {
                self.size = 0;
                Ok(Some(number))
            }
            Some(rest) => match number.checked_add(1) {
                Some(following) => {
                    self.next = following;
                    self.size = rest;
                    Ok(Some(number))
                }
                None => Err(AllocError),
            },
        }
    }
}
