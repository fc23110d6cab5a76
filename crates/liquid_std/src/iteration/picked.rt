//! Some of the items of a series, in order or in reverse.
ghost use Rattle.std.specs.Prelude.{◌≡◌, ◌+ℤ◌, drop, length, option_map, slice_get, IfOk, OnErr, OnOk};
ghost use Rattle.liquid_runtime.specs.meaning.LoopNames.{item_tree};
ghost use Rattle.liquid_tags.specs.meaning.Items.{items_left};
ghost use Rattle.liquid_std.specs.meaning.iteration.Picked.{natural, picked, picked_left};

use liquid_core::runtime::LoopItem;
use liquid_tags::Items;
use std::alloc::AllocError;

/// The items that a loop has left: those from one place up to another.
#[derive(Drop)]
pub struct Picked {
    items: Items,
    from: u64,
    to: u64,
    is_reversed: bool,
}

impl Picked {
    /// Returns the items from the place `offset` on, and at most `limit` places from there, in reverse if `is_reversed`.
    ///
    /// Places count from 0. Both numbers may be below 0: the items are those with `offset <= place < offset + limit`.
    #[tactic(auto, using(crate::proofs::PickedLemmas::picked_all, crate::proofs::PickedLemmas::picked_some))]
    pub fn of(items: Items, offset: i64, limit: Option<i64>, is_reversed: bool) -> Picked
        ensures { picked_left result ≡ picked offset limit is_reversed (items_left items) }
    {
        match limit {
            Some(limit) => Picked {
                items,
                from: clamp_negative(offset),
                to: place_after(offset, limit),
                is_reversed,
            },
            None => {
                let to = items.len();
                Picked {
                    items,
                    from: clamp_negative(offset),
                    to,
                    is_reversed,
                }
            }
        }
    }

    /// Returns how many items are left.
    #[tactic(auto, using(crate::proofs::PickedLemmas::picked_length))]
    pub fn len(&self) -> u64
        ensures { result ≡ length (picked_left self.now) }
    {
        self.to.min(self.items.len()).saturating_sub(self.from)
    }

    /// Removes the first item and returns it, if there is one. If memory runs out, nothing is removed.
    #[tactic(auto, using(crate::proofs::PickedLemmas::taken))]
    pub fn take_first(&mut self) -> Result<Option<LoopItem>, AllocError>
        ensures first { IfOk result (λ item. option_map item_tree item ≡ slice_get (picked_left self.old) 0) }
        ensures following { OnOk result (picked_left self.new ≡ drop 1 (picked_left self.old)) }
        ensures same { OnErr result (picked_left self.new ≡ picked_left self.old) }
    {
        let end = self.to.min(self.items.len());
        if end <= self.from {
            return Ok(None);
        }
        if self.is_reversed {
            let last = end - 1;
            let item = self.items.get(last)?;
            self.to = last;
            Ok(item)
        } else {
            let item = self.items.get(self.from)?;
            self.from += 1;
            Ok(item)
        }
    }
}

/// Returns the number, or 0 if it is below 0.
pub(crate) fn clamp_negative(number: i64) -> u64
    ensures { result ≡ natural number }
{
    if number < 0 { 0 } else { number as u64 }
}

/// Returns the sum of a place and a number of places, or 0 if it is below 0.
fn place_after(offset: i64, limit: i64) -> u64
    ensures { result ≡ natural (offset +ℤ limit) }
{
    let place = offset as i128 + limit as i128;
    if place < 0 { 0 } else { place as u64 }
}
