//! The places of the frames that have one name.
ghost use Rattle.std.specs.Prelude.{◌≡◌, ℕ, ◌&&◌, ◌||◌, true, not, nat_eq, Some, None, OnOk, OnErr};
ghost use Rattle.std.specs.Ordering.{nat_cmp};
ghost use Rattle.std.specs.BTreeSet.{contains};
ghost use Rattle.liquid_scopes.specs.steps.NamePlaces.{is_place, is_under, TopOf};

use std::alloc::{AllocError, Global};
use std::collections::BTreeSet;

/// The places of the frames that give a name a value. The last one is kept apart: a name that only one frame has takes
/// no memory for its places.
#[derive(Drop)]
pub(crate) struct Frames {
    last: Option<usize>,
    earlier: BTreeSet<usize>,
    ghost ordered: { (j : ℕ) → contains nat_cmp earlier j ≡ true → is_under j last ≡ true },
}

impl Frames {
    /// Returns the places of one frame.
    pub(crate) fn one(alloc: Global, place: usize) -> Frames
        ensures { (j : ℕ) → is_place result.last result.earlier j ≡ nat_eq j place }
    {
        Frames {
            last: Some(place),
            earlier: BTreeSet::new(alloc),
        }
    }

    /// Returns the last place, if there is one.
    pub(crate) fn last(&self) -> Option<usize>
        ensures { TopOf (is_place self.now.last self.now.earlier) result }
    {
        self.last
    }

    /// Adds a place.
    #[inline(always)]
    pub(crate) fn add(&mut self, place: usize) -> Result<(), AllocError>
        ensures added { OnOk result ((j : ℕ) → is_place self.new.last self.new.earlier j
            ≡ (is_place self.old.last self.old.earlier j || nat_eq j place)) }
        ensures unchanged { OnErr result ((j : ℕ) → is_place self.new.last self.new.earlier j ≡ is_place self.old.last self.old.earlier j) }
    {
        let Some(last) = self.last else {
            self.last = Some(place);
            return Ok(());
        };
        if place == last {
            return Ok(());
        }
        self.earlier.insert(place.min(last))?;
        self.last = Some(place.max(last));
        Ok(())
    }

    /// Removes a place.
    #[inline(always)]
    pub(crate) fn leave(&mut self, place: usize)
        ensures { (j : ℕ) → is_place self.new.last self.new.earlier j
            ≡ (is_place self.old.last self.old.earlier j && not (nat_eq j place)) }
    {
        if self.last == Some(place) {
            self.last = self.earlier.pop_last();
        } else {
            self.earlier.remove(&place);
        }
    }
}
