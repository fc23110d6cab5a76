//! Which of the listed frames give a name a value.
ghost use Rattle.std.specs.Prelude.{◌≡◌, ℕ, List, false, is_some, OnOk, OnErr, bytes_eq};
ghost use Rattle.std.specs.FinMap.{get};
ghost use Rattle.liquid_runtime.specs.meaning.Maps.{names_of};
ghost use Rattle.liquid_scopes.specs.steps.Standing.{stands, SamePlaces, Noted, PartlyNoted, Forgotten};
ghost use Rattle.liquid_scopes.specs.steps.NamePlaces.{TopOf};

use crate::frames::Frames;
use liquid_value::Object;
use std::alloc::{AllocError, Global};
use std::collections::BTreeMap;

/// The places of the listed frames that give a value, for each name. A name keeps its entry after its frames have ended,
/// so that a frame that begins again in a loop takes no memory.
#[derive(Drop)]
pub(crate) struct Index {
    places: BTreeMap<String, Frames>,
}

impl Index {
    pub(crate) fn new(alloc: Global) -> Index
        ensures { (q : List ℕ) (j : ℕ) → stands result.places q j ≡ false }
    {
        Index {
            places: BTreeMap::new(alloc),
        }
    }

    /// Returns the last frame of the name.
    pub(crate) fn top(&self, name: &str) -> Option<usize>
        ensures { TopOf (stands self.now.places name.now) result }
    {
        match self.places.get(name) {
            Some(frames) => frames.last(),
            None => None,
        }
    }

    /// Records that the frame gives the name a value.
    #[inline(always)]
    pub(crate) fn note(&mut self, alloc: Global, name: &str, frame: usize) -> Result<(), AllocError>
        ensures noted { OnOk result (Noted (λ q. bytes_eq name.now q) frame self.old.places self.new.places) }
        ensures unchanged { OnErr result (SamePlaces self.old.places self.new.places) }
    {
        match self.places.get_mut(name) {
            Some(frames) => return frames.add(frame),
            None => {}
        }
        let name = String::from_str(alloc, name)?;
        self.places.insert(name, Frames::one(alloc, frame))?;
        Ok(())
    }

    /// Records that the frame no longer gives the name a value.
    #[inline(always)]
    pub(crate) fn forget(&mut self, name: &str, frame: usize)
        ensures { Forgotten (λ q. bytes_eq name.now q) frame self.old.places self.new.places }
    {
        match self.places.get_mut(name) {
            Some(frames) => frames.leave(frame),
            None => {}
        }
    }

    /// Records that the frame gives these names a value. If memory runs out, some of them are recorded.
    #[inline(always)]
    pub(crate) fn note_all(
        &mut self,
        alloc: Global,
        names: &Object,
        frame: usize,
    ) -> Result<(), AllocError>
        ensures noted { OnOk result (Noted (λ q. is_some (get (names_of names.now) q)) frame self.old.places self.new.places) }
        ensures partly { PartlyNoted (λ q. is_some (get (names_of names.now) q)) frame self.old.places self.new.places }
    {
        for (name, _) in names.iter() {
            self.note(alloc, name.as_str(), frame)?;
        }
        Ok(())
    }

    /// Records that the frame no longer gives any of these names a value.
    #[inline(always)]
    pub(crate) fn forget_all(&mut self, names: &Object, frame: usize)
        ensures { Forgotten (λ q. is_some (get (names_of names.now) q)) frame self.old.places self.new.places }
    {
        for (name, _) in names.iter() {
            self.forget(name.as_str(), frame);
        }
    }
}
