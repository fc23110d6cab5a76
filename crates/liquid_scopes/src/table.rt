//! Frames in the order in which they began, with an index of their names.
ghost use Rattle.std.specs.Prelude.{◌≡◌, ◌≤◌, ◌<◌, ◌+◌, ◌^◌, ◌&&◌, ◌||◌, ◌++◌, ℕ, List, [], ◌∷◌, true, length, map};
ghost use Rattle.std.specs.Prelude.{nat_eq, bytes_eq, is_none, false, IfOk, IfErr, IfSome, IfNone, OnOk, OnErr, Some, None};
ghost use Rattle.std.specs.Prelude.{string_bytes, option_map, option_to_list, vec_len, vec_capacity};
ghost use Rattle.liquid_error.specs.meaning.Told.{Gives};
ghost use Rattle.liquid_value.specs.meaning.View.{view as tree_of};
ghost use Rattle.liquid_runtime.specs.meaning.View.{View};
ghost use Rattle.liquid_runtime.specs.meaning.Frames.{Restore};
ghost use Rattle.liquid_runtime.specs.meaning.NamesSeen.{names_seen, comes_from_seal};
ghost use Rattle.liquid_runtime.specs.meaning.Roots.{NamesOf};
ghost use Rattle.liquid_runtime.specs.meaning.LoopNames.{seen_tree};
ghost use Rattle.liquid_runtime.specs.meaning.Sets.{old_global, put_global};
ghost use Rattle.liquid_scopes.specs.steps.Layers.{restoring, is_global, LastGlobal, GlobalAt};
ghost use Rattle.liquid_scopes.specs.steps.LinkLayers.{layer_of, layer_taken, layers_of, view_over};
ghost use Rattle.liquid_scopes.specs.steps.Standing.{stands, own_at, has_at, listed_at, seen_over};
ghost use Rattle.liquid_scopes.specs.steps.Standing.{Forgotten, sealed_by, seals_at, is_sandboxed, last_seal, places_where};
ghost use Rattle.liquid_scopes.specs.steps.NamePlaces.{TopOf};

pub(crate) mod name_lookup;

use crate::flat_scopes::Count;
use crate::index::Index;
use crate::link::{Link, Taken, forget_loop};
use crate::links::{forget_absent, name_over, put, roots_over};
use crate::place::{drop_place, is_at, is_under, keep_place, last_of};
use liquid_error::Error;
use liquid_runtime::{Fresh, Seen};
use liquid_value::Value;
use std::alloc::{AllocError, Global};
use std::collections::BTreeSet;

/// The open frames, the oldest first.
///
/// The index has the places of the frames that give a name a value, except that of the unlisted frame. The last frame
/// that can hold names is listed only when another such frame begins over it, so that a frame with none over it costs
/// no entry. The places of sandboxed frames, and those of global ones, are in their order.
#[derive(Drop)]
pub(crate) struct Table<V> {
    links: Vec<Link<V>>,
    index: Index,
    unlisted: Option<usize>,
    seals: Vec<usize>,
    globals: Vec<usize>,
    ghost fits: { (q : List ℕ) (j : ℕ) → stands index.places q j ≡ listed_at (layers_of links.items) unlisted q j },
    ghost seals_are: { seals.items ≡ places_where is_sandboxed 0 (layers_of links.items) },
    ghost globals_are: { globals.items ≡ places_where is_global 0 (layers_of links.items) },
}

impl<V: Fresh> Table<V> {
    pub(crate) fn new(alloc: Global) -> Table<V>
        ensures { result.links.items ≡ [] }
    {
        Table {
            links: Vec::new(alloc),
            index: Index::new(alloc),
            unlisted: None,
            seals: Vec::new(alloc),
            globals: Vec::new(alloc),
        }
    }

    /// Returns the number of frames.
    pub(crate) fn frames(&self) -> usize
        ensures { result ≡ length self.now.links.items }
    {
        self.links.len()
    }

    /// Returns the name of the template over that of the base.
    pub(crate) fn name_over<'a>(&'a self, below: Option<&'a str>) -> Option<&'a str>
        ensures { (v : View V.Shape) → option_map (λ r. r.now) below.entry ≡ v.name
            → option_map (λ r. r.now) result ≡ (view_over v self.now.links.items).name }
    {
        name_over(self.links.as_slice(), below)
    }

    /// Returns the names that have a value, over those of the base.
    pub(crate) fn roots_over(
        &self,
        alloc: Global,
        below: BTreeSet<String>,
    ) -> Result<BTreeSet<String>, AllocError>
        ensures { (v : View V.Shape) → NamesOf (names_seen v) below
            → IfOk result (λ names. NamesOf (names_seen (view_over v self.now.links.items)) names) }
    {
        roots_over(alloc, self.links.as_slice(), below)
    }

    /// Returns `true` if the name, if it has a value, is the own name of a sandboxed frame, where `below` says so for
    /// the base. It takes at most two frame lookups.
    pub(crate) fn seals_over(&self, name: &str, below: bool, count: &mut Count) -> bool
        requires { count.old.looks + 2 < 2 ^ 64 }
        ensures seals { (v : View V.Shape) → below ≡ comes_from_seal v name.now
            → result ≡ comes_from_seal (view_over v self.now.links.items) name.now }
        ensures looks { count.new.looks ≤ count.old.looks + 2 }
    {
        let top = self.top(name, count);
        match self.find_sandboxed() {
            Some(seal) => !is_under(seal, top) && self.seals_at(seal, name, count),
            None => match top {
                Some(_) => false,
                None => below,
            },
        }
    }

    /// Returns the last place of the name. If a sandboxed frame is over all its places, returns one of these or none.
    fn top(&self, name: &str, count: &mut Count) -> Option<usize>
        requires { count.old.looks + 1 < 2 ^ 64 }
        ensures seals { (v : View V.Shape) → comes_from_seal (view_over v self.now.links.items) name.now
            ≡ sealed_by result (last_seal (layers_of self.now.links.items))
            (seals_at (layers_of self.now.links.items) name.now) (comes_from_seal v name.now) }
        ensures looks { count.new.looks ≤ count.old.looks + 1 }
    {
        let listed = self.find_listed(name);
        match self.unlisted_over(listed) {
            Some(place) => match self.look_at(place, name, count) {
                Some(_) => Some(place),
                None => listed,
            },
            None => listed,
        }
    }

    /// Returns `true` if the sandboxed frame at this place seals the name, if no frame over it gives it a value. This
    /// takes at most one frame lookup.
    fn seals_at(&self, place: usize, name: &str, count: &mut Count) -> bool
        requires { count.old.looks + 1 < 2 ^ 64 }
        ensures seals { result ≡ seals_at (layers_of self.now.links.items) name.now place }
        ensures looks { count.new.looks ≤ count.old.looks + 1 }
    {
        match self.links.as_slice().get(place) {
            Some(link) => link.seals_own(name, count),
            None => true,
        }
    }

    /// Returns the last listed place of the name.
    fn find_listed(&self, name: &str) -> Option<usize>
        ensures { TopOf (listed_at (layers_of self.now.links.items) self.now.unlisted name.now) result }
    {
        self.index.top(name)
    }

    /// Returns the place of the unlisted frame, unless it is under this place or under a sandboxed frame.
    fn unlisted_over(&self, place: Option<usize>) -> Option<usize>
        ensures { result ≡ seen_over place (last_seal (layers_of self.now.links.items)) self.now.unlisted }
    {
        match self.unlisted {
            Some(unlisted) => {
                if is_under(unlisted, self.find_sandboxed()) || is_under(unlisted, place) {
                    None
                } else {
                    Some(unlisted)
                }
            }
            None => None,
        }
    }

    /// Returns the place of the last sandboxed frame.
    fn find_sandboxed(&self) -> Option<usize>
        ensures { result ≡ last_seal (layers_of self.now.links.items) }
    {
        last_of(&self.seals)
    }

    /// Returns the place of the last global frame.
    pub(crate) fn last_global(&self) -> Option<usize>
        ensures { LastGlobal (layers_of self.now.links.items) result }
    {
        last_of(&self.globals)
    }

    /// Returns the value that the frame at this place itself gives the name. This is one frame lookup, if there is a
    /// frame.
    #[inline(always)]
    fn look_at(&self, place: usize, name: &str, count: &mut Count) -> Option<Seen<'_>>
        requires { count.old.looks + 1 < 2 ^ 64 }
        ensures value { option_map seen_tree result ≡ own_at place (layers_of self.now.links.items) name.now }
        ensures looks { count.new.looks ≤ count.old.looks + 1 }
        ensures counts { count.old.looks ≤ count.new.looks }
        ensures finds { IfSome result (λ value. count.old.looks + 1 ≤ count.new.looks) }
    {
        match self.links.as_slice().get(place) {
            Some(link) => link.look(name, count),
            None => None,
        }
    }

    /// Adds a frame. It is returned if memory runs out.
    #[inline(always)]
    pub(crate) fn add(&mut self, alloc: Global, link: Link<V>) -> Result<(), Link<V>>
        ensures added { OnOk result (self.new.links.items ≡ self.old.links.items ++ link ∷ []) }
        ensures back { IfErr result (λ given. given ≡ link) }
        ensures unchanged { OnErr result (self.new.links.items ≡ self.old.links.items) }
    {
        if !self.make_room(&link) || !self.next_unlisted(alloc, &link) {
            return Err(link);
        }
        let place = self.links.len();
        keep_place(&mut self.seals, link.is_sandboxed(), place);
        keep_place(&mut self.globals, link.is_global(), place);
        self.links.push_reserved(link);
        Ok(())
    }

    /// Adds a frame that is neither sandboxed nor global, and returns whether there is memory for it. Without memory, the
    /// frame is dropped.
    #[inline(always)]
    pub(crate) fn add_plain(&mut self, alloc: Global, link: Link<V>) -> bool
        requires not_sandboxed { is_sandboxed (layer_of link) ≡ false }
        requires not_global { is_global (layer_of link) ≡ false }
        ensures added { result ≡ true → self.new.links.items ≡ self.old.links.items ++ link ∷ [] }
        ensures unchanged { result ≡ false → self.new.links.items ≡ self.old.links.items }
    {
        match self.links.reserve(1) {
            Ok(()) => {}
            Err(_) => return false,
        }
        if !self.next_unlisted(alloc, &link) {
            return false;
        }
        self.links.push_reserved(link);
        true
    }

    /// Makes the next frame the unlisted one, if it can hold names, and lists the one before it. Returns whether there is
    /// memory for that.
    #[inline(always)]
    fn next_unlisted(&mut self, alloc: Global, next: &Link<V>) -> bool
        ensures links { self.new.links ≡ self.old.links }
        ensures seals { self.new.seals ≡ self.old.seals }
        ensures globals { self.new.globals ≡ self.old.globals }
        ensures fits { result ≡ true → (q : List ℕ) (j : ℕ) → stands self.new.index.places q j
            ≡ listed_at (map layer_of self.old.links.items ++ layer_of next.now ∷ []) self.new.unlisted q j }
    {
        if !next.can_hold_names() {
            return true;
        }
        if !self.list(alloc) {
            return false;
        }
        self.unlisted = Some(self.links.len());
        true
    }

    /// Lists the unlisted frame, if there is one, and returns whether there is memory for that.
    #[inline(always)]
    fn list(&mut self, alloc: Global) -> bool
        ensures links { self.new.links ≡ self.old.links }
        ensures seals { self.new.seals ≡ self.old.seals }
        ensures globals { self.new.globals ≡ self.old.globals }
        ensures listed { result ≡ true → self.new.unlisted ≡ None }
    {
        match self.unlisted {
            Some(place) => self.list_at(alloc, place),
            None => true,
        }
    }

    /// Lists the unlisted frame, which is at this place, and returns whether there is memory for that.
    fn list_at(&mut self, alloc: Global, place: usize) -> bool
        requires { self.old.unlisted ≡ Some place }
        ensures links { self.new.links ≡ self.old.links }
        ensures seals { self.new.seals ≡ self.old.seals }
        ensures globals { self.new.globals ≡ self.old.globals }
        ensures listed { result ≡ true → self.new.unlisted ≡ None }
    {
        let link = match self.links.as_slice().get(place) {
            Some(link) => link,
            None => {
                self.unlisted = None;
                return true;
            }
        };
        match link.note(&mut self.index, alloc, place) {
            Ok(()) => {
                self.unlisted = None;
                true
            }
            Err(_) => {
                link.forget(&mut self.index, place);
                false
            }
        }
    }

    /// Makes room for one more frame, and returns whether there is room.
    #[inline(always)]
    fn make_room(&mut self, next: &Link<V>) -> bool
        ensures links { self.new.links.items ≡ self.old.links.items }
        ensures room { result ≡ true → vec_len self.new.links < vec_capacity self.new.links }
        ensures seals { result ≡ true → is_sandboxed (layer_of next.now) ≡ true → vec_len self.new.seals < vec_capacity self.new.seals }
        ensures globals { result ≡ true → is_global (layer_of next.now) ≡ true → vec_len self.new.globals < vec_capacity self.new.globals }
    {
        self.links.reserve(1).is_ok()
            && (!next.is_sandboxed() || self.seals.reserve(1).is_ok())
            && (!next.is_global() || self.globals.reserve(1).is_ok())
    }

    /// Removes the last frame. The names that it masked are found again.
    #[inline(always)]
    pub(crate) fn take(&mut self) -> Option<Taken<V>>
        ensures items { layers_of self.old.links.items
            ≡ layers_of self.new.links.items ++ option_to_list (option_map layer_taken result) }
        ensures none { IfNone result (self.old.links.items ≡ []) }
    {
        match self.links.pop() {
            Some(Link::Loop(frame)) => {
                let place = self.links.len();
                if is_at(self.unlisted, place) {
                    self.unlisted = None;
                    return Some(Taken::Loop(frame));
                }
                forget_loop(&mut self.index, &*frame, place);
                Some(Taken::Loop(frame))
            }
            Some(link) => {
                let place = self.links.len();
                drop_place(&mut self.seals, link.is_sandboxed());
                drop_place(&mut self.globals, link.is_global());
                if is_at(self.unlisted, place) {
                    self.unlisted = None;
                    return Some(Taken::Other(link));
                }
                link.forget(&mut self.index, place);
                Some(Taken::Other(link))
            }
            None => None,
        }
    }

    /// Gives a name a value in the global frame at this place.
    pub(crate) fn assign(
        &mut self,
        alloc: Global,
        place: usize,
        name: String,
        value: Value,
    ) -> Result<Option<Value>, Error>
        requires { GlobalAt (layers_of self.old.links.items) place }
        ensures gives { (v : View V.Shape) → Gives (option_map tree_of) result
            (old_global (view_over v self.old.links.items) (string_bytes name)) }
        ensures sets { (v : View V.Shape) → OnOk result (view_over v self.new.links.items
            ≡ put_global (view_over v self.old.links.items) (string_bytes name) (tree_of value)) }
        ensures owes { (v : View V.Shape) (rs : List (Restore V.Shape)) → restoring V.shape v (layers_of self.new.links.items) rs
            ≡ restoring V.shape v (layers_of self.old.links.items) rs }
        ensures unchanged { (v : View V.Shape) → OnErr result (view_over v self.new.links.items ≡ view_over v self.old.links.items) }
    {
        if is_at(self.unlisted, place) {
            return put(&mut self.links, place, name, value);
        }
        let kept = name.clone()?;
        self.index.note(alloc, kept.as_str(), place)?;
        match put(&mut self.links, place, name, value) {
            Ok(old) => Ok(old),
            Err(error) => {
                forget_absent(self.links.as_slice(), &mut self.index, kept.as_str(), place);
                Err(error)
            }
        }
    }
}
