//! Scopes that find a name in at most two frame lookups.
ghost use Rattle.std.specs.Prelude.{◌≡◌, ◌≤◌, ◌<◌, ◌+◌, ◌^◌, ◌∷◌, ◌++◌, [], false, ℕ, IfOk, IfErr, OnOk, OnErr, IfSome, None, option_map};
ghost use Rattle.liquid_error.specs.meaning.Told.{told};
ghost use Rattle.liquid_runtime.specs.meaning.Calls.{frame_of};
ghost use Rattle.liquid_runtime.specs.meaning.Made.{InPlaceOrMade};
ghost use Rattle.liquid_paths.specs.meaning.PathOf.{indexes_of};
ghost use Rattle.liquid_value.specs.meaning.Cow.{cow_view};
ghost use Rattle.liquid_runtime.specs.meaning.Frames.{scope_base, beginning, restored_by};
ghost use Rattle.liquid_runtime.specs.meaning.Lookup.{try_path};
ghost use Rattle.liquid_scopes.specs.steps.Layers.{shown_over, restoring, is_global};
ghost use Rattle.liquid_scopes.specs.steps.Standing.{is_sandboxed};
ghost use Rattle.liquid_scopes.specs.steps.LinkLayers.{layer_of, layers_of};

use crate::link::{Link, Taken, closing, opening};
use crate::table::Table;
use crate::table::name_lookup::look_up;
use liquid_error::Error;
use liquid_runtime::{Frame, Leniency, LoopFrame, Registers, Runtime, Scopes, Seen, find_seen};
use liquid_scalar::ScalarCow;
use liquid_value::{Value, ValueCow};
use std::alloc::{AllocError, Global};
use std::collections::BTreeSet;
use std::marker::Model;

/// Counts how often the search for a name looks in a frame, or in the base.
#[derive(Drop)]
pub struct Looks {
    count: Count,
}

impl Model for Looks {
    ghost Value = { ℕ };

    ghost view = { λ l. l.count.looks };
}

impl Looks {
    /// Returns a count of zero.
    pub fn new() -> Looks
        ensures { result ≡ 0 }
    {
        Looks {
            count: Count { looks: 0 },
        }
    }

    /// Returns the number of frame lookups.
    pub fn count(&self) -> u64
        ensures { result ≡ self.now }
    {
        self.count.looks
    }
}

impl Default for Looks {
    ghost is_default = { λ looks. looks ≡ 0 };

    fn default() -> Looks {
        Looks::new()
    }
}

/// What the frames count their lookups by. It is made only here, and no frame can be searched here without it. So
/// whatever looks in a frame counts the lookup where the caller of `seek` reads it.
#[derive(Drop)]
pub(crate) struct Count {
    looks: u64,
}

impl Count {
    /// Counts one more frame lookup.
    pub(crate) fn tick(&mut self)
        requires { self.old.looks + 1 < 2 ^ 64 }
        ensures { self.new.looks ≡ self.old.looks + 1 }
    {
        self.looks += 1;
    }
}

/// Scopes whose frames are kept with an index of their names.
///
/// A name is found in at most two frame lookups, however many frames are open. The last frame that can hold names isn't
/// listed in the index until another such frame is opened over it, and is searched itself. The other lookup is at the
/// name's last place by the index, or in the base.
pub struct FlatScopes<R: Runtime> {
    alloc: Global,
    base: R,
    table: Table<R::Register>,
}

impl<R: Runtime> FlatScopes<R> {
    /// Returns the value of a path, as by `try_get`, and counts the frame lookups: at most two, and at least one if
    /// there is a value.
    ///
    /// The caller's count has room for two more.
    pub fn seek(
        &self,
        alloc: Global,
        path: &[ScalarCow<'_>],
        looks: &mut Looks,
    ) -> Result<Option<ValueCow<'_>>, AllocError>
        requires { looks.old + 2 < 2 ^ 64 }
        ensures gives { IfOk result (λ value. option_map cow_view value
            ≡ try_path (⟦<FlatScopes<R> as Runtime>⟧.view self.now) (indexes_of path.now)) }
        ensures in_place { IfOk result (λ value. IfSome value InPlaceOrMade) }
        ensures looks { looks.new ≤ looks.old + 2 }
        ensures counts { looks.old ≤ looks.new }
        ensures finds { IfOk result (λ found. IfSome found (λ value. looks.old + 1 ≤ looks.new)) }
    {
        match path.split_first() {
            None => Ok(None),
            Some((first, rest)) => {
                let name = first.to_kstr(alloc)?;
                match look_up(&self.table, &self.base, name.as_str(), &mut looks.count) {
                    None => Ok(None),
                    Some(seen) => find_seen(alloc, seen, rest),
                }
            }
        }
    }

    /// Begins the frame of a link that is neither sandboxed nor global. It is dropped if memory runs out.
    #[inline(always)]
    fn push_plain(&mut self, link: Link<R::Register>) -> Result<(), Error>
        requires not_sandboxed { is_sandboxed (layer_of link) ≡ false }
        requires not_global { is_global (layer_of link) ≡ false }
        ensures added { OnOk result (self.new.table.links.items ≡ self.old.table.links.items ++ link ∷ []) }
        ensures err { IfErr result (λ e. told e ≡ None) }
        ensures unchanged { OnErr result (self.new.table.links.items ≡ self.old.table.links.items) }
        ensures base { self.new.base ≡ self.old.base }
    {
        if self.table.add_plain(self.alloc, link) {
            Ok(())
        } else {
            Err(Error::Memory)
        }
    }

    /// Begins any frame, as `push` does.
    fn push_other(&mut self, frame: Frame) -> Result<(), Error>
        ensures ok { OnOk result (⟦<FlatScopes<R> as Runtime>⟧.view self.new
            ≡ beginning R.Register.fresh (frame_of frame) (⟦<FlatScopes<R> as Runtime>⟧.view self.old)) }
        ensures opens { OnOk result (⟦<FlatScopes<R> as Runtime>⟧.restores self.new
            ≡ restored_by (frame_of frame) (⟦<FlatScopes<R> as Runtime>⟧.view self.old) ∷ ⟦<FlatScopes<R> as Runtime>⟧.restores self.old) }
        ensures err { IfErr result (λ e. told e ≡ None) }
        ensures unchanged { OnErr result (⟦<FlatScopes<R> as Runtime>⟧.view self.new ≡ ⟦<FlatScopes<R> as Runtime>⟧.view self.old) }
        ensures owes { OnErr result (⟦<FlatScopes<R> as Runtime>⟧.restores self.new ≡ ⟦<FlatScopes<R> as Runtime>⟧.restores self.old) }
        ensures store { ⟦<FlatScopes<R> as Runtime>⟧.store self.new ≡ ⟦<FlatScopes<R> as Runtime>⟧.store self.old }
        ensures borrows { ⟦<FlatScopes<R> as Runtime>⟧.lent self.new ≡ ⟦<FlatScopes<R> as Runtime>⟧.lent self.old }
    {
        let link = opening(self.alloc, &mut self.base, frame);
        match self.table.add(self.alloc, link) {
            Ok(()) => Ok(()),
            Err(link) => {
                drop(closing(&mut self.base, link));
                Err(Error::Memory)
            }
        }
    }
}

impl<R: Runtime> Runtime for FlatScopes<R> {
    type Register = R::Register;

    type Store = R::Store;

    ghost view = { λ s. shown_over (R.view s.base) (layers_of s.table.links.items) };

    ghost store = { λ s. R.store s.base };

    ghost relent = { λ s w. record s { base = R.relent s.base w } };

    ghost restored = { λ s w. record s { base = R.restored s.base w } };

    ghost restores = { λ s. restoring R.Register.shape (R.view s.base) (layers_of s.table.links.items) (scope_base ∷ R.restores s.base) };

    ghost lent = { λ s. R.lent s.base };

    fn name(&self) -> Option<&str> {
        self.table.name_over(self.base.name())
    }

    fn try_get_name(&self, name: &str) -> Option<Seen<'_>> {
        let mut looks = Looks::new();
        look_up(&self.table, &self.base, name, &mut looks.count)
    }

    fn seals(&self, name: &str) -> bool {
        let mut looks = Looks::new();
        self.table
            .seals_over(name, self.base.seals(name), &mut looks.count)
    }

    fn roots(&self, alloc: Global) -> Result<BTreeSet<String>, AllocError> {
        let below = self.base.roots(alloc)?;
        self.table.roots_over(alloc, below)
    }

    fn try_get(
        &self,
        alloc: Global,
        path: &[ScalarCow<'_>],
    ) -> Result<Option<ValueCow<'_>>, AllocError> {
        let mut looks = Looks::new();
        self.seek(alloc, path, &mut looks)
    }

    fn get_index(&self, name: &str) -> Option<&Value> {
        self.base.get_index(name)
    }

    fn set_global(&mut self, name: String, value: Value) -> Result<Option<Value>, Error> {
        match self.table.last_global() {
            Some(place) => self.table.assign(self.alloc, place, name, value),
            None => self.base.set_global(name, value),
        }
    }

    fn set_index(&mut self, name: String, value: Value) -> Result<Option<Value>, Error> {
        self.base.set_index(name, value)
    }

    fn registers(&self) -> &Registers<R::Register> {
        self.base.registers()
    }

    fn registers_mut(&mut self) -> &mut Registers<R::Register> {
        self.base.registers_mut()
    }

    fn partials(&mut self) -> Option<&mut R::Store> {
        self.base.partials()
    }

    fn depth(&self) -> u32 {
        self.base.depth()
    }

    fn leniency(&self) -> Leniency {
        self.base.leniency()
    }
}

impl<R: Runtime> Scopes for FlatScopes<R> {
    type Base = R;

    fn new(alloc: Global, base: R) -> FlatScopes<R> {
        FlatScopes {
            alloc,
            base,
            table: Table::new(alloc),
        }
    }

    fn push(&mut self, frame: Frame) -> Result<(), Error> {
        match frame {
            Frame::Loop(frame) => self.push_plain(Link::Loop(frame)),
            Frame::None => self.push_plain(Link::None),
            Frame::Stack(names, name) => self.push_plain(Link::Stack(names, name)),
            other => self.push_other(other),
        }
    }

    fn pop(&mut self) {
        drop(self.pop_loop());
    }

    fn pop_loop(&mut self) -> Option<Box<LoopFrame>> {
        match self.table.take() {
            Some(Taken::Loop(frame)) => Some(frame),
            Some(Taken::Other(link)) => closing(&mut self.base, link),
            None => None,
        }
    }

    fn frames(&self) -> usize {
        self.table.frames()
    }

    fn into_base(self) -> R {
        let FlatScopes {
            alloc: _alloc,
            base,
            table: _table,
        } = self;
        base
    }
}
