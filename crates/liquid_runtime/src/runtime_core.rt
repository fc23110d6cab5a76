//! The lowest runtime, over which frames are laid.
ghost use Rattle.std.specs.Prelude.{◌≡◌, [], None, Some};
ghost use Rattle.liquid_runtime.specs.meaning.Frames.{core_view, leniently};
ghost use Rattle.liquid_runtime.specs.meaning.Calls.{shaped};
ghost use Rattle.liquid_runtime.specs.steps.FrameViews.{core_with};

use crate::leniency::Leniency;
use crate::loop_frame::Seen;
use crate::registers::{Fresh, Registers};
use crate::runtime::Runtime;
use liquid_error::Error;
use liquid_value::Value;
use std::alloc::{AllocError, Global};
use std::collections::BTreeSet;

/// The number of partials that may be nested unless a builder sets another.
pub(crate) const DEFAULT_DEPTH: u32 = 32;

/// The lowest runtime. It has no names, and nowhere to set one.
#[derive(Drop)]
pub struct RuntimeCore<V, S> {
    registers: Registers<V>,
    store: Option<S>,
    depth: u32,
    lenient: Leniency,
}

impl<V: Fresh, S: Drop> RuntimeCore<V, S> {
    /// Returns a core without a store, on which 32 partials may be nested and a path without a value is an error.
    pub fn new() -> Self
        ensures view { ⟦<RuntimeCore<V, S> as Runtime>⟧.view result ≡ core_view V.fresh 32 }
        ensures store { ⟦<RuntimeCore<V, S> as Runtime>⟧.store result ≡ None }
    {
        RuntimeCore::with(None, DEFAULT_DEPTH, Leniency::Strict)
    }

    /// Returns a core over this store, on which that many partials may be nested, of this leniency.
    pub(crate) fn with(store: Option<S>, depth: u32, lenient: Leniency) -> Self
        ensures view { ⟦<RuntimeCore<V, S> as Runtime>⟧.view result ≡ leniently lenient (core_view V.fresh depth) }
        ensures store { ⟦<RuntimeCore<V, S> as Runtime>⟧.store result ≡ store }
    {
        RuntimeCore {
            registers: Registers::fresh(),
            store,
            depth,
            lenient,
        }
    }

    /// Returns the store.
    pub(crate) fn into_store(self) -> Option<S>
        ensures { result ≡ self.store }
    {
        let RuntimeCore {
            registers,
            store,
            depth: _,
            lenient: _,
        } = self;
        drop(registers);
        store
    }
}

/// Returns a core as `new` makes it.
impl<V: Fresh, S: Drop> Default for RuntimeCore<V, S> {
    ghost is_default = { λ core.
        (⟦<RuntimeCore<V, S> as Runtime>⟧.view core ≡ core_view V.fresh 32)
        × (⟦<RuntimeCore<V, S> as Runtime>⟧.store core ≡ None) };

    fn default() -> RuntimeCore<V, S> {
        RuntimeCore::new()
    }
}

impl<V: Fresh, S: Drop> Runtime for RuntimeCore<V, S> {
    type Register = V;

    type Store = S;

    ghost view = { λ c. core_with (shaped V.shape c.registers) c.depth c.lenient };

    ghost store = { λ c. c.store };

    ghost relent = { λ c w. record c { registers = w } };

    ghost restored = { λ c w. record c { store = Some w } };

    ghost restores = { λ c. [] };

    ghost lent = { λ c. [] };

    fn name(&self) -> Option<&str> {
        None
    }

    #[tactic(auto, using(crate::proofs::FrameLookups::frame_lookups))]
    fn try_get_name(&self, _name: &str) -> Option<Seen<'_>> {
        None
    }

    #[tactic(auto, using(crate::proofs::FrameLookups::frame_lookups))]
    fn seals(&self, _name: &str) -> bool {
        false
    }

    #[tactic(auto, using(crate::proofs::FrameLookups::frame_lookups))]
    fn roots(&self, alloc: Global) -> Result<BTreeSet<String>, AllocError> {
        Ok(BTreeSet::new(alloc))
    }

    #[tactic(auto, using(crate::proofs::FrameLookups::frame_lookups))]
    fn get_index(&self, _name: &str) -> Option<&Value> {
        None
    }

    fn set_global(&mut self, name: String, _value: Value) -> Result<Option<Value>, Error> {
        Err(Error::with_msg(*name.allocator(), "No global frame"))
    }

    fn set_index(&mut self, name: String, _value: Value) -> Result<Option<Value>, Error> {
        Err(Error::with_msg(*name.allocator(), "No index frame"))
    }

    fn registers(&self) -> &Registers<V> {
        &self.registers
    }

    fn registers_mut(&mut self) -> &mut Registers<V> {
        &mut self.registers
    }

    fn partials(&mut self) -> Option<&mut S> {
        self.store.as_mut()
    }

    fn depth(&self) -> u32 {
        self.depth
    }

    fn leniency(&self) -> Leniency {
        self.lenient
    }
}
