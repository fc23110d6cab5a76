//! The frame of the index variables.
ghost use Rattle.std.specs.Prelude.{◌≡◌, [], Some};
ghost use Rattle.liquid_runtime.specs.meaning.Frames.{begin_index};
ghost use Rattle.liquid_runtime.specs.meaning.Calls.{shaped};
ghost use Rattle.liquid_runtime.specs.steps.FrameViews.{core_with, indexed_view};
ghost use Rattle.liquid_runtime.specs.meaning.Maps.{names_of};

use crate::leniency::Leniency;
use crate::loop_frame::Seen;
use crate::names::{add_names, seen_of, set_name, value_of};
use crate::registers::{Fresh, Registers};
use crate::runtime::Runtime;
use crate::runtime_core::RuntimeCore;
use liquid_error::Error;
use liquid_value::{Object, Value};
use std::alloc::{AllocError, Global};
use std::collections::BTreeSet;

/// The frame of the index variables, over the core. Only a builder makes it.
#[derive(Drop)]
pub struct IndexFrame<V, S> {
    parent: RuntimeCore<V, S>,
    variables: Object,
}

impl<V: Fresh, S: Drop> IndexFrame<V, S> {
    /// Returns a frame without index variables.
    #[tactic(auto, using(crate::proofs::FrameLookups::frame_lookups))]
    pub(crate) fn new(alloc: Global, parent: RuntimeCore<V, S>) -> Self
        ensures view { ⟦<IndexFrame<V, S> as Runtime>⟧.view result ≡ begin_index (⟦<RuntimeCore<V, S> as Runtime>⟧.view parent) }
        ensures store { ⟦<IndexFrame<V, S> as Runtime>⟧.store result ≡ ⟦<RuntimeCore<V, S> as Runtime>⟧.store parent }
    {
        IndexFrame {
            parent,
            variables: Object::new(alloc),
        }
    }

    /// Ends the frame and returns the core below it.
    pub(crate) fn into_parent(self) -> RuntimeCore<V, S>
        ensures { result ≡ self.parent }
    {
        let IndexFrame { parent, variables } = self;
        drop(variables);
        parent
    }
}

impl<V: Fresh, S: Drop> Runtime for IndexFrame<V, S> {
    type Register = V;

    type Store = S;

    ghost view = { λ f. indexed_view (names_of f.variables)
        (core_with (shaped V.shape f.parent.registers) f.parent.depth f.parent.lenient) };

    ghost store = { λ f. f.parent.store };

    ghost relent = { λ f w. record f { parent = record f.parent { registers = w } } };

    ghost restored = { λ f w. record f { parent = record f.parent { store = Some w } } };

    ghost restores = { λ c. [] };

    ghost lent = { λ c. [] };

    fn name(&self) -> Option<&str> {
        None
    }

    #[tactic(auto, using(crate::proofs::FrameLookups::frame_lookups))]
    fn try_get_name(&self, name: &str) -> Option<Seen<'_>> {
        seen_of(&self.variables, name)
    }

    #[tactic(auto, using(crate::proofs::FrameLookups::frame_lookups))]
    fn seals(&self, name: &str) -> bool {
        self.parent.seals(name)
    }

    #[tactic(auto, using(crate::proofs::FrameLookups::frame_lookups))]
    fn roots(&self, alloc: Global) -> Result<BTreeSet<String>, AllocError> {
        let below = self.parent.roots(alloc)?;
        add_names(&self.variables, below)
    }

    fn get_index(&self, name: &str) -> Option<&Value> {
        value_of(&self.variables, name)
    }

    fn set_global(&mut self, name: String, value: Value) -> Result<Option<Value>, Error> {
        self.parent.set_global(name, value)
    }

    #[tactic(auto, using(crate::proofs::FrameLookups::frame_lookups))]
    fn set_index(&mut self, name: String, value: Value) -> Result<Option<Value>, Error> {
        set_name(&mut self.variables, name, value)
    }

    fn registers(&self) -> &Registers<V> {
        self.parent.registers()
    }

    fn registers_mut(&mut self) -> &mut Registers<V> {
        self.parent.registers_mut()
    }

    fn partials(&mut self) -> Option<&mut S> {
        self.parent.partials()
    }

    fn depth(&self) -> u32 {
        self.parent.depth()
    }

    fn leniency(&self) -> Leniency {
        self.parent.leniency()
    }
}
