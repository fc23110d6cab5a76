//! A frame of names over another runtime.
ghost use Rattle.std.specs.Prelude.{◌≡◌, ◌∷◌, None, string_bytes, option_map};
ghost use Rattle.liquid_runtime.specs.meaning.Calls.{named};
ghost use Rattle.liquid_runtime.specs.meaning.Frames.{begin_stack, restored_by, stack_frame};
ghost use Rattle.liquid_runtime.specs.meaning.Maps.{names_of};

use crate::leniency::Leniency;
use crate::loop_frame::Seen;
use crate::names::{add_names, own_name, seen_of, value_of};
use crate::registers::Registers;
use crate::runtime::Runtime;
use liquid_error::Error;
use liquid_value::{Object, Value};
use std::alloc::{AllocError, Global};
use std::collections::BTreeSet;

/// A frame of names over another runtime. Its own names hide those below.
#[derive(Drop)]
pub struct StackFrame<P> {
    parent: P,
    names: Object,
    name: Option<String>,
}

impl<P: Runtime> StackFrame<P> {
    /// Returns a frame of the names in `data` over `parent`.
    pub fn new(parent: P, data: Object) -> Self
        ensures view { ⟦<StackFrame<P> as Runtime>⟧.view result ≡ begin_stack (names_of «data») None (P.view parent) }
        ensures store { ⟦<StackFrame<P> as Runtime>⟧.store result ≡ P.store parent }
        ensures owes { ⟦<StackFrame<P> as Runtime>⟧.restores result
            ≡ restored_by (stack_frame (names_of «data») None) (P.view parent) ∷ P.restores parent }
        ensures borrows { ⟦<StackFrame<P> as Runtime>⟧.lent result ≡ P.lent parent }
    {
        StackFrame {
            parent,
            names: data,
            name: None,
        }
    }

    /// Sets the name of the template, in place of any other.
    pub fn with_name(mut self, name: String) -> Self
        ensures view { ⟦<StackFrame<P> as Runtime>⟧.view result ≡ named (string_bytes name) (⟦<StackFrame<P> as Runtime>⟧.view self) }
        ensures store { ⟦<StackFrame<P> as Runtime>⟧.store result ≡ ⟦<StackFrame<P> as Runtime>⟧.store self }
        ensures owes { ⟦<StackFrame<P> as Runtime>⟧.restores result ≡ ⟦<StackFrame<P> as Runtime>⟧.restores self }
        ensures borrows { ⟦<StackFrame<P> as Runtime>⟧.lent result ≡ ⟦<StackFrame<P> as Runtime>⟧.lent self }
    {
        self.name = Some(name);
        self
    }

    /// Ends the frame and returns the runtime below it.
    pub(crate) fn into_parent(self) -> P
        ensures { result ≡ self.parent }
    {
        let StackFrame {
            parent,
            names,
            name,
        } = self;
        drop(names);
        drop(name);
        parent
    }
}

impl<P: Runtime> Runtime for StackFrame<P> {
    type Register = P::Register;

    type Store = P::Store;

    ghost view = { λ f. begin_stack (names_of f.names) (option_map (λ s. string_bytes s) f.name) (P.view f.parent) };

    ghost store = { λ f. P.store f.parent };

    ghost relent = { λ f w. record f { parent = P.relent f.parent w } };

    ghost restored = { λ f w. record f { parent = P.restored f.parent w } };

    ghost restores = { λ f. restored_by (stack_frame (names_of f.names) None) (P.view f.parent) ∷ P.restores f.parent };

    ghost lent = { λ f. P.lent f.parent };

    fn name(&self) -> Option<&str> {
        match own_name(&self.name) {
            Some(name) => Some(name),
            None => self.parent.name(),
        }
    }

    #[tactic(auto, using(crate::proofs::FrameLookups::frame_lookups))]
    fn try_get_name(&self, name: &str) -> Option<Seen<'_>> {
        match seen_of(&self.names, name) {
            Some(value) => Some(value),
            None => self.parent.try_get_name(name),
        }
    }

    #[tactic(auto, using(crate::proofs::FrameLookups::frame_lookups))]
    fn seals(&self, name: &str) -> bool {
        match value_of(&self.names, name) {
            Some(_) => false,
            None => self.parent.seals(name),
        }
    }

    #[tactic(auto, using(crate::proofs::FrameLookups::frame_lookups))]
    fn roots(&self, alloc: Global) -> Result<BTreeSet<String>, AllocError> {
        let below = self.parent.roots(alloc)?;
        add_names(&self.names, below)
    }

    fn get_index(&self, name: &str) -> Option<&Value> {
        self.parent.get_index(name)
    }

    fn set_global(&mut self, name: String, value: Value) -> Result<Option<Value>, Error> {
        self.parent.set_global(name, value)
    }

    fn set_index(&mut self, name: String, value: Value) -> Result<Option<Value>, Error> {
        self.parent.set_index(name, value)
    }

    fn registers(&self) -> &Registers<P::Register> {
        self.parent.registers()
    }

    fn registers_mut(&mut self) -> &mut Registers<P::Register> {
        self.parent.registers_mut()
    }

    fn partials(&mut self) -> Option<&mut P::Store> {
        self.parent.partials()
    }

    fn depth(&self) -> u32 {
        self.parent.depth()
    }

    fn leniency(&self) -> Leniency {
        self.parent.leniency()
    }
}
