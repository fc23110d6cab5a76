//! A frame that hides all names below it.
ghost use Rattle.std.specs.Prelude.{◌≡◌, ◌∷◌, None, string_bytes, option_map};
ghost use Rattle.liquid_runtime.specs.meaning.Calls.{named, shaped};
ghost use Rattle.liquid_runtime.specs.meaning.Frames.{begin_sandboxed, restored_by, sandboxed_frame};
ghost use Rattle.liquid_runtime.specs.steps.FrameViews.{sandboxed_with};
ghost use Rattle.liquid_runtime.specs.meaning.Maps.{names_of};

use crate::leniency::Leniency;
use crate::loop_frame::Seen;
use crate::names::{add_names, own_name, seen_of, value_of};
use crate::registers::Registers;
use crate::runtime::Runtime;
use liquid_error::Error;
use liquid_value::{Object, Value};
use std::alloc::{AllocError, Global};
use std::collections::BTreeSet;

/// A frame of names that hides all names below, with its own registers. What is set in it is set in the frames below.
#[derive(Drop)]
pub struct SandboxedStackFrame<P: Runtime> {
    parent: P,
    names: Object,
    name: Option<String>,
    registers: Registers<P::Register>,
}

impl<P: Runtime> SandboxedStackFrame<P> {
    /// Returns a frame of the names in `data` alone, over `parent`.
    pub fn new(parent: P, data: Object) -> Self
        ensures view { ⟦<SandboxedStackFrame<P> as Runtime>⟧.view result
            ≡ begin_sandboxed P.Register.fresh (names_of «data») None (P.view parent) }
        ensures store { ⟦<SandboxedStackFrame<P> as Runtime>⟧.store result ≡ P.store parent }
        ensures owes { ⟦<SandboxedStackFrame<P> as Runtime>⟧.restores result
            ≡ restored_by (sandboxed_frame (names_of «data») None) (P.view parent) ∷ P.restores parent }
        ensures borrows { ⟦<SandboxedStackFrame<P> as Runtime>⟧.lent result ≡ P.lent parent }
    {
        SandboxedStackFrame {
            parent,
            names: data,
            name: None,
            registers: Registers::fresh(),
        }
    }

    /// Sets the name of the template, in place of any other.
    pub fn with_name(mut self, name: String) -> Self
        ensures view { ⟦<SandboxedStackFrame<P> as Runtime>⟧.view result
            ≡ named (string_bytes name) (⟦<SandboxedStackFrame<P> as Runtime>⟧.view self) }
        ensures store { ⟦<SandboxedStackFrame<P> as Runtime>⟧.store result ≡ ⟦<SandboxedStackFrame<P> as Runtime>⟧.store self }
        ensures owes { ⟦<SandboxedStackFrame<P> as Runtime>⟧.restores result ≡ ⟦<SandboxedStackFrame<P> as Runtime>⟧.restores self }
        ensures borrows { ⟦<SandboxedStackFrame<P> as Runtime>⟧.lent result ≡ ⟦<SandboxedStackFrame<P> as Runtime>⟧.lent self }
    {
        self.name = Some(name);
        self
    }
}

impl<P: Runtime> Runtime for SandboxedStackFrame<P> {
    type Register = P::Register;

    type Store = P::Store;

    ghost view = { λ f. sandboxed_with (shaped P.Register.shape f.registers) (names_of f.names)
        (option_map (λ s. string_bytes s) f.name) (P.view f.parent) };

    ghost store = { λ f. P.store f.parent };

    ghost relent = { λ f w. record f { registers = w } };

    ghost restored = { λ f w. record f { parent = P.restored f.parent w } };

    ghost restores = { λ f. restored_by (sandboxed_frame (names_of f.names) None) (P.view f.parent) ∷ P.restores f.parent };

    ghost lent = { λ f. P.lent f.parent };

    fn name(&self) -> Option<&str> {
        match own_name(&self.name) {
            Some(name) => Some(name),
            None => self.parent.name(),
        }
    }

    #[tactic(auto, using(crate::proofs::FrameLookups::frame_lookups))]
    fn try_get_name(&self, name: &str) -> Option<Seen<'_>> {
        seen_of(&self.names, name)
    }

    #[tactic(auto, using(crate::proofs::FrameLookups::frame_lookups))]
    fn seals(&self, _name: &str) -> bool {
        true
    }

    #[tactic(auto, using(crate::proofs::FrameLookups::frame_lookups))]
    fn roots(&self, alloc: Global) -> Result<BTreeSet<String>, AllocError> {
        add_names(&self.names, BTreeSet::new(alloc))
    }

    fn get_index(&self, name: &str) -> Option<&Value> {
        self.parent.get_index(name)
    }

    fn set_global(&mut self, name: String, value: Value) -> Result<Option<Value>, Error> {
        self.parent.set_global(name, value)
    }

    fn set_index(&mut self, name: String, value: Value) -> Result<Option<Value>, Error> {
        self.parent.set_index(name, value)
    }

    fn registers(&self) -> &Registers<P::Register> {
        &self.registers
    }

    fn registers_mut(&mut self) -> &mut Registers<P::Register> {
        &mut self.registers
    }

    fn partials(&mut self) -> Option<&mut P::Store> {
        self.parent.partials()
    }

    fn depth(&self) -> u32 {
        self.parent.depth()
    }

    fn leniency(&self) -> Leniency {
        self.parent.leniency()
    }
}
