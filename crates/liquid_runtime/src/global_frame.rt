//! A frame that takes what a template assigns.
ghost use Rattle.std.specs.Prelude.{◌≡◌, ◌∷◌};
ghost use Rattle.liquid_runtime.specs.meaning.Frames.{begin_global, restored_by, global_frame};
ghost use Rattle.liquid_runtime.specs.steps.FrameViews.{assigned_view};
ghost use Rattle.liquid_runtime.specs.meaning.Maps.{names_of};

use crate::leniency::Leniency;
use crate::loop_frame::Seen;
use crate::names::{add_names, seen_of, set_name, value_of};
use crate::registers::Registers;
use crate::runtime::Runtime;
use liquid_error::Error;
use liquid_value::{Object, Value};
use std::alloc::{AllocError, Global};
use std::collections::BTreeSet;

/// A frame that takes the names that a template assigns. They hide those below.
#[derive(Drop)]
pub struct GlobalFrame<P> {
    parent: P,
    assigned: Object,
}

impl<P: Runtime> GlobalFrame<P> {
    /// Returns a frame over `parent` in which nothing is assigned yet.
    #[tactic(auto, using(crate::proofs::FrameLookups::frame_lookups))]
    pub fn new(alloc: Global, parent: P) -> Self
        ensures view { ⟦<GlobalFrame<P> as Runtime>⟧.view result ≡ begin_global (P.view parent) }
        ensures store { ⟦<GlobalFrame<P> as Runtime>⟧.store result ≡ P.store parent }
        ensures owes { ⟦<GlobalFrame<P> as Runtime>⟧.restores result ≡ restored_by global_frame (P.view parent) ∷ P.restores parent }
        ensures borrows { ⟦<GlobalFrame<P> as Runtime>⟧.lent result ≡ P.lent parent }
    {
        GlobalFrame {
            parent,
            assigned: Object::new(alloc),
        }
    }

    /// Ends the frame and returns the runtime below it.
    pub(crate) fn into_parent(self) -> P
        ensures { result ≡ self.parent }
    {
        let GlobalFrame { parent, assigned } = self;
        drop(assigned);
        parent
    }
}

impl<P: Runtime> Runtime for GlobalFrame<P> {
    type Register = P::Register;

    type Store = P::Store;

    ghost view = { λ f. assigned_view (names_of f.assigned) (P.view f.parent) };

    ghost store = { λ f. P.store f.parent };

    ghost relent = { λ f w. record f { parent = P.relent f.parent w } };

    ghost restored = { λ f w. record f { parent = P.restored f.parent w } };

    ghost restores = { λ f. restored_by global_frame (P.view f.parent) ∷ P.restores f.parent };

    ghost lent = { λ f. P.lent f.parent };

    fn name(&self) -> Option<&str> {
        self.parent.name()
    }

    #[tactic(auto, using(crate::proofs::FrameLookups::frame_lookups))]
    fn try_get_name(&self, name: &str) -> Option<Seen<'_>> {
        match seen_of(&self.assigned, name) {
            Some(value) => Some(value),
            None => self.parent.try_get_name(name),
        }
    }

    #[tactic(auto, using(crate::proofs::FrameLookups::frame_lookups))]
    fn seals(&self, name: &str) -> bool {
        match value_of(&self.assigned, name) {
            Some(_) => false,
            None => self.parent.seals(name),
        }
    }

    #[tactic(auto, using(crate::proofs::FrameLookups::frame_lookups))]
    fn roots(&self, alloc: Global) -> Result<BTreeSet<String>, AllocError> {
        let below = self.parent.roots(alloc)?;
        add_names(&self.assigned, below)
    }

    fn get_index(&self, name: &str) -> Option<&Value> {
        self.parent.get_index(name)
    }

    #[tactic(auto, using(crate::proofs::FrameLookups::frame_lookups))]
    fn set_global(&mut self, name: String, value: Value) -> Result<Option<Value>, Error> {
        set_name(&mut self.assigned, name, value)
    }

    fn set_index(&mut self, name: String, value: Value) -> Result<Option<Value>, Error> {
        self.parent.set_index(name, value)
    }

    fn registers(&self) -> &Registers<P::Register> {
        self.parent.registers()
    }

    fn registers_mut(&mut self) -> &mut Registers<P::Register> {
        self.parent.registers_mut()
    }

    fn partials(&mut self) -> Option<&mut P::Store> {
        self.parent.partials()
    }

    fn depth(&self) -> u32 {
        self.parent.depth()
    }

    fn leniency(&self) -> Leniency {
        self.parent.leniency()
    }
}
