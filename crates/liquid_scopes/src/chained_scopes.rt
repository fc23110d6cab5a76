//! Scopes whose names are looked up frame by frame.
ghost use Rattle.std.specs.Prelude.{◌≡◌, ◌∷◌, option_map};
ghost use Rattle.liquid_runtime.specs.meaning.LoopNames.{seen_tree};
ghost use Rattle.liquid_runtime.specs.meaning.View.{View};
ghost use Rattle.liquid_runtime.specs.meaning.Frames.{scope_base};
ghost use Rattle.liquid_runtime.specs.meaning.NamesSeen.{comes_from_seal};
ghost use Rattle.liquid_scopes.specs.steps.Layers.{shown_over, restoring, layer_found, layer_seals, LastGlobal};
ghost use Rattle.liquid_scopes.specs.steps.LinkLayers.{layer_of, layers_of, view_over};

use crate::link::{Link, closing, opening};
use crate::links::{name_over, roots_over};
use liquid_error::Error;
use liquid_runtime::names::{seen_of, value_of};
use liquid_runtime::{Frame, Fresh, Leniency, LoopFrame, Registers, Runtime, Scopes, Seen};
use liquid_value::Value;
use std::alloc::{AllocError, Global};
use std::collections::BTreeSet;

/// Scopes whose frames are in a list over their base. A name is looked up frame by frame.
pub struct ChainedScopes<R: Runtime> {
    alloc: Global,
    base: R,
    links: Vec<Link<R::Register>>,
}

impl<R: Runtime> ChainedScopes<R> {
    /// Returns the place of the innermost global frame.
    fn last_global(&self) -> Option<usize>
        ensures { LastGlobal (layers_of self.now.links.items) result }
    {
        let mut at = None;
        for i in 0..self.links.len() {
            if self.links[i].is_global() {
                at = Some(i);
            }
        }
        at
    }
}

impl<R: Runtime> Runtime for ChainedScopes<R> {
    type Register = R::Register;

    type Store = R::Store;

    ghost view = { λ s. shown_over (R.view s.base) (layers_of s.links.items) };

    ghost store = { λ s. R.store s.base };

    ghost relent = { λ s w. record s { base = R.relent s.base w } };

    ghost restored = { λ s w. record s { base = R.restored s.base w } };

    ghost restores = { λ s. restoring R.Register.shape (R.view s.base) (layers_of s.links.items) (scope_base ∷ R.restores s.base) };

    ghost lent = { λ s. R.lent s.base };

    fn name(&self) -> Option<&str> {
        name_over(self.links.as_slice(), self.base.name())
    }

    fn try_get_name(&self, name: &str) -> Option<Seen<'_>> {
        let mut found = self.base.try_get_name(name);
        for link in &self.links {
            found = link.find_name(name, found);
        }
        found
    }

    fn seals(&self, name: &str) -> bool {
        seals_over(self.links.as_slice(), name, self.base.seals(name))
    }

    fn roots(&self, alloc: Global) -> Result<BTreeSet<String>, AllocError> {
        let below = self.base.roots(alloc)?;
        roots_over(alloc, self.links.as_slice(), below)
    }

    fn get_index(&self, name: &str) -> Option<&Value> {
        self.base.get_index(name)
    }

    fn set_global(&mut self, name: String, value: Value) -> Result<Option<Value>, Error> {
        match self.last_global() {
            Some(i) => self.links[i].assign(name, value),
            None => self.base.set_global(name, value),
        }
    }

    fn set_index(&mut self, name: String, value: Value) -> Result<Option<Value>, Error> {
        self.base.set_index(name, value)
    }

    fn registers(&self) -> &Registers<R::Register> {
        self.base.registers()
    }

    fn registers_mut(&mut self) -> &mut Registers<R::Register> {
        self.base.registers_mut()
    }

    fn partials(&mut self) -> Option<&mut R::Store> {
        self.base.partials()
    }

    fn depth(&self) -> u32 {
        self.base.depth()
    }

    fn leniency(&self) -> Leniency {
        self.base.leniency()
    }
}

impl<R: Runtime> Scopes for ChainedScopes<R> {
    type Base = R;

    fn new(alloc: Global, base: R) -> ChainedScopes<R> {
        ChainedScopes {
            alloc,
            base,
            links: Vec::new(alloc),
        }
    }

    fn push(&mut self, frame: Frame) -> Result<(), Error> {
        self.links.reserve(1)?;
        let link = opening(self.alloc, &mut self.base, frame);
        self.links.push_reserved(link);
        Ok(())
    }

    fn pop(&mut self) {
        drop(self.pop_loop());
    }

    fn pop_loop(&mut self) -> Option<Box<LoopFrame>> {
        match self.links.pop() {
            Some(link) => closing(&mut self.base, link),
            None => None,
        }
    }

    fn frames(&self) -> usize {
        self.links.len()
    }

    fn into_base(self) -> R {
        let ChainedScopes {
            alloc: _alloc,
            base,
            links: _links,
        } = self;
        base
    }
}

// A walk over all links looks in each of them, so only chained scopes have one.
impl<V> Link<V> {
    #[tactic(auto, using(liquid_runtime::proofs::FrameLookups::own_first))]
    fn find_name<'a>(&'a self, name: &str, below: Option<Seen<'a>>) -> Option<Seen<'a>>
        ensures { option_map seen_tree result
            ≡ layer_found (layer_of self.now) name.now (option_map seen_tree below.entry) }
    {
        match self {
            Link::None => below,
            Link::Stack(data, _) => match seen_of(data, name) {
                Some(seen) => Some(seen),
                None => below,
            },
            Link::Loop(frame) => match frame.look(name) {
                Some(seen) => Some(seen),
                None => below,
            },
            Link::Global(assigned) => match seen_of(assigned, name) {
                Some(seen) => Some(seen),
                None => below,
            },
            Link::Sandboxed(data, _, _) => seen_of(data, name),
            Link::Isolated(data, assigned, _, _) => match seen_of(assigned, name) {
                Some(seen) => Some(seen),
                None => seen_of(data, name),
            },
        }
    }

    #[tactic(auto, using(liquid_runtime::proofs::FrameLookups::own_first))]
    fn seals(&self, name: &str, below: bool) -> bool
        ensures { result ≡ layer_seals (layer_of self.now) name.now below }
    {
        match self {
            Link::None => below,
            Link::Stack(data, _) => match value_of(data, name) {
                Some(_) => false,
                None => below,
            },
            Link::Loop(frame) => match frame.look(name) {
                Some(_) => false,
                None => below,
            },
            Link::Global(assigned) => match value_of(assigned, name) {
                Some(_) => false,
                None => below,
            },
            Link::Sandboxed(_, _, _) => true,
            Link::Isolated(_, assigned, _, _) => value_of(assigned, name).is_none(),
        }
    }
}

/// Returns `true` if the name, if it has a value, is the own name of a sandboxed frame.
fn seals_over<V: Fresh>(links: &[Link<V>], name: &str, below: bool) -> bool
    ensures { (v : View V.Shape) → below ≡ comes_from_seal v name.now → result ≡ comes_from_seal (view_over v links.now) name.now }
{
    let mut sealed = below;
    for link in links {
        sealed = link.seals(name, sealed);
    }
    sealed
}
