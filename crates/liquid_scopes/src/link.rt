//! A frame over the base.
ghost use Rattle.std.specs.Prelude.{
  ◌≡◌,
  ◌<◌,
  ◌+◌,
  ◌^◌,
  ℕ,
  List,
  true,
  false,
  is_some,
  is_none,
  ◌&&◌,
  bytes_eq,
  IfOk,
  IfNone,
  IfSome,
  OnOk,
  OnErr,
  IfErr,
  None,
  string_bytes,
  option_map,
};
ghost use Rattle.std.specs.FinMap.{get, insert};
ghost use Rattle.std.specs.Option.{option_or};
ghost use Rattle.liquid_error.specs.meaning.Told.{told};
ghost use Rattle.liquid_value.specs.meaning.View.{view as tree_of};
ghost use Rattle.liquid_runtime.specs.meaning.View.{View};
ghost use Rattle.liquid_runtime.specs.meaning.Maps.{names_of, over};
ghost use Rattle.liquid_runtime.specs.meaning.Roots.{NamesOf};
ghost use Rattle.liquid_runtime.specs.meaning.LoopNames.{loop_names, seen_tree};
ghost use Rattle.liquid_runtime.specs.meaning.Frames.{beginning, restored_by, ending};
ghost use Rattle.liquid_runtime.specs.meaning.Calls.{frame_of, registers_of, with_registers};
ghost use Rattle.liquid_scopes.specs.steps.Layers.{layer_name, layer_view, layer_restores, is_global, assigned, assigning, LayerNames};
ghost use Rattle.liquid_scopes.specs.steps.LinkLayers.{layer_of};
ghost use Rattle.liquid_scopes.specs.steps.Standing.{own, is_sandboxed, seals_own, stands, Noted, PartlyNoted, Forgotten};

use crate::flat_scopes::Count;
use crate::index::Index;
use liquid_error::Error;
use liquid_runtime::names::{add_names, only_names, own_name, seen_of, set_name, value_of};
use liquid_runtime::{Frame, LoopFrame, Registers, Runtime, Seen};
use liquid_value::{Object, Value};
use std::alloc::{AllocError, Global};
use std::collections::BTreeSet;
use std::mem;

/// A frame over the base, with what it holds.
#[derive(Drop)]
pub(crate) enum Link<V> {
    None,
    Stack(Object, Option<String>),
    Loop(Box<LoopFrame>),
    Global(Object),
    // With the registers that are given back when it ends.
    Sandboxed(Object, Option<String>, Registers<V>),
    // The same, with what is assigned in it.
    Isolated(Object, Object, Option<String>, Registers<V>),
}

/// A frame that is taken away: that of a loop, which may be used again, or another.
pub(crate) enum Taken<V> {
    Loop(Box<LoopFrame>),
    Other(Link<V>),
}

impl<V> Link<V> {
    /// Returns the names that are seen in the link, from those that are seen below it.
    pub(crate) fn roots_over(
        &self,
        alloc: Global,
        below: BTreeSet<String>,
    ) -> Result<BTreeSet<String>, AllocError>
        ensures { IfOk result (λ names. LayerNames (layer_of self.now) below names) }
    {
        match self {
            Link::None => Ok(below),
            Link::Stack(data, _) => add_names(data, below),
            Link::Loop(frame) => frame.add_names(alloc, below),
            Link::Global(assigned) => add_names(assigned, below),
            Link::Sandboxed(data, _, _) => only_names(alloc, data),
            Link::Isolated(data, assigned, _, _) => both_names(alloc, data, assigned),
        }
    }

    pub(crate) fn name_over<'a>(&'a self, below: Option<&'a str>) -> Option<&'a str>
        ensures { option_map (λ r. r.now) result ≡ layer_name (layer_of self.now) (option_map (λ r. r.now) below.entry) }
    {
        match self {
            Link::None => below,
            Link::Stack(_, name) => match own_name(name) {
                Some(name) => Some(name),
                None => below,
            },
            Link::Loop(_) | Link::Global(_) => below,
            Link::Sandboxed(_, name, _) | Link::Isolated(_, _, name, _) => match own_name(name) {
                Some(name) => Some(name),
                None => below,
            },
        }
    }

    /// Returns the value that the frame itself gives a name. This is one frame lookup.
    #[inline(always)]
    pub(crate) fn look(&self, name: &str, count: &mut Count) -> Option<Seen<'_>>
        requires { count.old.looks + 1 < 2 ^ 64 }
        ensures value { option_map seen_tree result ≡ own (layer_of self.now) name.now }
        ensures looks { count.new.looks ≡ count.old.looks + 1 }
    {
        count.tick();
        match self {
            Link::None => None,
            Link::Stack(data, _) | Link::Global(data) | Link::Sandboxed(data, _, _) => {
                seen_of(data, name)
            }
            Link::Loop(frame) => frame.look(name),
            Link::Isolated(data, assigned, _, _) => first_seen(assigned, data, name),
        }
    }

    /// Returns `true` if the frame, if it is sandboxed, seals a name that no frame over it gives. This is one frame
    /// lookup.
    pub(crate) fn seals_own(&self, name: &str, looks: &mut Count) -> bool
        requires { looks.old.looks + 1 < 2 ^ 64 }
        ensures seals { result ≡ seals_own (layer_of self.now) name.now }
        ensures looks { looks.new.looks ≡ looks.old.looks + 1 }
    {
        looks.tick();
        match self {
            Link::Isolated(_, assigned, _, _) => value_of(assigned, name).is_none(),
            _ => true,
        }
    }

    /// Returns `true` if the frame gives a name a value, or may do so later.
    pub(crate) fn can_hold_names(&self) -> bool
        ensures { result ≡ false → (q : List ℕ) → own (layer_of self.now) q ≡ None }
    {
        match self {
            Link::None => false,
            Link::Loop(_) | Link::Global(_) | Link::Isolated(_, _, _, _) => true,
            Link::Stack(data, _) | Link::Sandboxed(data, _, _) => has_names(data),
        }
    }

    /// Records that the frame at this place gives its names a value. If memory runs out, some of them are recorded.
    #[inline(always)]
    #[tactic(auto, using(crate::proofs::FlatLaws::no_names_stand))]
    pub(crate) fn note(
        &self,
        index: &mut Index,
        alloc: Global,
        place: usize,
    ) -> Result<(), AllocError>
        ensures noted { OnOk result (Noted (λ q. is_some (own (layer_of self.now) q)) place index.old.places index.new.places) }
        ensures partly { PartlyNoted (λ q. is_some (own (layer_of self.now) q)) place index.old.places index.new.places }
    {
        match self {
            Link::None => Ok(()),
            Link::Stack(data, _) | Link::Global(data) | Link::Sandboxed(data, _, _) => {
                index.note_all(alloc, data, place)
            }
            Link::Loop(frame) => note_loop(index, alloc, &**frame, place),
            Link::Isolated(data, assigned, _, _) => {
                note_both(index, alloc, data, assigned, place)
            }
        }
    }

    /// Records that the frame at this place no longer gives any of its names a value.
    #[inline(always)]
    #[tactic(auto, using(crate::proofs::FlatLaws::no_names_stand))]
    pub(crate) fn forget(&self, index: &mut Index, place: usize)
        ensures { Forgotten (λ q. is_some (own (layer_of self.now) q)) place index.old.places index.new.places }
    {
        match self {
            Link::None => {}
            Link::Stack(data, _) | Link::Global(data) | Link::Sandboxed(data, _, _) => {
                index.forget_all(data, place);
            }
            Link::Loop(frame) => forget_loop(index, &**frame, place),
            Link::Isolated(data, assigned, _, _) => forget_both(index, data, assigned, place),
        }
    }

    /// Removes this place from the name's places in the index, unless the frame gives the name a value.
    pub(crate) fn forget_absent(&self, index: &mut Index, name: &str, place: usize)
        ensures { Forgotten (λ q. bytes_eq name.now q && is_none (own (layer_of self.now) name.now))
            place index.old.places index.new.places }
    {
        if !self.gives(name) {
            index.forget(name, place);
        }
    }

    fn gives(&self, name: &str) -> bool
        ensures { result ≡ is_some (own (layer_of self.now) name.now) }
    {
        match self {
            Link::None => false,
            Link::Stack(data, _) | Link::Global(data) | Link::Sandboxed(data, _, _) => {
                value_of(data, name).is_some()
            }
            Link::Loop(frame) => frame.look(name).is_some(),
            Link::Isolated(data, assigned, _, _) => first_value(assigned, data, name).is_some(),
        }
    }

    pub(crate) fn is_sandboxed(&self) -> bool
        ensures { result ≡ is_sandboxed (layer_of self.now) }
    {
        match self {
            Link::None => false,
            Link::Stack(_, _) => false,
            Link::Loop(_) => false,
            Link::Global(_) => false,
            Link::Sandboxed(_, _, _) | Link::Isolated(_, _, _, _) => true,
        }
    }

    pub(crate) fn is_global(&self) -> bool
        ensures { result ≡ is_global (layer_of self.now) }
    {
        match self {
            Link::None => false,
            Link::Stack(_, _) => false,
            Link::Loop(_) => false,
            Link::Global(_) | Link::Isolated(_, _, _, _) => true,
            Link::Sandboxed(_, _, _) => false,
        }
    }

    pub(crate) fn assign(&mut self, name: String, value: Value) -> Result<Option<Value>, Error>
        requires { is_global (layer_of self.old) ≡ true }
        ensures old { IfOk result (λ old. option_map tree_of old ≡ get (assigned (layer_of self.old)) (string_bytes name)) }
        ensures sets { OnOk result (layer_of self.new
            ≡ assigning (insert (assigned (layer_of self.old)) (string_bytes name) (tree_of value)) (layer_of self.old)) }
        ensures err { IfErr result (λ e. told e ≡ None) }
        ensures unchanged { OnErr result (layer_of self.new ≡ layer_of self.old) }
    {
        match self {
            Link::Global(assigned) => set_name(assigned, name, value),
            Link::Isolated(_, assigned, _, _) => set_name(assigned, name, value),
            _ => Err(Error::Memory),
        }
    }
}

/// Returns the names of both objects.
fn both_names(
    alloc: Global,
    names: &Object,
    assigned: &Object,
) -> Result<BTreeSet<String>, AllocError>
    ensures { IfOk result (λ all. NamesOf (over (names_of assigned.now) (names_of names.now)) all) }
{
    add_names(assigned, only_names(alloc, names)?)
}

/// Returns the value that a name has in the first object, otherwise in the second.
fn first_value<'a>(first: &'a Object, second: &'a Object, name: &str) -> Option<&'a Value>
    ensures { option_map (λ r. tree_of r.now) result ≡ option_or (get (names_of first.now) name.now) (get (names_of second.now) name.now) }
{
    match value_of(first, name) {
        Some(value) => Some(value),
        None => value_of(second, name),
    }
}

/// Returns what a name has in the first object, otherwise in the second, as it is found.
fn first_seen<'a>(first: &'a Object, second: &'a Object, name: &str) -> Option<Seen<'a>>
    ensures { option_map seen_tree result ≡ option_or (get (names_of first.now) name.now) (get (names_of second.now) name.now) }
{
    match first_value(first, second, name) {
        Some(value) => Some(Seen::Lent(value)),
        None => None,
    }
}

/// Records that the frame of a loop gives its two names a value. If memory runs out, one of them may be recorded.
fn note_loop(
    index: &mut Index,
    alloc: Global,
    frame: &LoopFrame,
    place: usize,
) -> Result<(), AllocError>
    ensures noted { OnOk result (Noted (λ q. is_some (get (loop_names frame.now) q)) place index.old.places index.new.places) }
    ensures partly { PartlyNoted (λ q. is_some (get (loop_names frame.now) q)) place index.old.places index.new.places }
{
    index.note(alloc, "forloop", place)?;
    index.note(alloc, frame.own_name(), place)
}

/// Records that the frame of a loop no longer gives its two names a value.
pub(crate) fn forget_loop(index: &mut Index, frame: &LoopFrame, place: usize)
    ensures { Forgotten (λ q. is_some (get (loop_names frame.now) q)) place index.old.places index.new.places }
{
    index.forget("forloop", place);
    index.forget(frame.own_name(), place);
}

/// Records that the frame at this place gives the names of both objects a value. If memory runs out, some of them are
/// recorded.
fn note_both(
    index: &mut Index,
    alloc: Global,
    names: &Object,
    assigned: &Object,
    place: usize,
) -> Result<(), AllocError>
    ensures noted { OnOk result (Noted (λ q. is_some (option_or (get (names_of assigned.now) q) (get (names_of names.now) q)))
        place index.old.places index.new.places) }
    ensures partly { PartlyNoted (λ q. is_some (option_or (get (names_of assigned.now) q) (get (names_of names.now) q)))
        place index.old.places index.new.places }
{
    index.note_all(alloc, names, place)?;
    index.note_all(alloc, assigned, place)
}

/// Records that the frame at this place no longer gives the names of both objects a value.
fn forget_both(index: &mut Index, names: &Object, assigned: &Object, place: usize)
    ensures { Forgotten (λ q. is_some (option_or (get (names_of assigned.now) q) (get (names_of names.now) q)))
        place index.old.places index.new.places }
{
    index.forget_all(names, place);
    index.forget_all(assigned, place);
}

fn has_names(names: &Object) -> bool
    ensures { result ≡ false → (q : List ℕ) → get (names_of names.now) q ≡ None }
{
    !names.is_empty()
}

/// Returns the link of a frame that begins over the base. A sandboxed or isolated one takes the base's registers into
/// the link.
#[inline(always)]
#[tactic(auto, using(liquid_runtime::proofs::Objects::changed_objects))]
pub(crate) fn opening<R: Runtime>(alloc: Global, base: &mut R, frame: Frame) -> Link<R::Register>
    ensures registers { R.view base.new ≡ with_registers (registers_of (R.view base.new)) (R.view base.old) }
    ensures begins { (v : View R.Register.Shape) → registers_of v ≡ registers_of (R.view base.old)
        → layer_view (layer_of result) (with_registers (registers_of (R.view base.new)) v) ≡ beginning R.Register.fresh (frame_of frame) v }
    ensures restores { (v : View R.Register.Shape) → registers_of v ≡ registers_of (R.view base.old)
        → layer_restores R.Register.shape (layer_of result) (with_registers (registers_of (R.view base.new)) v)
        ≡ restored_by (frame_of frame) v }
    ensures store { R.store base.new ≡ R.store base.old }
    ensures owes { R.restores base.new ≡ R.restores base.old }
    ensures borrows { R.lent base.new ≡ R.lent base.old }
{
    match frame {
        Frame::None => Link::None,
        Frame::Stack(d, n) => Link::Stack(d, n),
        Frame::Loop(frame) => Link::Loop(frame),
        Frame::Global => Link::Global(Object::new(alloc)),
        Frame::Sandboxed(d, n) => {
            let saved = mem::replace(base.registers_mut(), Registers::default());
            Link::Sandboxed(d, n, saved)
        }
        Frame::Isolated(d, n) => {
            let saved = mem::replace(base.registers_mut(), Registers::default());
            Link::Isolated(d, Object::new(alloc), n, saved)
        }
    }
}

/// Gives back to the base what a link's frame gives back when it ends, and returns the frame of a loop.
#[inline(always)]
pub(crate) fn closing<R: Runtime>(base: &mut R, link: Link<R::Register>) -> Option<Box<LoopFrame>>
    ensures registers { R.view base.new ≡ with_registers (registers_of (R.view base.new)) (R.view base.old) }
    ensures ends { (v : View R.Register.Shape) → registers_of v ≡ registers_of (R.view base.old)
        → with_registers (registers_of (R.view base.new)) v ≡ ending (layer_restores R.Register.shape (layer_of link) v)
        (layer_view (layer_of link) v) }
    ensures store { R.store base.new ≡ R.store base.old }
    ensures owes { R.restores base.new ≡ R.restores base.old }
    ensures borrows { R.lent base.new ≡ R.lent base.old }
{
    match link {
        Link::None => None,
        Link::Stack(_names, _name) => None,
        Link::Loop(frame) => Some(frame),
        Link::Global(_assigned) => None,
        Link::Sandboxed(_names, _name, saved) => {
            *base.registers_mut() = saved;
            None
        }
        Link::Isolated(_names, _assigned, _name, saved) => {
            *base.registers_mut() = saved;
            None
        }
    }
}
