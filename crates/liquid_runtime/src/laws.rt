//! The laws of names and frames, each as the contract of a function. `V` is the type of the register.
ghost use Rattle.liquid_runtime.specs.laws.Laws.{
  GetAgrees,
  GlobalFrameKeepsNames,
  GlobalsAreSeen,
  IsolatedEndsBoth,
  IsolatedFrameShowsAssigned,
  IsolatedFrameShowsItsNames,
  IsolatedKeepsOutside,
  LeftNamesFirst,
  LenientGetAgrees,
  RootsAreSeen,
  SetGlobalKeepsOthers,
  SetIndexKeepsOthers,
  StackNamesFirst,
};

use crate::registers::Fresh;

/// Of two maps of names laid over one another, the left one comes first.
#[tactic(auto, using(crate::proofs::SetLaws::laws))]
pub fn left_names_first()
    ensures { LeftNamesFirst }
{}

/// If names are strict, `get` returns a value exactly if `try_get` does, and then the same one.
#[tactic(auto, using(crate::proofs::SetLaws::laws))]
pub fn get_agrees_with_try_get<V: Fresh>()
    ensures { GetAgrees V.Shape }
{}

/// If names are lenient, `get` returns the value of `try_get`, or nil if that returns none.
#[tactic(auto, using(crate::proofs::SetLaws::laws))]
pub fn lenient_get_agrees_with_try_get<V: Fresh>()
    ensures { LenientGetAgrees V.Shape }
{}

/// A path of one text leads to a value exactly if that text is among the names that `Runtime::roots` returns.
#[tactic(auto, using(crate::proofs::SetLaws::laws))]
pub fn roots_are_the_names_seen<V: Fresh>()
    ensures { RootsAreSeen V.Shape }
{}

/// Setting a global changes no other name, and no index variable.
#[tactic(auto, using(crate::proofs::SetLaws::laws))]
pub fn set_global_changes_no_other_name<V: Fresh>()
    ensures { SetGlobalKeepsOthers V.Shape }
{}

/// Setting an index variable changes no other name, and no global.
#[tactic(auto, using(crate::proofs::SetLaws::laws))]
pub fn set_index_changes_no_other_name<V: Fresh>()
    ensures { SetIndexKeepsOthers V.Shape }
{}

/// In a stack frame a name has its value in the frame's data, otherwise the value that it has below.
#[tactic(auto, using(crate::proofs::SetLaws::laws))]
pub fn stack_names_first<V: Fresh>()
    ensures { StackNamesFirst V.Shape }
{}

/// A new global frame hides no name and adds none.
#[tactic(auto, using(crate::proofs::SetLaws::laws))]
pub fn global_frame_keeps_names<V: Fresh>()
    ensures { GlobalFrameKeepsNames V.Shape }
{}

/// An isolated frame shows the names that it began with, and what is assigned in it, and no other name.
pub fn isolated_frames_show_their_names<V: Fresh>()
    ensures begun { IsolatedFrameShowsItsNames V.Shape }
    ensures assigned { IsolatedFrameShowsAssigned V.Shape }
{}

/// An isolated frame ends as a global frame inside a sandboxed one does. In the view below it, only index variables may
/// have changed.
#[tactic(auto, using(crate::proofs::SetLaws::laws))]
pub fn isolated_frames_end_with_their_names<V: Fresh>()
    ensures both { IsolatedEndsBoth V.Shape }
    ensures kept { IsolatedKeepsOutside V.Shape }
{}

/// A built runtime has the caller's globals and no other name.
pub fn globals_are_seen<V: Fresh>()
    ensures { GlobalsAreSeen V.Shape }
{}
