//! Taking a turn, and opening what it renders.
ghost use Rattle.std.specs.Prelude.{◌≡◌, ◌<◌, ◌≤◌, IsOk, IfOk, IfSome};
ghost use Rattle.liquid_runtime.specs.meaning.Calls.{frame_of};
ghost use Rattle.liquid_plugins.specs.meaning.Size.{size_nodes};
ghost use Rattle.liquid_template.specs.meaning.OfTypes.{setting_of};
ghost use Rattle.liquid_template.specs.meaning.Opens.{OpensNone};
ghost use Rattle.liquid_template.specs.meaning.Partials.{partials_of};
ghost use Rattle.liquid_template.specs.meaning.TemplateOf.{template_nodes};
ghost use Rattle.liquid_template.specs.steps.Bound.{partials_size};
ghost use Rattle.liquid_template.specs.steps.Going.{Small, Finds, FrameBegins};
ghost use Rattle.liquid_template.specs.steps.Keeps.{Keeps};
ghost use Rattle.liquid_template.specs.steps.OfNodes.{PartialOut, TurnOut};
ghost use Rattle.liquid_template.specs.steps.Place.{around, text_of};

use crate::outlet::{Out, stopped_error};
use crate::partial::{find, too_deep_error};
use crate::start::Going;
use crate::store::PartialStore;
use crate::template::Template;
use crate::trace::{keep_trace, refuse, with_own_trace, within_partial};
use liquid_error::Error;
use liquid_plugins::{Filter, Renderable, Turn};
use liquid_runtime::{Frame, Scopes};
use std::alloc::Global;
use std::rc::Rc;

/// What a turn renders.
pub(crate) enum Step<X, T, B> {
    /// The node has ended, or had an error.
    Stop,
    /// Nothing more: the next turn follows.
    Next,
    /// This part, under the frame that was pushed.
    Part(u64),
    /// This part, under the frame that was pushed, into a text of its own.
    Captured(u64),
    /// This partial, under the frame that was pushed.
    Partial(Rc<Template<X, T, B>>),
}

/// Takes a turn, if the gate lets it pass: writes its text, or pushes its frame and keeps its trace.
#[inline(never)]
pub(crate) fn take_turn<X, T, B, N, S, O>(
    alloc: Global,
    node: &N,
    going: &mut Going<N::Progress>,
    depth: u32,
    out: &mut O,
    scopes: &mut S,
    answer: &mut Result<(), Error>,
) -> Step<X, T, B>
where
    X: Filter,
    S: Scopes,
    T: Renderable<S::Register>,
    B: Renderable<S::Register>,
    N: Renderable<S::Register>,
    S::Store: PartialStore<X, T, B>,
    O: Out,
    requires { IsOk answer.old }
    ensures turned { TurnOut S.Register.fresh X.Filter T.Renderable B.Renderable S.Store.finds
        S.store S.view S.restores O.place N.Renderable N.Progress.shape depth node.now going.old going.new
        scopes.old scopes.new out.old out.new answer.new result }
    ensures around { around (O.place out.new) ≡ around (O.place out.old) }
    ensures small { Small X.shape T.shape B.shape depth (partials_size (partials_of S.Store.finds (S.store scopes.old))) result }
    ensures keeps { Keeps (OpensNone N.means) S.store S.lent S.Store.finds depth scopes.old scopes.new }
{
    if !out.pass_turn() {
        refuse(answer, stopped_error(alloc));
        return Step::Stop;
    }
    let kept = &mut going.trace;
    let partial = &mut going.partial;
    match node.turn(alloc, &mut going.progress, scopes) {
        Err(error) => {
            refuse(answer, error);
            Step::Stop
        }
        Ok(Turn::End) => Step::Stop,
        Ok(Turn::Text(text)) => {
            out.put(alloc, text.as_str(), answer);
            match answer {
                Ok(()) => Step::Next,
                Err(_) => Step::Stop,
            }
        }
        Ok(Turn::Body(place, frame, trace)) => match begin(frame, trace, kept, scopes, answer) {
            true => Step::Part(place),
            false => Step::Stop,
        },
        Ok(Turn::Capture(place, frame, trace)) => match begin(frame, trace, kept, scopes, answer) {
            true => Step::Captured(place),
            false => Step::Stop,
        },
        Ok(Turn::Partial(name, frame, trace)) => {
            match open_partial(alloc, &name, frame, trace, kept, depth, scopes, answer) {
                Some(template) => {
                    *partial = Some(name);
                    Step::Partial(template)
                }
                None => Step::Stop,
            }
        }
    }
}

/// Begins the frame of a part, keeps the part's trace, and returns true. Out of memory, it returns false: `answer` is
/// the error, and no frame has begun.
#[inline(always)]
fn begin<S>(
    frame: Frame,
    trace: Option<String>,
    kept: &mut Option<String>,
    scopes: &mut S,
    answer: &mut Result<(), Error>,
) -> bool
where
    S: Scopes,
    requires { IsOk answer.old }
    ensures begins { FrameBegins S.Register.fresh (frame_of frame) (text_of trace)
        (S.view scopes.old) (S.view scopes.new) (S.restores scopes.old) (S.restores scopes.new)
        answer.new (text_of kept.new) result }
    ensures store { S.store scopes.new ≡ S.store scopes.old }
    ensures borrows { S.lent scopes.new ≡ S.lent scopes.old }
{
    match scopes.push(frame) {
        Ok(()) => {
            keep_trace(kept, trace);
            true
        }
        Err(error) => {
            refuse(answer, error);
            false
        }
    }
}

/// Opens a partial under its frame and keeps its trace. On an error, `answer` is that error and the frame has ended.
#[inline(always)]
fn open_partial<X, T, B, S>(
    alloc: Global,
    name: &str,
    frame: Frame,
    trace: Option<String>,
    kept: &mut Option<String>,
    depth: u32,
    scopes: &mut S,
    answer: &mut Result<(), Error>,
) -> Option<Rc<Template<X, T, B>>>
where
    X: Filter,
    S: Scopes,
    T: Renderable<S::Register>,
    B: Renderable<S::Register>,
    S::Store: PartialStore<X, T, B>,
    requires { IsOk answer.old }
    ensures opens { PartialOut S.Register.fresh X.Filter T.Renderable B.Renderable S.Store.finds (S.store scopes.old) depth
        S.view S.restores name.now (frame_of frame) trace scopes.old scopes.new answer.new kept.new result }
    ensures small { IfSome result (λ template. (0 < depth) × (size_nodes (template_nodes X.shape T.shape B.shape template.value)
        ≤ partials_size (partials_of S.Store.finds (S.store scopes.old)))) }
    ensures keeps { Keeps ⊥ S.store S.lent S.Store.finds depth scopes.old scopes.new }
{
    match scopes.push(frame) {
        Ok(()) => {}
        Err(error) => {
            refuse(answer, error);
            return None;
        }
    }
    match find_within_depth(alloc, name, depth, scopes) {
        Ok(template) => {
            keep_trace(kept, trace);
            Some(template)
        }
        Err(error) => {
            scopes.pop();
            *answer = with_own_trace(alloc, Err(error), trace);
            None
        }
    }
}

/// Finds a partial, if one more may be nested.
#[inline(always)]
fn find_within_depth<X, T, B, S>(
    alloc: Global,
    name: &str,
    depth: u32,
    scopes: &mut S,
) -> Result<Rc<Template<X, T, B>>, Error>
where
    X: Filter,
    S: Scopes,
    T: Renderable<S::Register>,
    B: Renderable<S::Register>,
    S::Store: PartialStore<X, T, B>,
    ensures finds { Finds
        (setting_of S.Register.fresh X.Filter T.Renderable B.Renderable S.Store.finds (S.store scopes.old))
        depth (λ template. template_nodes X.shape T.shape B.shape template.value) name.now result }
    ensures small { IfOk result (λ template. size_nodes (template_nodes X.shape T.shape B.shape template.value)
        ≤ partials_size (partials_of S.Store.finds (S.store scopes.old))) }
    ensures view { S.view scopes.new ≡ S.view scopes.old }
    ensures owes { S.restores scopes.new ≡ S.restores scopes.old }
    ensures keeps { Keeps ⊥ S.store S.lent S.Store.finds depth scopes.old scopes.new }
{
    if depth == 0 {
        return Err(too_deep_error(alloc));
    }
    within_partial(alloc, find(alloc, name, scopes), name)
}
