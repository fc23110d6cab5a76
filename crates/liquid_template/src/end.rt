//! Opening a text for a turn, and ending what a turn has opened.
ghost use Rattle.std.specs.Prelude.{◌≡◌, ◌<◌, true, [], Some, IfSome, IsSome, is_ok, length, option_map, string_bytes};
ghost use Rattle.liquid_error.specs.meaning.Helpers.{ErrBecomes};
ghost use Rattle.liquid_runtime.specs.meaning.OpenFrames.{opened, EndsFirst};
ghost use Rattle.liquid_template.specs.meaning.Actions.{refused_through};
ghost use Rattle.liquid_template.specs.steps.Place.{Swapped, text_of};

use crate::outlet::Out;
use crate::start::Going;
use crate::template::Template;
use crate::trace::{with_own_trace, within_partial};
use liquid_error::Error;
use liquid_plugins::Renderable;
use liquid_runtime::Scopes;
use std::alloc::Global;
use std::mem;
use std::rc::Rc;

/// Opens an empty text for a part that is captured, and keeps the text that was open.
#[inline(never)]
pub(crate) fn open_text<P, O: Out>(alloc: Global, going: &mut Going<P>, out: &mut O)
    ensures outer { text_of going.new.outer ≡ (O.place out.old).text }
    ensures opened { Swapped (O.place out.old) (Some []) (O.place out.new) }
    ensures progress { going.new.progress ≡ going.old.progress }
    ensures trace { going.new.trace ≡ going.old.trace }
{
    going.outer = out.open(alloc);
}

/// Ends the last frame, if one is open, and gives the node back that of a loop, puts the turn's trace on an error, and
/// returns whether there is none.
#[inline(never)]
pub(crate) fn end_turn<N, S>(
    alloc: Global,
    node: &N,
    going: &mut Going<N::Progress>,
    scopes: &mut S,
    answer: &mut Result<(), Error>,
) -> bool
where
    S: Scopes,
    N: Renderable<S::Register>,
    ensures ends { 0 < length (opened (S.restores scopes.old))
        → EndsFirst (S.restores scopes.old) (S.view scopes.old) (S.restores scopes.new) (S.view scopes.new) }
    ensures traced { ErrBecomes (refused_through (option_map (λ s. string_bytes s) going.old.trace)) answer.old answer.new }
    ensures goes_on { result ≡ is_ok answer.new }
    ensures progress { N.Progress.shape going.new.progress ≡ N.Progress.shape going.old.progress }
    ensures store { S.store scopes.new ≡ S.store scopes.old }
    ensures borrows { S.lent scopes.new ≡ S.lent scopes.old }
{
    if scopes.frames() > 0 {
        if let Some(frame) = scopes.pop_loop() {
            node.recycle(&mut going.progress, frame);
        }
    }
    match answer {
        Ok(()) => true,
        Err(_) => {
            add_trace(alloc, going, answer);
            false
        }
    }
}

/// Puts the turn's trace on an error. It is a function of its own, since the locals of a function are cleared even if
/// there is no error.
#[inline(never)]
fn add_trace<P>(alloc: Global, going: &mut Going<P>, answer: &mut Result<(), Error>)
    ensures traced { ErrBecomes (refused_through (option_map (λ s. string_bytes s) going.old.trace)) answer.old answer.new }
    ensures same { is_ok answer.new ≡ is_ok answer.old }
    ensures progress { going.new.progress ≡ going.old.progress }
{
    let given = mem::replace(answer, Ok(()));
    let trace = mem::replace(&mut going.trace, None);
    *answer = with_own_trace(alloc, given, trace);
}

/// Ends a turn whose partial was rendered, as `end_turn` does. An error in the partial gets the partial's name.
#[inline(never)]
pub(crate) fn end_partial<N, S>(
    alloc: Global,
    node: &N,
    going: &mut Going<N::Progress>,
    scopes: &mut S,
    answer: &mut Result<(), Error>,
) -> bool
where
    S: Scopes,
    N: Renderable<S::Register>,
    ensures ends { 0 < length (opened (S.restores scopes.old))
        → EndsFirst (S.restores scopes.old) (S.view scopes.old) (S.restores scopes.new) (S.view scopes.new) }
    ensures traced { ErrBecomes (refused_through (option_map (λ s. string_bytes s) going.old.trace)) answer.old answer.new }
    ensures goes_on { result ≡ is_ok answer.new }
    ensures progress { N.Progress.shape going.new.progress ≡ N.Progress.shape going.old.progress }
    ensures store { S.store scopes.new ≡ S.store scopes.old }
    ensures borrows { S.lent scopes.new ≡ S.lent scopes.old }
{
    match answer {
        Ok(()) => {}
        Err(_) => add_partial(alloc, going, answer),
    }
    end_turn(alloc, node, going, scopes, answer)
}

/// Puts the partial's name on an error.
#[inline(never)]
fn add_partial<P>(alloc: Global, going: &mut Going<P>, answer: &mut Result<(), Error>)
    ensures same { ErrBecomes (λ r. r) answer.old answer.new }
    ensures progress { going.new.progress ≡ going.old.progress }
    ensures trace { going.new.trace ≡ going.old.trace }
{
    if let Some(partial) = mem::replace(&mut going.partial, None) {
        let given = mem::replace(answer, Ok(()));
        *answer = within_partial(alloc, given, partial.as_str());
    }
}

/// Ends a turn whose part was captured, as `end_turn` does. The text is closed, and is given to the node if there is no
/// error.
#[inline(never)]
pub(crate) fn end_captured<N, S, O>(
    alloc: Global,
    node: &N,
    going: &mut Going<N::Progress>,
    out: &mut O,
    scopes: &mut S,
    answer: &mut Result<(), Error>,
) -> bool
where
    S: Scopes,
    N: Renderable<S::Register>,
    O: Out,
    requires frame { 0 < length (opened (S.restores scopes.old)) }
    requires text { IsSome (O.place out.old).text }
    ensures ends { EndsFirst (S.restores scopes.old) (S.view scopes.old) (S.restores scopes.new) (S.view scopes.new) }
    ensures traced { ErrBecomes (refused_through (option_map (λ s. string_bytes s) going.old.trace)) answer.old answer.new }
    ensures goes_on { result ≡ is_ok answer.new }
    ensures closed { Swapped (O.place out.old) (text_of going.old.outer) (O.place out.new) }
    ensures caught { result ≡ true → IfSome (O.place out.old).text (λ text. N.Progress.shape going.new.progress
        ≡ N.means.catches (N.shape node.now) (N.Progress.shape going.old.progress) text) }
    ensures store { S.store scopes.new ≡ S.store scopes.old }
    ensures borrows { S.lent scopes.new ≡ S.lent scopes.old }
{
    let outer = mem::replace(&mut going.outer, None);
    let text = out.close(outer);
    let goes_on = end_turn(alloc, node, going, scopes, answer);
    if goes_on {
        node.caught(&mut going.progress, text);
    }
    goes_on
}

/// Drops a partial.
#[inline(never)]
pub(crate) fn drop_partial<X: Drop, T: Drop, B: Drop>(template: Rc<Template<X, T, B>>) {
    drop(template);
}
