//! Starting a node.
ghost use Rattle.std.specs.Prelude.{◌≡◌, IsOk, option_map};
ghost use Rattle.liquid_runtime.specs.meaning.Written.{SameFrames};
ghost use Rattle.liquid_template.specs.steps.NodeTurns.{Begins};

use liquid_error::Error;
use liquid_plugins::Renderable;
use liquid_runtime::Scopes;
use std::alloc::Global;

/// What is kept of a node between its turns: its progress, the trace of the turn that is being rendered, the text that
/// was open before, while a part is captured, and the name of the partial that was rendered last.
#[derive(Drop)]
pub(crate) struct Going<P> {
    pub(crate) progress: P,
    pub(crate) trace: Option<String>,
    pub(crate) outer: Option<String>,
    pub(crate) partial: Option<String>,
}

/// Starts a node. On an error, `answer` is that error and nothing is kept.
#[inline(never)]
pub(crate) fn start_node<N, S>(
    alloc: Global,
    node: &N,
    scopes: &mut S,
    answer: &mut Result<(), Error>,
) -> Option<Going<N::Progress>>
where
    S: Scopes,
    N: Renderable<S::Register>,
    requires { IsOk answer.old }
    ensures begins { Begins N.means (N.shape node.now) (S.view scopes.old) (S.view scopes.new) answer.new
        (option_map (λ going. N.Progress.shape going.progress) result) }
    ensures frames { SameFrames (S.view scopes.old) (S.view scopes.new) }
    ensures owes { S.restores scopes.new ≡ S.restores scopes.old }
    ensures store { S.store scopes.new ≡ S.store scopes.old }
    ensures borrows { S.lent scopes.new ≡ S.lent scopes.old }
{
    begin_node(alloc, node, scopes, answer)
}

/// Starts a node, as `start_node` does, in the place of its call.
#[inline(always)]
fn begin_node<N, S>(
    alloc: Global,
    node: &N,
    scopes: &mut S,
    answer: &mut Result<(), Error>,
) -> Option<Going<N::Progress>>
where
    S: Scopes,
    N: Renderable<S::Register>,
    requires { IsOk answer.old }
    ensures begins { Begins N.means (N.shape node.now) (S.view scopes.old) (S.view scopes.new) answer.new
        (option_map (λ going. N.Progress.shape going.progress) result) }
    ensures frames { SameFrames (S.view scopes.old) (S.view scopes.new) }
    ensures owes { S.restores scopes.new ≡ S.restores scopes.old }
    ensures store { S.store scopes.new ≡ S.store scopes.old }
    ensures borrows { S.lent scopes.new ≡ S.lent scopes.old }
{
    match node.start(alloc, scopes) {
        Ok(progress) => Some(Going {
            progress,
            trace: None,
            outer: None,
            partial: None,
        }),
        Err(error) => {
            *answer = Err(error);
            None
        }
    }
}

/// Starts a node, and keeps its state in a box, so that the caller's stack holds no more than a pointer.
#[inline(never)]
pub(crate) fn start_boxed<N, S>(
    alloc: Global,
    node: &N,
    scopes: &mut S,
    answer: &mut Result<(), Error>,
) -> Option<Box<Going<N::Progress>>>
where
    S: Scopes,
    N: Renderable<S::Register>,
    requires { IsOk answer.old }
    ensures begins { Begins N.means (N.shape node.now) (S.view scopes.old) (S.view scopes.new) answer.new
        (option_map (λ going. N.Progress.shape going.value.progress) result) }
    ensures frames { SameFrames (S.view scopes.old) (S.view scopes.new) }
    ensures owes { S.restores scopes.new ≡ S.restores scopes.old }
    ensures store { S.store scopes.new ≡ S.store scopes.old }
    ensures borrows { S.lent scopes.new ≡ S.lent scopes.old }
{
    let going = begin_node(alloc, node, scopes, answer)?;
    match Box::new(alloc, going) {
        Ok(going) => Some(going),
        Err(_) => {
            *answer = Err(Error::Memory);
            None
        }
    }
}

/// Drops what was kept of a node.
#[inline(never)]
pub(crate) fn drop_going<P: Drop>(going: Box<Going<P>>) {
    drop(going);
}
