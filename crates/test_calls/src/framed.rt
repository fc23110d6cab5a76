//! Calls under a frame, over both forms of scopes.
ghost use Rattle.std.specs.Prelude.{◌≡◌};

use crate::histories::{pop, push};
use crate::numbers::numbers;
use liquid_runtime::{BuiltRuntime, Frame, RuntimeBuilder, Scopes};
use liquid_scopes::{ChainedScopes, FlatScopes};
use std::alloc::{AllocError, Global};

pub(crate) type Base = BuiltRuntime<(), ()>;

/// Returns a runtime with globals that are numbers.
pub(crate) fn build_base(
    alloc: Global,
    globals: &[(&'static str, i64)],
    lenient: bool,
) -> Result<Base, AllocError> {
    Ok(
        RuntimeBuilder::new(alloc)
            .set_globals(numbers(alloc, globals)?)
            .set_lenient(lenient)
            .build(),
    )
}

/// Calls on scopes that leave the frames as they were.
pub(crate) trait Body {
    /// Returns `true` if the calls have the expected results.
    fn holds<S: Scopes>(&self, alloc: Global, scopes: &mut S) -> bool
        ensures { S.restores scopes.new ≡ S.restores scopes.old };
}

/// Returns `true` if a body holds under a frame.
#[tactic(auto, using(crate::proofs::Pushed::pushed))]
fn holds_under<S: Scopes, B: Body>(alloc: Global, scopes: &mut S, frame: Frame, body: &B) -> bool
    ensures { S.restores scopes.new ≡ S.restores scopes.old }
{
    match push(scopes, frame) {
        Ok(()) => {
            let is_so = body.holds(alloc, scopes);
            pop(scopes);
            is_so
        }
        Err(_) => false,
    }
}

/// Returns `true` if a frame was made, and a body holds under it.
pub(crate) fn holds_if_made<S: Scopes, B: Body>(
    alloc: Global,
    scopes: &mut S,
    frame: Option<Frame>,
    body: &B,
) -> bool
    ensures { S.restores scopes.new ≡ S.restores scopes.old }
{
    match frame {
        Some(frame) => holds_under(alloc, scopes, frame, body),
        None => false,
    }
}

/// Returns `true` if a body holds over scopes of one form.
fn holds_over<S: Scopes, B: Body>(alloc: Global, base: S::Base, body: &B) -> bool
where
    S::Base: Drop,
{
    let mut scopes = S::new(alloc, base);
    let is_so = body.holds(alloc, &mut scopes);
    let _base = scopes.into_base();
    is_so
}

/// Returns `true` if a body holds over chained scopes. No other function names these scopes with their base:
/// each that does is checked against all that they promise.
fn is_chained<B: Body>(alloc: Global, base: Result<Base, AllocError>, body: &B) -> bool {
    match base {
        Ok(base) => holds_over::<ChainedScopes<Base>, B>(alloc, base, body),
        Err(_) => false,
    }
}

/// Returns `true` if a body holds over flat scopes, which no other function names with their base.
fn is_flat<B: Body>(alloc: Global, base: Result<Base, AllocError>, body: &B) -> bool {
    match base {
        Ok(base) => holds_over::<FlatScopes<Base>, B>(alloc, base, body),
        Err(_) => false,
    }
}

/// Returns `true` if a body holds over scopes of both forms, each over a runtime with these globals.
pub(crate) fn holds_over_both<B: Body>(
    alloc: Global,
    globals: &[(&'static str, i64)],
    lenient: bool,
    body: &B,
) -> bool {
    is_chained(alloc, build_base(alloc, globals, lenient), body)
        && is_flat(alloc, build_base(alloc, globals, lenient), body)
}
