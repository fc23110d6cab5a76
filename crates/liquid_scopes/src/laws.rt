//! The law of both forms of scopes, as the contract of a function.
ghost use Rattle.liquid_scopes.specs.meaning.Histories.{SameAnswers};

use crate::chained_scopes::ChainedScopes;
use crate::flat_scopes::FlatScopes;
use liquid_runtime::Runtime;

/// Any list of calls has the same results on chained scopes as on flat ones that show and restore the same, and leaves
/// scopes that show and restore the same after each call.
///
/// The calls are those that found memory: pushes, pops, set calls and lookups.
#[tactic(auto, using(crate::proofs::Alike::same_answers))]
pub fn chained_and_flat_scopes_answer_alike<R: Runtime>()
    ensures { SameAnswers R.Register.fresh ⟦<ChainedScopes<R> as Runtime>⟧.view ⟦<ChainedScopes<R> as Runtime>⟧.restores
        ⟦<FlatScopes<R> as Runtime>⟧.view ⟦<FlatScopes<R> as Runtime>⟧.restores }
{}
