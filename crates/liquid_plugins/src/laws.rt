//! The laws of expressions, each as the contract of a function.
ghost use Rattle.liquid_plugins.specs.laws.Laws.{EvaluateAgrees, EvaluateGives, EvaluatesErased};
ghost use Rattle.liquid_plugins.specs.laws.Laws.{LenientEvaluateAgrees, PathsAgree, PathsGive};

use liquid_runtime::Fresh;

/// If names are strict, `evaluate` of an expression returns a value exactly if `try_evaluate` has one, and then the
/// same one.
#[tactic(auto, using(crate::proofs::Agreement::evaluate_agrees))]
pub fn evaluate_agrees_with_try_evaluate<V: Fresh>()
    ensures { EvaluateAgrees V.Shape }
{}

/// Whether names are strict or lenient, `evaluate` of an expression returns the value of `try_evaluate` if that has
/// one.
#[tactic(auto, using(crate::proofs::Agreement::evaluate_gives))]
pub fn evaluate_gives_what_is_tried<V: Fresh>()
    ensures { EvaluateGives V.Shape }
{}

/// If indexes are lenient, `evaluate` of an expression returns the value of `try_evaluate`, or nil if that returns none.
#[tactic(auto, using(crate::proofs::Agreement::lenient_evaluate_agrees))]
pub fn lenient_evaluate_agrees_with_try_evaluate<V: Fresh>()
    ensures { LenientEvaluateAgrees V.Shape }
{}

/// If names are strict, `evaluate` of a variable returns a path exactly if `try_evaluate` has one, and then the same
/// one.
#[tactic(auto, using(crate::proofs::Agreement::paths_agree))]
pub fn paths_agree_with_tried_paths<V: Fresh>()
    ensures { PathsAgree V.Shape }
{}

/// Whether names are strict or lenient, `evaluate` of a variable returns the path of `try_evaluate` if that has one.
#[tactic(auto, using(crate::proofs::Agreement::paths_give))]
pub fn variables_give_tried_paths<V: Fresh>()
    ensures { PathsGive V.Shape }
{}

/// An expression has the same result with the names that a filter sees as with all of them.
#[tactic(auto, using(crate::proofs::ErasedLemmas::evaluate_erased))]
pub fn filters_see_enough<V: Fresh>()
    ensures { EvaluatesErased V.Shape }
{}
