//! The laws of paths, each as the contract of a function.
ghost use Rattle.liquid_paths.specs.laws.Laws.{FindAgrees};

/// `find` returns a value exactly if `try_find` does, and then the same one.
#[tactic(auto, using(crate::proofs::Agreement::find_agrees))]
pub fn find_agrees_with_try_find()
    ensures { FindAgrees }
{}
