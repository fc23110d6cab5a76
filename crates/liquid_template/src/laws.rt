//! Laws of sandboxed runs, of isolated ones and of checkpoints, each as the contract of a function. `V` is the type of
//! the register. `F`, `T` and `B` are the shapes of filters, tags and blocks. `P` and `Q` are the progress of tags and of
//! blocks.
ghost use Rattle.liquid_template.specs.laws.Checkpoints.{Kept, NoneElsewhere, OneEachTurn};
ghost use Rattle.liquid_template.specs.laws.IsolatedFrames.{IsolatedFromOutside, IsolatedOutsidesAgree};
ghost use Rattle.liquid_template.specs.laws.Isolation.{Isolated, OutsidesAgree};
ghost use Rattle.liquid_plugins.specs.meaning.Turns.{NodeMeaning};
ghost use Rattle.liquid_template.specs.meaning.Nodes.{Setting};

use liquid_runtime::Fresh;

/// Under a sandboxed frame, a list of discreet nodes has the same run as over an outside without names: the same steps
/// and the same end. The outside's own names, interrupt and register are as they were, and its globals are overlaid by
/// those that the run leaves. The outside must have a global frame.
#[tactic(auto, using(crate::proofs::Isolation::isolated))]
pub fn sandboxed_runs_are_isolated<V: Fresh, F, T, P, B, Q>()
    ensures { (s : Setting V.Shape F T P B Q) → Isolated s }
{}

/// So two such outsides that agree on partials, depth, leniency, index variables and name get the same text, the same
/// error and the same writes.
pub fn outsides_agree<V: Fresh, F, T, P, B, Q>()
    ensures { (s : Setting V.Shape F T P B Q) → OutsidesAgree s }
{}

/// Under an isolated frame, any list of nodes has the same run as over an outside without names: the same steps and the
/// same end. All that the outside had is as it was, except for index variables.
#[tactic(auto, using(crate::proofs::IsolatedFrames::from_outside))]
pub fn isolated_runs_are_apart<V: Fresh, F, T, P, B, Q>()
    ensures { (s : Setting V.Shape F T P B Q) → IsolatedFromOutside s }
{}

/// So two outsides that agree on partials, depth, leniency, index variables and name get the same text, the same error
/// and the same writes.
pub fn isolated_outsides_agree<V: Fresh, F, T, P, B, Q>()
    ensures { (s : Setting V.Shape F T P B Q) → IsolatedOutsidesAgree s }
{}

/// Each turn of a tag or a block has exactly one checkpoint of its own, and nothing else has one. Frames, traces
/// and captures keep them. So a gate that lets `n` checkpoints pass lets `n` turns begin.
#[tactic(auto, using(crate::proofs::Checkpoints::each_turn, crate::proofs::Checkpoints::none_elsewhere, crate::proofs::Checkpoints::kept))]
pub fn checkpoints_count_turns<V: Fresh, F, T, P, B, Q, N, R>()
    ensures turns { (s : Setting V.Shape F T P B Q) (m : NodeMeaning N R V.Shape) → OneEachTurn s m }
    ensures elsewhere { NoneElsewhere V.Shape }
    ensures kept { Kept V.Shape }
{}
