//! Laws of the standard language in a sandbox, each as the contract of a function.
//!
//! `V` is the type of the register, and `F` the shape of the filters. The laws hold for all filters.
ghost use Rattle.liquid_plugins.specs.meaning.Chain.{FilterMeaning};
ghost use Rattle.liquid_std.specs.laws.Sandboxes.{StandardAgrees, StandardIsolated};

use crate::marks::HoldsMarks;

/// Under a sandboxed frame a template of the standard language has the run that it has over an outside without names.
///
/// The steps and the end are the same. The outside's own names, interrupt and register stay as they were, and its
/// globals are overlaid by those that the run leaves. The outside must have a global frame.
pub fn standard_is_isolated<V: HoldsMarks, F>()
    ensures { (fresh : V.Shape) (m : FilterMeaning F) → StandardIsolated V.holds fresh m }
{}

/// Two such outsides that agree on partials, depth, leniency, index variables and name get the same text, the same
/// error and the same writes.
pub fn outsides_agree_on_the_standard<V: HoldsMarks, F>()
    ensures { (fresh : V.Shape) (m : FilterMeaning F) → StandardAgrees V.holds fresh m }
{}
