//! Laws of the library, each as the contract of a function. `V` is the type of the register, `F` the shape of the
//! filters. Nothing is required of the filters, tags and blocks.
ghost use Rattle.liquid_plugins.specs.meaning.Chain.{FilterMeaning};
ghost use Rattle.liquid_tags.specs.laws.LoopRuns.{LoopRuns};
ghost use Rattle.liquid_tags.specs.laws.Sandboxes.{LibraryAgrees, LibraryIsolated};

use liquid_core::Fresh;

/// Under a sandboxed frame, a template of the library has the same run as over an outside without names: the same steps
/// and the same end. The outside's own names, interrupt and register are as they were, and its globals are overlaid by
/// those that the run leaves. The outside must have a global frame.
pub fn library_is_isolated<V: Fresh, F>()
    ensures { (fresh : V.Shape) (m : FilterMeaning F) → LibraryIsolated fresh m }
{}

/// So two such outsides that agree on partials, depth, leniency, index variables and name get the same text, the same
/// error and the same writes.
pub fn outsides_agree_on_the_library<V: Fresh, F>()
    ensures { (fresh : V.Shape) (m : FilterMeaning F) → LibraryAgrees fresh m }
{}

/// A loop over at least one item renders its first part for each item, in order, under the frame of the item. No
/// interrupt is looked at before the first item. The interrupt that a part has set is cleared after it: `break` ends the
/// loop, and after anything else the next item follows.
pub fn loop_renders_each_item<V: Fresh, F>()
    ensures { (fresh : V.Shape) (m : FilterMeaning F) → LoopRuns fresh m }
{}
