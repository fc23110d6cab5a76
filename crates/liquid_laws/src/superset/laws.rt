//! Laws of the standard language as an extension of the language of `liquid_tags`, each as the contract of a function.
//!
//! `F` is the shape of the filters, and `V` the type of the register. The laws hold for all filters. The image of a
//! template has the same texts, chains and tags, and its blocks are the standard ones that look the same.
ghost use Rattle.liquid_parser.specs.meaning.Lang.{Filters};
ghost use Rattle.liquid_plugins.specs.meaning.Chain.{FilterMeaning};
ghost use Rattle.liquid_laws.specs.laws.superset.Superset.{ReadsImages, RunsImages};

use liquid_std::marks::HoldsMarks;

/// The standard language reads each text that the language of `liquid_tags` reads, as the image of what that language
/// reads it as, if both have the same filters.
pub fn standard_reads_the_library<F>()
    ensures { (filters : Filters F) → ReadsImages filters }
{}

/// The image of a template has the same run in every view, except that a partial that `render` calls is isolated, and not
/// sandboxed. Each partial has to be the image of the partial with the same name.
pub fn standard_runs_the_library<V: HoldsMarks, F>()
    ensures { (fresh : V.Shape) (m : FilterMeaning F) → RunsImages V.holds fresh m }
{}
