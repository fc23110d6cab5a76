//! Laws of stores: each is the clause of a function that does nothing.
ghost use Rattle.liquid_parser.specs.meaning.Plugins.{language_of};
ghost use Rattle.liquid_partials.specs.meaning.Compiled.{OneStore};
ghost use Rattle.liquid_partials.specs.laws.Requests.{FewReadings, StoresAgree};
ghost use Rattle.liquid_plugins.specs.meaning.Nodes.{Nodes};

use liquid_parser::{Language, ParseBlock, ParseTag};
use liquid_plugins::ParseFilter;
use liquid_template::PartialStore;

/// Each source has a store in a language, and what it finds is determined by both.
pub fn one_store<F: ParseFilter, T: ParseTag<F>, B: ParseBlock<F>>(language: &Language<F, T, B>)
    ensures { OneStore (language_of F.makes T.gives B.block language.now) }
{}

/// Any list of requests has the same results from two stores that were compiled from one source in one language, except
/// for results that are out of memory.
pub fn stores_agree<F, T, B, S, R>(language: &Language<F, T, B>, store: &S, other: &R)
where
    F: ParseFilter,
    T: ParseTag<F>,
    B: ParseBlock<F>,
    S: PartialStore<F::Filter, T::Node, B::Node>,
    R: PartialStore<F::Filter, T::Node, B::Node>,
    ensures { StoresAgree (language_of F.makes T.gives B.block language.now) S.finds R.finds }
{}

/// Over any list of requests, a store that keeps its results parses at most as many texts as it keeps new names and as
/// requests are out of memory.
pub fn few_readings<F: ParseFilter, T: ParseTag<F>, B: ParseBlock<F>>(_language: &Language<F, T, B>)
    ensures { FewReadings (Nodes F.Filter.Shape T.Node.Shape B.Node.Shape) }
{}
