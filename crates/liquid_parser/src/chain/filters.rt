//! The filters of a chain, looked up and made from left to right.
ghost use Rattle.std.specs.Prelude.{◌≡◌, ◌≤◌, ℕ, List, None, IfOk, IfSome, length, map, ◌++◌};
ghost use Rattle.liquid_error.specs.meaning.Told.{told, Gives, Becomes};
ghost use Rattle.liquid_grammar.specs.meaning.Faults.{filter_fault, chain_fault, first_fault};
ghost use Rattle.liquid_grammar.specs.meaning.Parts.{IsFilter};
ghost use Rattle.liquid_grammar.specs.meaning.Tokens.{FilterRule, ChainRule};
ghost use Rattle.liquid_plugins.specs.meaning.ExpressionOf.{chain_of};
ghost use Rattle.liquid_parser.specs.steps.Built.{FiltersRule, GivesUpTo};
ghost use Rattle.liquid_parser.specs.meaning.Plugins.{registry_of};
ghost use Rattle.liquid_parser.specs.meaning.Reading.{chain_read, filters_read, filter_read, unknown_filter, refusal_of_filter};
ghost use Rattle.liquid_grammar.specs.meaning.Tokens as token;
ghost use Rattle.liquid_parser.specs.meaning.Handed as spec;

use crate::chain::arguments::build_arguments;
use crate::chain::build::build_value;
use crate::chain::names::list_names;
use crate::reading::place::{error_at, place_in, slice_between};
use liquid_error::Error;
use liquid_grammar::{FilterStart, next_filter};
use liquid_plugins::{FilterChain, ParseFilter, PluginRegistry};
use std::alloc::Global;

/// Returns the chain that the text begins with. Its literals and brackets have been checked.
///
/// Fails for a filter that the registry doesn't have, and with the error of a filter. The first error from the left is
/// returned.
pub(crate) fn parse_chain<F: ParseFilter>(
    alloc: Global,
    source: &str,
    s: &str,
    registry: &PluginRegistry<F>,
) -> Result<FilterChain<F::Filter>, Error>
    ensures { (rest : List ℕ) (c : token.Chain) → ChainRule s.now rest c → chain_fault c ≡ None
        → Gives (chain_of F.Filter.shape) result (chain_read (registry_of F.makes registry.now) source.now c) }
{
    match build_value(alloc, s, 0)? {
        Some((entry, rest)) => {
            let filters = parse_filters(alloc, source, rest, registry)?;
            Ok(FilterChain { entry, filters })
        }
        None => Err(error_at(alloc, source, "Invalid liquid", s)),
    }
}

/// Returns the filters that begin here, each after `|`.
fn parse_filters<F: ParseFilter>(
    alloc: Global,
    source: &str,
    s: &str,
    registry: &PluginRegistry<F>,
) -> Result<Vec<F::Filter>, Error>
    ensures { (rest : List ℕ) (fs : List token.Filter) → FiltersRule s.now rest fs → first_fault filter_fault fs ≡ None
        → Gives (λ v. map F.Filter.shape v.items) result (filters_read (registry_of F.makes registry.now) source.now fs) }
{
    let mut filters = Vec::new(alloc);
    let mut rest = s;
    'filters: while let Some(start) = next_filter(rest) {
        let (filter, following) = parse_filter(alloc, source, start, registry)?;
        filters.push(filter)?;
        rest = following;
    }
    Ok(filters)
}

/// Returns the filter with this beginning, and what follows it.
fn parse_filter<'a, F: ParseFilter>(
    alloc: Global,
    source: &str,
    start: FilterStart<'a>,
    registry: &PluginRegistry<F>,
) -> Result<(F::Filter, &'a str), Error>
    ensures value { (rest : List ℕ) (f : token.Filter) → IsFilter start.entry rest f
        → FilterRule f.place f.following f → filter_fault f ≡ None
        → GivesUpTo F.Filter.shape result (filter_read (registry_of F.makes registry.now) source.now f) rest }
    ensures within { IfOk result (λ p. length p.1.now ≤ length start.entry.rest.now) }
{
    let plug_in = match registry.get(start.name) {
        Some(plug_in) => plug_in,
        None => return Err(unknown_filter_error(alloc, source, start, registry)),
    };
    match build_arguments(alloc, start.rest)? {
        Some((arguments, rest)) => match plug_in.parse(alloc, arguments) {
            Ok(filter) => Ok((filter, rest)),
            Err(error) => Err(filter_refused(alloc, source, start.place, rest, error)),
        },
        None => Err(error_at(alloc, source, "Invalid liquid", start.place)),
    }
}

/// Returns the error for a filter that the registry doesn't have.
fn unknown_filter_error<F: ParseFilter>(
    alloc: Global,
    source: &str,
    start: FilterStart<'_>,
    registry: &PluginRegistry<F>,
) -> Error
    ensures { (f : token.Filter) → f.place ≡ start.entry.place.now → f.what.0 ≡ start.entry.name.now
        → IfSome (told result) (λ r. r ≡ unknown_filter (registry_of F.makes registry.now) source.now f) }
{
    let filters = match list_names(alloc, registry) {
        Ok(names) => names,
        Err(_) => return Error::Memory,
    };
    error_at(alloc, source, "Unknown filter", start.place)
        .context(alloc, "requested filter", start.name)
        .context(alloc, "available filters", filters.as_str())
}

/// Returns a filter's own error, with the filter's text, which ends where this rest begins.
fn filter_refused(alloc: Global, source: &str, place: &str, rest: &str, error: Error) -> Error
    ensures { (text : List ℕ) → place.now ≡ text ++ rest.now
        → Becomes (refusal_of_filter (spec.place_in source.now place.now) text) error result }
{
    error
        .or_place(place_in(source, place))
        .trace(alloc, "Filter parsing error")
        .context(alloc, "filter", slice_between(place, rest))
}
