//! The evaluation of chains over a runtime, and the text that they print.
ghost use Rattle.std.specs.Prelude.{◌≡◌, ◌++◌, [], codes, map, IfOk, Some};
ghost use Rattle.std.specs.Fmt.{WritesOnOk};
ghost use Rattle.std.specs.List.{flat_map, join_by};
ghost use Rattle.liquid_error.specs.meaning.Told.{Gives, Becomes};
ghost use Rattle.liquid_scalar.specs.meaning.Scalar.{text};
ghost use Rattle.liquid_value.specs.meaning.Cow.{cow_view};
ghost use Rattle.liquid_value.specs.meaning.Render.{source};
ghost use Rattle.liquid_runtime.specs.meaning.Erased.{erase};
ghost use Rattle.liquid_plugins.specs.meaning.Chain.{filtered, chain_value, chain_text, from_filter};
ghost use Rattle.liquid_plugins.specs.meaning.Expression.{variable, no_indexes};
ghost use Rattle.liquid_plugins.specs.meaning.ExpressionOf.{expression_of, chain_of};

use crate::expression::{Expression, FilterChain, Variable};
use crate::filter::Filter;
use crate::text::write_expression;
use liquid_error::Error;
use liquid_runtime::Runtime;
use liquid_value::ValueCow;
use liquid_value::render::ValueSource;
use std::alloc::{AllocError, Global};
use std::fmt;

impl<X: Filter> FilterChain<X> {
    /// Returns a chain of an expression and filters.
    pub fn new(entry: Expression, filters: Vec<X>) -> FilterChain<X>
        ensures { chain_of X.shape result ≡ record { entry = expression_of entry; filters = map X.shape filters.items } }
    {
        FilterChain { entry, filters }
    }

    /// Returns the chain of a name alone.
    pub fn of_name(alloc: Global, name: &str) -> Result<FilterChain<X>, AllocError>
        ensures { IfOk result (λ chain. chain_of X.shape chain ≡ record { entry = variable (text name.now) no_indexes; filters = [] }) }
    {
        let name = Variable::with_literal(alloc, String::from_str(alloc, name)?);
        Ok(FilterChain::new(Expression::Variable(name), Vec::new(alloc)))
    }

    /// Returns the value of the chain, or the first error from the left.
    ///
    /// The error of a filter gets the trace `Filter error` with the filter's label and the source of its input.
    pub fn evaluate<'s, R: Runtime>(
        &'s self,
        alloc: Global,
        runtime: &'s R,
    ) -> Result<ValueCow<'s>, Error>
        ensures { Gives cow_view result (chain_value X.means (chain_of X.shape self.now) (R.view runtime.now)) }
    {
        let value = self.entry.evaluate(alloc, runtime)?;
        apply(alloc, value, self.filters.as_slice(), runtime)
    }
}

/// Applies the filters to a value, from left to right.
fn apply<'s, X: Filter, R: Runtime>(
    alloc: Global,
    value: ValueCow<'s>,
    filters: &'s [X],
    runtime: &'s R,
) -> Result<ValueCow<'s>, Error>
    ensures { Gives cow_view result (filtered X.means (erase (R.view runtime.now)) (map X.shape filters.now) (cow_view value.entry)) }
{
    let mut current = value;
    for filter in filters {
        match filter.evaluate(alloc, &current, runtime) {
            Ok(next) => current = ValueCow::Owned(next),
            Err(error) => return Err(filter_refused(alloc, filter, &current, error)),
        }
    }
    Ok(current)
}

/// Returns the error of a filter, with its label and its input.
fn filter_refused<X: Filter>(alloc: Global, filter: &X, input: &ValueCow<'_>, error: Error) -> Error
    ensures { Becomes (from_filter (X.means.label (X.shape filter.now)) (source (cow_view input.now))) error result }
{
    let source = match ValueSource::new(input.as_view()).to_string(alloc) {
        Ok(source) => source,
        Err(_) => return Error::Memory,
    };
    with_filter(alloc, error, filter.label(), source.as_str())
}

/// Returns the error with the trace of a filter, its label and its input's source.
fn with_filter(alloc: Global, error: Error, label: &str, source: &str) -> Error
    ensures { Becomes (from_filter label.now source.now) error result }
{
    error
        .trace(alloc, "Filter error")
        .context(alloc, "filter", label)
        .context(alloc, "input", source)
}

/// Writes the entry, ` | `, and the labels with ` | ` between them.
impl<X: Filter> fmt::Display for FilterChain<X> {
    ghost output = { λ c. Some (chain_text X.means (chain_of X.shape c)) };

    fn fmt<W: fmt::Write>(&self, f: &mut fmt::Formatter<W>) -> fmt::Result {
        write_expression(&self.entry, f)?;
        f.write_str(" | ")?;
        write_labels(self.filters.as_slice(), f)
    }
}

fn write_labels<X: Filter, W: fmt::Write>(filters: &[X], f: &mut fmt::Formatter<W>) -> fmt::Result
    ensures { WritesOnOk W.write_str_gives f.old result (join_by X.means.label (codes " | ") (map X.shape filters.now)) f.new }
{
    match filters {
        [] => Ok(()),
        [first, rest @ ..] => {
            f.write_str(first.label())?;
            write_more(rest, f)
        }
    }
}

fn write_more<X: Filter, W: fmt::Write>(filters: &[X], f: &mut fmt::Formatter<W>) -> fmt::Result
    ensures { WritesOnOk W.write_str_gives f.old result (flat_map (λ x. codes " | " ++ X.means.label x) (map X.shape filters.now)) f.new }
{
    for filter in filters {
        write_next(filter, f)?;
    }
    Ok(())
}

fn write_next<X: Filter, W: fmt::Write>(filter: &X, f: &mut fmt::Formatter<W>) -> fmt::Result
    ensures { WritesOnOk W.write_str_gives f.old result (codes " | " ++ X.means.label (X.shape filter.now)) f.new }
{
    f.write_str(" | ")?;
    f.write_str(filter.label())
}
