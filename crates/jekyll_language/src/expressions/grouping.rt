//! The filter that groups items by the value of a chain.
ghost use Rattle.std.specs.Prelude.{◌≡◌, map, Ok};
ghost use Rattle.std.specs.Option.{option_map_or};
ghost use Rattle.liquid_error.specs.meaning.Told.{Gives};
ghost use Rattle.liquid_value.specs.meaning.View.{view as tree_of};
ghost use Rattle.liquid_runtime.specs.meaning.Erased.{erase};
ghost use Rattle.liquid_plugins.specs.meaning.ExpressionOf.{expression_of};
ghost use Rattle.liquid_parser.specs.meaning.Plugins.{registry_of};
ghost use Rattle.liquid_filters.specs.meaning.list.Entries.{entry_view};
ghost use Rattle.liquid_jekyll.specs.meaning.list.Own.{own};
ghost use Rattle.jekyll_language.specs.meaning.expressions.Groups as Spec;

use crate::expressions::chains::read_chain;
use crate::expressions::names::one_name;
use crate::expressions::read_only::ReadOnly;
use crate::expressions::reading::text_literal;
use liquid_error::Error;
use liquid_filters::list::keys::Entry;
use liquid_filters::value::errors::{array_error, unexpected_arguments_error};
use liquid_jekyll::list::{group_entries, own_items};
use liquid_plugins::{
    Bytes, ChainMark, Expression, Filter, FilterArguments, FilterChain, FilterReflection, Meant,
    ParameterReflection, ParseFilter, PluginRegistry,
};
use liquid_runtime::{Runtime, StackFrame};
use liquid_value::{Value, ValueCow};
use std::alloc::Global;

pub(crate) const GROUP_BY_EXP: &str = "group_by_exp";

/// The filter `group_by_exp`, whose chain is read while the page is read.
///
/// It has two arguments, both text literals: the name of an item in the chain, and the chain.
#[derive(Drop)]
pub struct GroupPlugin<P> {
    /// The filters that the chain can have. Filters that a host adds to a page's own are not among them.
    pub filters: PluginRegistry<P>,
}

/// The filter with the name of an item and the chain.
#[derive(Drop)]
pub struct GroupCall<X> {
    pub name: String,
    pub chain: FilterChain<X>,
}

/// Marks the shape of the filter.
pub struct GroupCallShape<S> {
    pub name: Bytes,
    pub chain: ChainMark<S>,
}

static NO_KEYWORDS: [ParameterReflection; 0] = [];

static ITEM_AND_CHAIN: [ParameterReflection; 2] = [
    ParameterReflection {
        name: "item",
        description: "The name of an item in the chain, as a string literal.",
        is_optional: false,
    },
    ParameterReflection {
        name: "chain",
        description: "The chain, as a string literal.",
        is_optional: false,
    },
];

impl<P> FilterReflection for GroupPlugin<P> {
    ghost filter_name = { λ _. Spec.group_by_exp };

    fn name(&self) -> &str {
        GROUP_BY_EXP
    }

    fn description(&self) -> &str {
        "Groups the items for which a chain has the same value."
    }

    fn positional_parameters(&self) -> &'static [ParameterReflection] {
        &ITEM_AND_CHAIN
    }

    fn keyword_parameters(&self) -> &'static [ParameterReflection] {
        &NO_KEYWORDS
    }
}

impl<P: ParseFilter> ParseFilter for GroupPlugin<P> {
    type Filter = GroupCall<P::Filter>;

    ghost makes = { λ plugin. Spec.call_made (registry_of P.makes plugin.filters) };

    fn parse(
        &self,
        alloc: Global,
        arguments: FilterArguments<'_>,
    ) -> Result<GroupCall<P::Filter>, Error> {
        match (
            arguments.positional.as_slice(),
            arguments.keyword.as_slice(),
        ) {
            ([item, chain], []) => read_call(alloc, item, chain, &self.filters),
            _ => Err(unexpected_arguments_error(alloc)),
        }
    }
}

fn read_call<F: ParseFilter>(
    alloc: Global,
    item: &Expression,
    chain: &Expression,
    filters: &PluginRegistry<F>,
) -> Result<GroupCall<F::Filter>, Error>
    ensures { Gives (Spec.call_of F.Filter.shape) result
        (Spec.call_read (registry_of F.makes filters.now) (expression_of item.now) (expression_of chain.now)) }
{
    let name = text_literal(alloc, item)?;
    let text = text_literal(alloc, chain)?;
    let chain = read_chain(alloc, text, filters)?;
    Ok(GroupCall {
        name: String::from_str(alloc, name)?,
        chain,
    })
}

impl<X: Filter> Meant for GroupCall<X> {
    type Shape = GroupCallShape<X::Shape>;

    ghost shape = { Spec.call_of X.shape };
}

impl<X: Filter> Filter for GroupCall<X> {
    ghost means = { Spec.calls X.means };

    fn evaluate<'s, R: Runtime>(
        &'s self,
        alloc: Global,
        input: &ValueCow<'_>,
        runtime: &'s R,
    ) -> Result<Value, Error> {
        match input.as_view() {
            Value::Object(_) => Err(array_error(alloc, input.as_view())),
            other => group_own(alloc, self, other, runtime),
        }
    }

    fn label(&self) -> &str {
        GROUP_BY_EXP
    }
}

/// Returns the groups of the items of an array, or of the values of an object. Any other input is kept.
fn group_own<X: Filter, R: Runtime>(
    alloc: Global,
    call: &GroupCall<X>,
    input: &Value,
    runtime: &R,
) -> Result<Value, Error>
    ensures { Gives tree_of result (option_map_or (Spec.in_groups X.means (Spec.call_of X.shape call.now) (erase (R.view runtime.now)))
        (own (tree_of input.now)) (Ok (tree_of input.now))) }
{
    match own_items(alloc, input)? {
        Some(items) => group_items(alloc, call, items.as_slice(), runtime),
        None => Ok(input.clone()?),
    }
}

/// Returns the groups of these items.
fn group_items<X: Filter, R: Runtime>(
    alloc: Global,
    call: &GroupCall<X>,
    items: &[&Value],
    runtime: &R,
) -> Result<Value, Error>
    ensures { Gives tree_of result (Spec.in_groups X.means (Spec.call_of X.shape call.now) (erase (R.view runtime.now))
        (map (λ r. tree_of r.now) items.now)) }
{
    let entries = with_keys(alloc, call, items, runtime)?;
    Ok(group_entries(alloc, entries.as_slice())?)
}

/// Returns each item with its key.
fn with_keys<'v, X: Filter, R: Runtime>(
    alloc: Global,
    call: &GroupCall<X>,
    items: &[&'v Value],
    runtime: &R,
) -> Result<Vec<Entry<'v>>, Error>
    ensures { Gives (λ v. map entry_view v.items) result
        (Spec.keyed X.means (Spec.call_of X.shape call.now) (erase (R.view runtime.now)) (map (λ r. tree_of r.now) items.now)) }
{
    let mut entries = Vec::with_capacity(alloc, items.len())?;
    for item in items {
        let key = ValueCow::Owned(key_of(alloc, call, item, runtime)?);
        entries.push(Entry { key, item: *item })?;
    }
    Ok(entries)
}

/// Returns the value of the chain where the item has its name over all others.
fn key_of<X: Filter, R: Runtime>(
    alloc: Global,
    call: &GroupCall<X>,
    item: &Value,
    runtime: &R,
) -> Result<Value, Error>
    ensures { Gives tree_of result
        (Spec.key_of X.means (Spec.call_of X.shape call.now) (erase (R.view runtime.now)) (tree_of item.now)) }
{
    let names = one_name(alloc, call.name.as_str(), item)?;
    let frame = StackFrame::new(ReadOnly::new(runtime)?, names);
    let value = call.chain.evaluate(alloc, &frame)?;
    Ok(value.into_owned()?)
}
