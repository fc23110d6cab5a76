//! The filters of a page of Jekyll, as one type of plug-ins.
ghost use Rattle.jekyll_language.specs.meaning.expressions.Plugins.{calls_over, filter_of, made_over, plugin_name};

use crate::expressions::grouping::{GroupCall, GroupCallShape, GroupPlugin};
use crate::expressions::kinds::{ExpressionCall, ExpressionCallShape, ExpressionKind};
use liquid_error::Error;
use liquid_jekyll::plugin::JekyllFilterShape;
use liquid_jekyll::{JekyllFilter, JekyllPlugin};
use liquid_plugins::{
    Filter, FilterArguments, FilterReflection, Meant, ParameterReflection, ParseFilter,
};
use liquid_runtime::Runtime;
use liquid_value::{Value, ValueCow};
use std::alloc::Global;

/// A filter of a page of Jekyll, as a plug-in. The chains in the texts of its arguments have the filters `P`.
#[derive(Drop)]
pub enum PluginOver<P> {
    /// A filter whose arguments are values.
    Plain(JekyllPlugin),
    /// A filter with a condition.
    Expression(ExpressionKind),
    /// The filter with a chain.
    Group(GroupPlugin<P>),
}

/// Such a filter with its arguments, where `X` are the filters of the chains.
#[derive(Drop)]
pub enum FilterOver<X> {
    Plain(JekyllFilter),
    Expression(ExpressionCall),
    Group(GroupCall<X>),
}

/// Marks the shape of such a filter, where `S` marks those of the chains' filters.
pub enum FilterShapeOver<S> {
    Plain(JekyllFilterShape),
    Expression(ExpressionCallShape),
    Group(GroupCallShape<S>),
}

/// A filter of a page of Jekyll, as a plug-in.
///
/// A chain in a text of a page can have a filter with a chain in a text of its own, and there it ends. A literal has no
/// escapes, so one inside another has the other kind of quotes, and a third has none that are left. So in the chain of the
/// second no filter has a text, and those that must have one can't be read.
pub type PagePlugin = PluginOver<PluginOver<JekyllPlugin>>;

/// A filter of a page of Jekyll, with its arguments.
pub type PageFilter = FilterOver<FilterOver<JekyllFilter>>;

impl<P> FilterReflection for PluginOver<P> {
    ghost filter_name = { plugin_name };

    fn name(&self) -> &str {
        match self {
            PluginOver::Plain(plugin) => plugin.name(),
            PluginOver::Expression(kind) => kind.name(),
            PluginOver::Group(plugin) => plugin.name(),
        }
    }

    fn description(&self) -> &str {
        match self {
            PluginOver::Plain(plugin) => plugin.description(),
            PluginOver::Expression(kind) => kind.description(),
            PluginOver::Group(plugin) => plugin.description(),
        }
    }

    fn positional_parameters(&self) -> &'static [ParameterReflection] {
        match self {
            PluginOver::Plain(plugin) => plugin.positional_parameters(),
            PluginOver::Expression(kind) => kind.positional_parameters(),
            PluginOver::Group(plugin) => plugin.positional_parameters(),
        }
    }

    fn keyword_parameters(&self) -> &'static [ParameterReflection] {
        match self {
            PluginOver::Plain(plugin) => plugin.keyword_parameters(),
            PluginOver::Expression(kind) => kind.keyword_parameters(),
            PluginOver::Group(plugin) => plugin.keyword_parameters(),
        }
    }
}

impl<P: ParseFilter> ParseFilter for PluginOver<P> {
    type Filter = FilterOver<P::Filter>;

    ghost makes = { made_over P.makes };

    fn parse(
        &self,
        alloc: Global,
        arguments: FilterArguments<'_>,
    ) -> Result<FilterOver<P::Filter>, Error> {
        match self {
            PluginOver::Plain(plugin) => Ok(FilterOver::Plain(plugin.parse(alloc, arguments)?)),
            PluginOver::Expression(kind) => {
                Ok(FilterOver::Expression(kind.parse(alloc, arguments)?))
            }
            PluginOver::Group(plugin) => Ok(FilterOver::Group(plugin.parse(alloc, arguments)?)),
        }
    }
}

impl<X: Filter> Meant for FilterOver<X> {
    type Shape = FilterShapeOver<X::Shape>;

    ghost shape = { filter_of X.shape };
}

impl<X: Filter> Filter for FilterOver<X> {
    ghost means = { calls_over X.means };

    fn evaluate<'s, R: Runtime>(
        &'s self,
        alloc: Global,
        input: &ValueCow<'_>,
        runtime: &'s R,
    ) -> Result<Value, Error> {
        match self {
            FilterOver::Plain(filter) => filter.evaluate(alloc, input, runtime),
            FilterOver::Expression(call) => call.evaluate(alloc, input, runtime),
            FilterOver::Group(call) => call.evaluate(alloc, input, runtime),
        }
    }

    fn label(&self) -> &str {
        match self {
            FilterOver::Plain(filter) => filter.label(),
            FilterOver::Expression(call) => call.label(),
            FilterOver::Group(call) => call.label(),
        }
    }
}
