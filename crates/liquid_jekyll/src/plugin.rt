//! Jekyll's filters as one type of plug-ins.
ghost use Rattle.liquid_jekyll.specs.meaning.Plugins.{filter_of, jekyll_calls, jekyll_made, plugin_name};

use crate::kinds::JekyllKind;
use crate::named::NamedKind;
use liquid_error::Error;
use liquid_filters::call::CallShape;
use liquid_filters::{Beside, FilterCall, FilterPlugin, StdKind};
use liquid_plugins::{
    Filter, FilterArguments, FilterReflection, Meant, ParameterReflection, ParseFilter,
};
use liquid_runtime::Runtime;
use liquid_value::{Value, ValueCow};
use std::alloc::Global;

/// A filter of a page of Jekyll, as a plug-in.
#[derive(Clone, Copy, Drop)]
pub enum JekyllPlugin {
    /// A standard filter, or one of Jekyll's, that is a function of values.
    Table(FilterPlugin<Beside<StdKind, JekyllKind>>),
    /// A filter that reads names.
    Named(NamedKind),
}

/// Either filter, with its arguments.
#[derive(Drop)]
pub enum JekyllFilter {
    Table(FilterCall<Beside<StdKind, JekyllKind>>),
    Named(NamedKind),
}

/// Marks the shape of either filter.
pub enum JekyllFilterShape {
    Table(CallShape<Beside<StdKind, JekyllKind>>),
    Named(NamedKind),
}

impl FilterReflection for JekyllPlugin {
    ghost filter_name = { plugin_name };

    fn name(&self) -> &str {
        match self {
            JekyllPlugin::Table(plugin) => plugin.name(),
            JekyllPlugin::Named(kind) => kind.name(),
        }
    }

    fn description(&self) -> &str {
        match self {
            JekyllPlugin::Table(plugin) => plugin.description(),
            JekyllPlugin::Named(kind) => kind.description(),
        }
    }

    fn positional_parameters(&self) -> &'static [ParameterReflection] {
        match self {
            JekyllPlugin::Table(plugin) => plugin.positional_parameters(),
            JekyllPlugin::Named(kind) => kind.positional_parameters(),
        }
    }

    fn keyword_parameters(&self) -> &'static [ParameterReflection] {
        match self {
            JekyllPlugin::Table(plugin) => plugin.keyword_parameters(),
            JekyllPlugin::Named(kind) => kind.keyword_parameters(),
        }
    }
}

impl ParseFilter for JekyllPlugin {
    type Filter = JekyllFilter;

    ghost makes = { jekyll_made };

    fn parse(&self, alloc: Global, arguments: FilterArguments<'_>) -> Result<JekyllFilter, Error> {
        match self {
            JekyllPlugin::Table(plugin) => {
                Ok(JekyllFilter::Table(plugin.parse(alloc, arguments)?))
            }
            JekyllPlugin::Named(kind) => Ok(JekyllFilter::Named(kind.parse(alloc, arguments)?)),
        }
    }
}

impl Meant for JekyllFilter {
    type Shape = JekyllFilterShape;

    ghost shape = { filter_of };
}

impl Filter for JekyllFilter {
    ghost means = { jekyll_calls };

    fn evaluate<'s, R: Runtime>(
        &'s self,
        alloc: Global,
        input: &ValueCow<'_>,
        runtime: &'s R,
    ) -> Result<Value, Error> {
        match self {
            JekyllFilter::Table(call) => call.evaluate(alloc, input, runtime),
            JekyllFilter::Named(kind) => kind.evaluate(alloc, input, runtime),
        }
    }

    fn label(&self) -> &str {
        match self {
            JekyllFilter::Table(call) => call.label(),
            JekyllFilter::Named(kind) => kind.label(),
        }
    }
}
