//! Kinds of filters: how each describes itself, and what it returns.
ghost use Rattle.std.specs.Prelude.{◌≡◌, []};
ghost use Rattle.liquid_error.specs.meaning.Told.{Gives};
ghost use Rattle.liquid_value.specs.meaning.View.{view as tree_of};
ghost use Rattle.liquid_filters.specs.meaning.Given.{given};
ghost use Rattle.liquid_filters.specs.meaning.Rows.{IsRow};
ghost use Rattle.liquid_filters.specs.meaning.Sense.{FilterSense};

use crate::arguments::CallArguments;
use crate::parameters::NONE;
use liquid_error::Error;
use liquid_plugins::ParameterReflection;
use liquid_value::Value;
use std::alloc::Global;

/// The description of a filter: its name, what it does, its positional parameters and its keywords.
///
/// The parameters also decide which arguments the filter takes: at most as many as it has positional parameters, at
/// least those that are not optional, and each keyword at most once.
#[derive(Debug, Clone, Copy)]
pub struct FilterRow {
    pub name: &'static str,
    pub description: &'static str,
    pub parameters: &'static [ParameterReflection],
    pub keywords: &'static [ParameterReflection],
}

impl FilterRow {
    /// Returns the row of a filter without keywords.
    pub fn new(
        name: &'static str,
        description: &'static str,
        parameters: &'static [ParameterReflection],
    ) -> FilterRow
        ensures name { result.name.now ≡ name.now }
        ensures parameters { result.parameters.now ≡ parameters.now }
        ensures keywords { result.keywords.now ≡ [] }
    {
        FilterRow {
            name,
            description,
            parameters,
            keywords: &NONE,
        }
    }
}

/// A kind of filter: a function of the input and of the arguments' values.
///
/// It sees no names, so globals that are hidden from a template are hidden from it too.
pub trait FilterKind: Clone + Copy + Drop {
    // its name, what it takes, and what it returns
    ghost sense: { Self → FilterSense };

    /// Returns the description of the filter.
    fn row(&self) -> FilterRow
        ensures { IsRow (sense self.now) result };

    /// Applies the filter to the input, and returns the result or the error.
    fn answer(
        &self,
        alloc: Global,
        input: &Value,
        arguments: &CallArguments<'_>,
    ) -> Result<Value, Error>
        ensures { Gives tree_of result ((sense self.now).answers (tree_of input.now) (given arguments.now)) };
}
