//! Filters, and the plug-ins that make them.
ghost use Rattle.std.specs.Prelude.{◌≡◌, Result};
ghost use Rattle.liquid_error.specs.meaning.Refusal.{Refusal};
ghost use Rattle.liquid_error.specs.meaning.Told.{Gives};
ghost use Rattle.liquid_value.specs.meaning.Cow.{cow_view};
ghost use Rattle.liquid_value.specs.meaning.View.{view as tree_of};
ghost use Rattle.liquid_runtime.specs.meaning.Erased.{erase};
ghost use Rattle.liquid_plugins.specs.meaning.ArgumentsOf.{Arguments, arguments_of};
ghost use Rattle.liquid_plugins.specs.meaning.Chain.{FilterMeaning};
ghost use Rattle.liquid_plugins.specs.meaning.NoNames.{called};

use crate::meant::Meant;
use crate::parameters::FilterArguments;
use crate::reflection::FilterReflection;
use liquid_error::Error;
use liquid_runtime::{BuiltRuntime, Runtime, RuntimeBuilder};
use liquid_value::{Value, ValueCow};
use std::alloc::Global;

/// A filter of a chain.
///
/// It reads the runtime and can't write to it. Its result is a function of the filter, its input and the names that it
/// sees. Globals that are hidden from a template are hidden from it too.
pub trait Filter: Meant + Drop {
    // its result, by its input and what it sees of the view, and its label
    ghost means: { FilterMeaning Self.Shape };

    /// Returns the value that the filter makes of the input, or its error.
    fn evaluate<'s, R: Runtime>(
        &'s self,
        alloc: Global,
        input: &ValueCow<'_>,
        runtime: &'s R,
    ) -> Result<Value, Error>
        ensures { Gives tree_of result (means.answers (Self.shape self.now) (cow_view input.now) (erase (R.view runtime.now))) };

    /// Returns the text that shows the filter in a chain and in the errors of the chain.
    fn label(&self) -> &str
        ensures { result.now ≡ means.label (Self.shape self.now) };
}

/// Makes the filters of a name, one for each list of arguments.
pub trait ParseFilter: FilterReflection + Drop {
    type Filter: Filter;

    // the shape of the filter that arguments make, or the refusal
    ghost makes: { Self → Arguments → Result Self.Filter.Shape Refusal };

    /// Returns the filter that the arguments make. Fails if the arguments don't fit.
    fn parse(&self, alloc: Global, arguments: FilterArguments<'_>) -> Result<Self::Filter, Error>
        ensures { Gives Self.Filter.shape result (makes self.now (arguments_of arguments.entry)) };
}

/// Returns what the filter with these arguments makes of the input, over a runtime that has no names.
pub fn call_filter<P: ParseFilter>(
    alloc: Global,
    filter: &P,
    input: &ValueCow<'_>,
    arguments: FilterArguments<'_>,
) -> Result<Value, Error>
    ensures { Gives tree_of result (called P.Filter.means (P.makes filter.now (arguments_of arguments.entry)) (cow_view input.now)) }
{
    let runtime: BuiltRuntime<(), ()> = RuntimeBuilder::new(alloc).build();
    let filter = filter.parse(alloc, arguments)?;
    filter.evaluate(alloc, input, &runtime)
}
