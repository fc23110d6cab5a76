//! The arguments of a filter, and the parameters that are made from them.
ghost use Rattle.std.specs.Prelude.{Result};
ghost use Rattle.liquid_error.specs.meaning.Refusal.{Refusal};
ghost use Rattle.liquid_error.specs.meaning.Told.{Gives};
ghost use Rattle.liquid_runtime.specs.meaning.Erased.{Erased, erase};
ghost use Rattle.liquid_plugins.specs.meaning.ArgumentsOf.{Arguments, arguments_of};

use crate::expression::Expression;
use crate::meant::Meant;
use crate::reflection::FilterParametersReflection;
use liquid_error::Error;
use liquid_runtime::Runtime;
use std::alloc::Global;

/// The arguments that a template gives a filter: the positional ones and those with a keyword, in order.
#[derive(Drop)]
pub struct FilterArguments<'a> {
    pub positional: Vec<Expression>,
    pub keyword: Vec<(&'a str, Expression)>,
}

/// Parameters of a filter, as a type of its own: made from arguments, and evaluated at each call.
///
/// Their values are owned. A filter that only reads a value doesn't need this: it can evaluate the expression itself,
/// which borrows.
pub trait FilterParameters: FilterParametersReflection + Meant + Drop {
    /// The values of the parameters over a runtime.
    type EvaluatedFilterParameters: Meant;

    // the parameters that arguments make, or the refusal
    ghost makes: { Arguments → Result Self.Shape Refusal };

    // their values, by what a filter sees of the view
    ghost evaluates: { Self.Shape → Erased → Result Self.EvaluatedFilterParameters.Shape Refusal };

    /// Returns the parameters that the arguments make. Fails if the arguments don't fit.
    fn from_args(alloc: Global, arguments: FilterArguments<'_>) -> Result<Self, Error>
        ensures { Gives Self.shape result (makes (arguments_of arguments.entry)) };

    /// Returns the values of the parameters, or the first error of one of them.
    fn evaluate<'s, R: Runtime>(
        &'s self,
        alloc: Global,
        runtime: &'s R,
    ) -> Result<Self::EvaluatedFilterParameters, Error>
        ensures { Gives Self.EvaluatedFilterParameters.shape result (evaluates (Self.shape self.now) (erase (R.view runtime.now))) };
}
