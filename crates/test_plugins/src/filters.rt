//! Filters for tests: `append`, and `fail`, which always fails.
ghost use Rattle.std.specs.Prelude.{◌≡◌, ◌++◌, IfOk, IfSome, string_bytes};
ghost use Rattle.liquid_error.specs.meaning.Told.{told};
ghost use Rattle.liquid_scalar.specs.meaning.Scalar.{text};
ghost use Rattle.liquid_value.specs.meaning.Render.{render};
ghost use Rattle.liquid_value.specs.meaning.Tree.{scalar};
ghost use Rattle.liquid_value.specs.meaning.View.{view as tree_of};
ghost use Rattle.liquid_plugins.specs.meaning.Evaluation.{evaluate};
ghost use Rattle.liquid_plugins.specs.meaning.ExpressionOf.{expression_of};
ghost use Rattle.test_plugins.specs.meaning.Filters.{
  any_filters,
  any_made,
  any_shape,
  append_filters,
  filter_name,
  one_argument,
  unexpected_arguments,
};

use liquid_error::Error;
use liquid_plugins::{
    Expression, ExpressionMark, Filter, FilterArguments, FilterParameters,
    FilterParametersReflection, FilterReflection, Meant, ParameterReflection, ParseFilter,
};
use liquid_runtime::Runtime;
use liquid_scalar::ScalarOf;
use liquid_value::render::ValueRender;
use liquid_value::{Value, ValueCow};
use std::alloc::{AllocError, Global};

/// What `append` takes.
static APPEND_POSITIONAL: [ParameterReflection; 1] = [ParameterReflection {
    name: "value",
    description: "What is put after the input.",
    is_optional: false,
}];

static NO_PARAMETERS: [ParameterReflection; 0] = [];

/// The parameters of `append`: one value.
#[derive(Drop)]
pub struct AppendParameters {
    pub value: Expression,
}

impl Meant for AppendParameters {
    type Shape = ExpressionMark;

    ghost shape = { λ p. expression_of p.value };
}

impl FilterParametersReflection for AppendParameters {
    fn positional_parameters() -> &'static [ParameterReflection] {
        &APPEND_POSITIONAL
    }

    fn keyword_parameters() -> &'static [ParameterReflection] {
        &NO_PARAMETERS
    }
}

impl FilterParameters for AppendParameters {
    type EvaluatedFilterParameters = Value;

    ghost makes = { λ arguments. one_argument arguments.positional arguments.keyword };

    ghost evaluates = { λ e seen. evaluate seen e };

    fn from_args(alloc: Global, arguments: FilterArguments<'_>) -> Result<AppendParameters, Error> {
        let mut positional = arguments.positional;
        if positional.len() != 1 || arguments.keyword.len() != 0 {
            return Err(unexpected_arguments_error(alloc));
        }
        match positional.pop() {
            Some(value) => Ok(AppendParameters { value }),
            None => Err(unexpected_arguments_error(alloc)),
        }
    }

    #[tactic(auto, using(liquid_plugins::proofs::ErasedLemmas::evaluate_erased))]
    fn evaluate<'s, R: Runtime>(&'s self, alloc: Global, runtime: &'s R) -> Result<Value, Error> {
        let value = self.value.evaluate(alloc, runtime)?;
        Ok(value.into_owned()?)
    }
}

/// The filter `append`: the input's text, and the text of a value after it.
#[derive(Drop)]
pub struct Append {
    pub parameters: AppendParameters,
}

impl Meant for Append {
    type Shape = ExpressionMark;

    ghost shape = { λ f. expression_of f.parameters.value };
}

impl Filter for Append {
    ghost means = { append_filters };

    #[tactic(auto, using(liquid_plugins::proofs::ErasedLemmas::evaluate_erased))]
    fn evaluate<'s, R: Runtime>(
        &'s self,
        alloc: Global,
        input: &ValueCow<'_>,
        runtime: &'s R,
    ) -> Result<Value, Error> {
        // evaluated here, so that the value is not copied
        let value = self.parameters.value.evaluate(alloc, runtime)?;
        let joined = join_values(alloc, input.as_view(), value.as_view())?;
        Ok(joined)
    }

    fn label(&self) -> &str {
        "append"
    }
}

/// Returns the joined texts of two values. Those of texts and numbers have a known length, and need no writer.
fn join_values(alloc: Global, front: &Value, back: &Value) -> Result<Value, AllocError>
    ensures { IfOk result (λ v. tree_of v ≡ scalar (text (render (tree_of front.now) ++ render (tree_of back.now)))) }
{
    let mut digits = itoa::Buffer::new();
    let text = match (front, back) {
        (Value::Scalar(ScalarOf::Str(front)), Value::Scalar(ScalarOf::Str(back))) => {
            join_texts(alloc, front, back)?
        }
        (Value::Scalar(ScalarOf::Str(front)), Value::Scalar(ScalarOf::Integer(back))) => {
            join_texts(alloc, front, digits.format(*back))?
        }
        (Value::Scalar(ScalarOf::Integer(front)), Value::Scalar(ScalarOf::Str(back))) => {
            join_texts(alloc, digits.format(*front), back)?
        }
        _ => {
            let front = ValueRender::new(front);
            let back = ValueRender::new(back);
            format!(in alloc; "{front}{back}")?
        }
    };
    Ok(Value::Scalar(ScalarOf::Str(text)))
}

/// Returns a text, and another one after it.
fn join_texts(alloc: Global, front: &str, back: &str) -> Result<String, AllocError>
    ensures { IfOk result (λ text. string_bytes text ≡ front.now ++ back.now) }
{
    let mut text = String::with_capacity(alloc, front.len().saturating_add(back.len()))?;
    text.push_str(front)?;
    text.push_str(back)?;
    Ok(text)
}

/// Either filter, so that one language has both.
#[derive(Drop)]
pub enum AnyFilter {
    Append(Append),
    Fail,
}

/// Marks the shape of either filter.
pub enum AnyShape {
    Append(ExpressionMark),
    Fail,
}

impl Meant for AnyFilter {
    type Shape = AnyShape;

    ghost shape = { any_shape };
}

impl Filter for AnyFilter {
    ghost means = { any_filters };

    fn evaluate<'s, R: Runtime>(
        &'s self,
        alloc: Global,
        input: &ValueCow<'_>,
        runtime: &'s R,
    ) -> Result<Value, Error> {
        match self {
            AnyFilter::Append(append) => append.evaluate(alloc, input, runtime),
            AnyFilter::Fail => Err(Error::with_msg(alloc, "bad")),
        }
    }

    fn label(&self) -> &str {
        match self {
            AnyFilter::Append(append) => append.label(),
            AnyFilter::Fail => "fail",
        }
    }
}

/// Makes either filter from its arguments: `append` takes one value, and `fail` takes none.
#[derive(Debug, Clone, Copy, PartialEq, Eq)]
pub enum Filters {
    Append,
    Fail,
}

impl FilterReflection for Filters {
    ghost filter_name = { filter_name };

    fn name(&self) -> &str {
        match self {
            Filters::Append => "append",
            Filters::Fail => "fail",
        }
    }

    fn description(&self) -> &str {
        match self {
            Filters::Append => "The input's text with the text of a value after it.",
            Filters::Fail => "Refuses each input.",
        }
    }

    fn positional_parameters(&self) -> &'static [ParameterReflection] {
        match self {
            Filters::Append => AppendParameters::positional_parameters(),
            Filters::Fail => &NO_PARAMETERS,
        }
    }

    fn keyword_parameters(&self) -> &'static [ParameterReflection] {
        &NO_PARAMETERS
    }
}

impl ParseFilter for Filters {
    type Filter = AnyFilter;

    ghost makes = { any_made };

    fn parse(&self, alloc: Global, arguments: FilterArguments<'_>) -> Result<AnyFilter, Error> {
        match self {
            Filters::Append => {
                let parameters = AppendParameters::from_args(alloc, arguments)?;
                Ok(AnyFilter::Append(Append { parameters }))
            }
            Filters::Fail => {
                if arguments.positional.len() == 0 && arguments.keyword.len() == 0 {
                    Ok(AnyFilter::Fail)
                } else {
                    Err(unexpected_arguments_error(alloc))
                }
            }
        }
    }
}

/// Returns the error for arguments that a filter doesn't take.
fn unexpected_arguments_error(alloc: Global) -> Error
    ensures { IfSome (told result) (λ refusal. refusal ≡ unexpected_arguments) }
{
    Error::with_msg(alloc, "Unexpected arguments")
}
