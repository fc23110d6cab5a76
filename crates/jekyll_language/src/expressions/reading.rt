//! Reading the arguments of a filter with an expression: text literals, and the condition in one.
ghost use Rattle.std.specs.Prelude.{◌≡◌, option_map, string_bytes, IfOk, IfSome, Result};
ghost use Rattle.std.specs.Result.{result_ok};
ghost use Rattle.liquid_error.specs.meaning.Refusal.{Refusal};
ghost use Rattle.liquid_error.specs.meaning.Told.{Gives, told};
ghost use Rattle.liquid_value.specs.meaning.View.{view as tree_of};
ghost use Rattle.liquid_plugins.specs.meaning.ExpressionOf.{expression_of};
ghost use Rattle.liquid_std.specs.meaning.conditions.Conditions.{condition_of};
ghost use Rattle.liquid_std.specs.meaning.conditions.ConditionsGiven.{condition_given};
ghost use Rattle.jekyll_language.specs.meaning.expressions.Reading as Spec;

use liquid_error::Error;
use liquid_parser::Tag;
use liquid_plugins::{Expression, Meant};
use liquid_scalar::ScalarOf;
use liquid_std::conditions::Condition;
use liquid_std::conditions::read_condition::read_condition;
use liquid_value::Value;
use liquid_value::render::ValueSource;
use std::alloc::{AllocError, Global};

/// Returns the text that an argument is. Any other argument than a string literal is an error.
pub(crate) fn text_literal<'e>(alloc: Global, argument: &'e Expression) -> Result<&'e str, Error>
    ensures { Gives (λ t. t.now) result (Spec.text_literal (expression_of argument.now)) }
{
    match argument {
        Expression::Literal(Value::Scalar(ScalarOf::Str(text))) => Ok(text.as_str()),
        Expression::Literal(value) => Err(expression_expected(alloc, value)),
        Expression::Variable(_) => Err(variable_found(alloc, argument)),
    }
}

/// Returns the error for a variable, which is shown as a string.
fn variable_found(alloc: Global, argument: &Expression) -> Error
    ensures { IfSome (told result) (λ r. r ≡ Spec.variable_found (expression_of argument.now)) }
{
    match format!(in alloc; "{argument}") {
        Ok(text) => text_found(alloc, text),
        Err(_) => Error::Memory,
    }
}

/// Returns the condition that a string is, as the tag `if` would have it. A string that is none is an error.
pub(crate) fn read_text(alloc: Global, text: &str) -> Result<Condition, Error>
    ensures { Gives condition_of result (Spec.condition_read text.now) }
{
    match condition_in(alloc, text)? {
        Some(condition) => Ok(condition),
        None => Err(text_found(alloc, String::from_str(alloc, text)?)),
    }
}

/// Returns the condition that a string is, if it is one.
fn condition_in(alloc: Global, text: &str) -> Result<Option<Condition>, AllocError>
    ensures { IfOk result (λ c. option_map condition_of c ≡ Spec.condition_in text.now) }
{
    let source = if_tag(alloc, text)?;
    if_read(read_tag(alloc, source.as_str()))
}

fn if_tag(alloc: Global, text: &str) -> Result<String, AllocError>
    ensures { IfOk result (λ t. string_bytes t ≡ Spec.if_tag text.now) }
{
    format!(in alloc; "{{% if {text} %}}")
}

/// Reads a tag whose tokens are a condition, and returns the first error otherwise.
fn read_tag(alloc: Global, source: &str) -> Result<Condition, Error>
    ensures { Gives condition_of result (Spec.tag_read condition_given source.now) }
{
    match Tag::new(alloc, source) {
        Ok(tag) => read_condition(alloc, tag.into_tokens()),
        Err(error) => Err(error),
    }
}

/// Returns what was read, if it was read. Fails only if memory ran out.
pub(crate) fn if_read<T: Meant + Drop>(read: Result<T, Error>) -> Result<Option<T>, AllocError>
    ensures { IfOk result (λ o. (m : Result T.Shape Refusal) → Gives T.shape read m → option_map T.shape o ≡ result_ok m) }
{
    match read {
        Ok(it) => Ok(Some(it)),
        Err(error) => if error.is_memory() {
            Err(AllocError)
        } else {
            Ok(None)
        },
    }
}

/// Returns the error for a string that is not what it has to be.
pub(crate) fn text_found(alloc: Global, text: String) -> Error
    ensures { IfSome (told result) (λ r. r ≡ Spec.text_found (string_bytes text)) }
{
    expression_expected(alloc, &Value::Scalar(ScalarOf::Str(text)))
}

/// Returns the error for an argument that is not what it has to be.
fn expression_expected(alloc: Global, value: &Value) -> Error
    ensures { IfSome (told result) (λ r. r ≡ Spec.expression_expected (tree_of value.now)) }
{
    match ValueSource::new(value).to_string(alloc) {
        Ok(source) => {
            Error::with_msg(alloc, "Expression expected").context(alloc, "found", source.as_str())
        }
        Err(_) => Error::Memory,
    }
}
