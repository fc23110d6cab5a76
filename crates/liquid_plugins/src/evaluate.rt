//! The evaluation of expressions over a runtime.
ghost use Rattle.std.specs.Prelude.{ok_or, ◌≡◌, string_bytes, Err, IfOk, IfSome, Result, option_map};
ghost use Rattle.liquid_error.specs.meaning.Refusal.{Refusal};
ghost use Rattle.liquid_error.specs.meaning.Told.{told, Gives};
ghost use Rattle.liquid_scalar.specs.meaning.Scalar.{scal};
ghost use Rattle.liquid_value.specs.meaning.Cow.{cow_view};
ghost use Rattle.liquid_value.specs.meaning.Parts.{as_scalar};
ghost use Rattle.liquid_value.specs.meaning.View.{view as tree_of};
ghost use Rattle.liquid_runtime.specs.meaning.Made.{InPlaceOrMade};
ghost use Rattle.liquid_paths.specs.meaning.PathOf.{index_of, path_of};
ghost use Rattle.liquid_paths.specs.meaning.Walk.{Path as IndexPath};
ghost use Rattle.liquid_runtime.specs.meaning.InPlaceOrNil.{InPlaceOrNil};
ghost use Rattle.liquid_plugins.specs.meaning.Evaluation.{Finds, at_path, evaluate, expected_scalar};
ghost use Rattle.liquid_plugins.specs.meaning.Evaluation.{try_evaluate, named_path, try_named_path};
ghost use Rattle.liquid_plugins.specs.meaning.ExpressionOf.{expression_of, expressions_of, name_of, own_indexes_of};

use crate::borrowed::borrow_value;
use crate::expression::{Expression, Variable, VariableOf};
use liquid_error::Error;
use liquid_paths::Path;
use liquid_runtime::Runtime;
use liquid_scalar::{Scalar, ScalarCow, ScalarOf};
use liquid_value::render::ValueSource;
use liquid_value::{Value, ValueCow};
use std::alloc::{AllocError, Global};
use std::borrow::CowStr;

impl Expression {
    /// Returns the value of the expression, or the first error from the left: a literal's value, or what the runtime
    /// has at a variable's path, by `get`. A value that exists in either is borrowed.
    #[tactic(auto, using(crate::proofs::BorrowedValues::borrowed_value))]
    pub fn evaluate<'c, R: Runtime>(
        &'c self,
        alloc: Global,
        runtime: &'c R,
    ) -> Result<ValueCow<'c>, Error>
        ensures gives { Gives cow_view result (evaluate (R.view runtime.now) (expression_of self.now)) }
        ensures in_place { IfOk result InPlaceOrNil }
    {
        match borrow_value(alloc, self, runtime) {
            Some(value) => Ok(value),
            None => evaluate(alloc, self, runtime),
        }
    }

    /// Returns the value of the expression, if it has one. An `Err` means out of memory.
    pub fn try_evaluate<'c, R: Runtime>(
        &'c self,
        alloc: Global,
        runtime: &'c R,
    ) -> Result<Option<ValueCow<'c>>, AllocError>
        ensures gives { Finds cow_view result (try_evaluate (R.view runtime.now) (expression_of self.now)) }
        ensures in_place { IfOk result (λ value. IfSome value InPlaceOrMade) }
    {
        match borrow_value(alloc, self, runtime) {
            Some(value) => Ok(Some(value)),
            None => try_evaluate(alloc, self, runtime),
        }
    }
}

impl VariableOf<Expression> {
    /// Returns the path of the variable, or the first error of an index from the left.
    pub fn evaluate<'c, R: Runtime>(
        &'c self,
        alloc: Global,
        runtime: &'c R,
    ) -> Result<Path<'c>, Error>
        ensures { Gives path_of result (named_path (R.view runtime.now) (name_of self.now) (own_indexes_of self.now)) }
    {
        named_path(alloc, &self.variable, &self.indexes, runtime)
    }

    /// Returns the path of the variable, if the value of each index is a scalar. An `Err` means out of memory.
    pub fn try_evaluate<'c, R: Runtime>(
        &'c self,
        alloc: Global,
        runtime: &'c R,
    ) -> Result<Option<Path<'c>>, AllocError>
        ensures { Finds path_of result (try_named_path (R.view runtime.now) (name_of self.now) (own_indexes_of self.now)) }
    {
        try_named_path(alloc, &self.variable, &self.indexes, runtime)
    }
}

/// Returns the value of the expression, or the first error from the left.
#[cycle(evaluate)]
fn evaluate<'c, R: Runtime>(
    alloc: Global,
    expression: &'c Expression,
    runtime: &'c R,
) -> Result<ValueCow<'c>, Error>
    ensures gives { Gives cow_view result (evaluate (R.view runtime.now) (expression_of expression.now)) }
    ensures in_place { IfOk result InPlaceOrNil }
{
    match expression {
        Expression::Literal(value) => Ok(ValueCow::Borrowed(value)),
        Expression::Variable(variable) => {
            match named_path(alloc, &variable.variable, &variable.indexes, runtime) {
                Ok(path) => runtime.get(alloc, path.as_slice()),
                Err(error) => nil_or_error(error, runtime),
            }
        }
    }
}

/// Returns nil in place of the error of an index, if the runtime is lenient in indexes.
fn nil_or_error<'c, R: Runtime>(error: Error, runtime: &'c R) -> Result<ValueCow<'c>, Error>
    ensures gives { (path : Result IndexPath Refusal) → IfSome (told error) (λ refusal. path ≡ Err refusal)
        → Gives cow_view result (at_path (R.view runtime.now) path) }
    ensures in_place { IfOk result InPlaceOrNil }
{
    if !error.is_memory() && runtime.leniency().includes_indexes() {
        return Ok(ValueCow::Owned(Value::default()));
    }
    Err(error)
}

/// Returns the path of a name and of the values of the indexes, from left to right.
#[cycle(evaluate)]
fn named_path<'c, R: Runtime>(
    alloc: Global,
    name: &'c Scalar,
    indexes: &'c Vec<Expression>,
    runtime: &'c R,
) -> Result<Path<'c>, Error>
    ensures { Gives path_of result (named_path (R.view runtime.now) (scal string_bytes name.now) (expressions_of indexes.now.items)) }
{
    let mut path = Path::with_index(alloc, name.as_ref())?;
    for index in indexes {
        let value = evaluate(alloc, index, runtime)?;
        path.push(index_of(alloc, value)?)?;
    }
    Ok(path)
}

/// Returns the value of the expression, if it has one.
#[cycle(try_evaluate)]
fn try_evaluate<'c, R: Runtime>(
    alloc: Global,
    expression: &'c Expression,
    runtime: &'c R,
) -> Result<Option<ValueCow<'c>>, AllocError>
    ensures gives { Finds cow_view result (try_evaluate (R.view runtime.now) (expression_of expression.now)) }
    ensures in_place { IfOk result (λ value. IfSome value InPlaceOrMade) }
{
    match expression {
        Expression::Literal(value) => Ok(Some(ValueCow::Borrowed(value))),
        Expression::Variable(variable) => {
            match try_named_path(alloc, &variable.variable, &variable.indexes, runtime)? {
                Some(path) => runtime.try_get(alloc, path.as_slice()),
                None => Ok(None),
            }
        }
    }
}

/// Returns the path of a name and of the values of the indexes, if each is a scalar.
#[cycle(try_evaluate)]
fn try_named_path<'c, R: Runtime>(
    alloc: Global,
    name: &'c Scalar,
    indexes: &'c Vec<Expression>,
    runtime: &'c R,
) -> Result<Option<Path<'c>>, AllocError>
    ensures { Finds path_of result (try_named_path (R.view runtime.now) (scal string_bytes name.now) (expressions_of indexes.now.items)) }
{
    let mut path = Path::with_index(alloc, name.as_ref())?;
    for index in indexes {
        match try_evaluate(alloc, index, runtime)? {
            Some(value) => match scalar_of(value) {
                Some(scalar) => path.push(scalar)?,
                None => return Ok(None),
            },
            None => return Ok(None),
        }
    }
    Ok(Some(path))
}

/// Returns the scalar of a value, if it is one.
fn scalar_of<'c>(value: ValueCow<'c>) -> Option<ScalarCow<'c>>
    ensures { option_map index_of result ≡ as_scalar (cow_view value.entry) }
{
    match value {
        ValueCow::Borrowed(value) => match value {
            Value::Scalar(scalar) => Some(scalar.as_ref()),
            _ => None,
        },
        ValueCow::Owned(value) => match value {
            Value::Scalar(scalar) => Some(owned_index(scalar)),
            _ => None,
        },
    }
}

/// Returns the scalar of an index's value, or the error if it is not a scalar.
fn index_of<'c>(alloc: Global, value: ValueCow<'c>) -> Result<ScalarCow<'c>, Error>
    ensures { Gives index_of result (ok_or (as_scalar (cow_view value.entry)) (expected_scalar (cow_view value.entry))) }
{
    match value {
        ValueCow::Borrowed(value) => match value {
            Value::Scalar(scalar) => Ok(scalar.as_ref()),
            _ => Err(expected_scalar_error(alloc, value)),
        },
        ValueCow::Owned(value) => match value {
            Value::Scalar(scalar) => Ok(owned_index(scalar)),
            other => Err(expected_scalar_error(alloc, &other)),
        },
    }
}

/// Returns the error for an index that is not a scalar.
fn expected_scalar_error(alloc: Global, value: &Value) -> Error
    ensures { IfSome (told result) (λ r. r ≡ expected_scalar (tree_of value.now)) }
{
    match ValueSource::new(value).to_string(alloc) {
        Ok(source) => Error::with_msg(alloc, "Expected scalar").context(
            alloc,
            "found",
            source.as_str(),
        ),
        Err(_) => Error::Memory,
    }
}

/// Returns the same scalar with a text that may be borrowed.
fn owned_index<'c>(scalar: Scalar) -> ScalarCow<'c>
    ensures { index_of result ≡ scal string_bytes scalar }
{
    match scalar {
        ScalarOf::Integer(number) => ScalarOf::Integer(number),
        ScalarOf::Bool(truth) => ScalarOf::Bool(truth),
        ScalarOf::Str(text) => ScalarOf::Str(CowStr::Owned(text)),
        ScalarOf::Date(date) => ScalarOf::Date(date),
        ScalarOf::DateTime(date_time) => ScalarOf::DateTime(date_time),
    }
}
