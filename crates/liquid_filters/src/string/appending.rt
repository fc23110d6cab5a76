//! Filters that join two strings.
ghost use Rattle.std.specs.Prelude.{map, Ok};
ghost use Rattle.liquid_error.specs.meaning.Told.{Gives};
ghost use Rattle.liquid_value.specs.meaning.Cow.{cow_view};
ghost use Rattle.liquid_value.specs.meaning.View.{view as tree_of};
ghost use Rattle.liquid_filters.specs.meaning.string.Appending.{appended, joined, prepended};

use crate::value::errors::unexpected_arguments_error;
use liquid_error::Error;
use liquid_scalar::ScalarOf;
use liquid_value::render::ValueRender;
use liquid_value::{Value, ValueCow};
use std::alloc::Global;

/// The most bytes that an integer is written in.
const DIGITS: usize = 20;

/// Returns the text, followed by that of the argument.
pub fn append(alloc: Global, input: &Value, arguments: &[ValueCow<'_>]) -> Result<Value, Error>
    ensures { Gives tree_of result (appended (tree_of input.now) (map cow_view arguments.now)) }
{
    match arguments {
        [back] => join(alloc, input, back.as_view()),
        _ => Err(unexpected_arguments_error(alloc)),
    }
}

/// Returns the text of the argument, followed by the text.
pub fn prepend(alloc: Global, input: &Value, arguments: &[ValueCow<'_>]) -> Result<Value, Error>
    ensures { Gives tree_of result (prepended (tree_of input.now) (map cow_view arguments.now)) }
{
    match arguments {
        [front] => join(alloc, front.as_view(), input),
        _ => Err(unexpected_arguments_error(alloc)),
    }
}

/// Returns the texts of both values as one. Its room is made once, unless both are longer than expected.
fn join(alloc: Global, front: &Value, back: &Value) -> Result<Value, Error>
    ensures { Gives tree_of result (Ok (joined (tree_of front.now) (tree_of back.now))) }
{
    let mut text = String::with_capacity(alloc, width(front).saturating_add(width(back)))?;
    write!(
        text,
        "{}{}",
        ValueRender::new(front),
        ValueRender::new(back)
    )?;
    Ok(Value::Scalar(ScalarOf::Str(text)))
}

/// Returns how many bytes to expect of the text of a value: those of a string, and room for a number otherwise.
fn width(value: &Value) -> usize {
    match value {
        Value::Scalar(ScalarOf::Str(text)) => text.len(),
        _ => DIGITS,
    }
}
