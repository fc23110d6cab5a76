//! Filters that cut whitespace off the ends of a string.
ghost use Rattle.std.specs.Prelude.{Ok};
ghost use Rattle.liquid_error.specs.meaning.Told.{Gives};
ghost use Rattle.liquid_value.specs.meaning.View.{view as tree_of};
ghost use Rattle.liquid_filters.specs.meaning.string.Stripping.{left_stripped, right_stripped, stripped};

use liquid_error::Error;
use liquid_scalar::ScalarOf;
use liquid_value::Value;
use std::alloc::Global;

/// Returns the text without the whitespace at its start and at its end.
pub fn strip(alloc: Global, input: &Value) -> Result<Value, Error>
    ensures { Gives tree_of result (Ok (stripped (tree_of input.now))) }
{
    let text = input.to_kstr(alloc)?;
    let answer = String::from_str(alloc, text.as_str().trim())?;
    Ok(Value::Scalar(ScalarOf::Str(answer)))
}

/// Returns the text without the whitespace at its start.
pub fn lstrip(alloc: Global, input: &Value) -> Result<Value, Error>
    ensures { Gives tree_of result (Ok (left_stripped (tree_of input.now))) }
{
    let text = input.to_kstr(alloc)?;
    let answer = String::from_str(alloc, text.as_str().trim_start())?;
    Ok(Value::Scalar(ScalarOf::Str(answer)))
}

/// Returns the text without the whitespace at its end.
pub fn rstrip(alloc: Global, input: &Value) -> Result<Value, Error>
    ensures { Gives tree_of result (Ok (right_stripped (tree_of input.now))) }
{
    let text = input.to_kstr(alloc)?;
    let answer = String::from_str(alloc, text.as_str().trim_end())?;
    Ok(Value::Scalar(ScalarOf::Str(answer)))
}
