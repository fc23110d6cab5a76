//! The filter that splits a string.
ghost use Rattle.std.specs.Prelude.{◌≡◌, map, IfOk};
ghost use Rattle.liquid_error.specs.meaning.Told.{Gives};
ghost use Rattle.liquid_value.specs.meaning.Cow.{cow_view};
ghost use Rattle.liquid_value.specs.meaning.View.{view as tree_of};
ghost use Rattle.liquid_filters.specs.meaning.string.Splitting.{split, texts};

use crate::value::errors::unexpected_arguments_error;
use liquid_error::Error;
use liquid_scalar::ScalarOf;
use liquid_strings as strings;
use liquid_value::{Value, ValueCow};
use std::alloc::{AllocError, Global};

/// Returns the parts of the text: its words if the argument is a space, its characters if that is empty, and otherwise
/// what is between the places of the argument, without empty parts at the end.
pub fn split(alloc: Global, input: &Value, arguments: &[ValueCow<'_>]) -> Result<Value, Error>
    ensures { Gives tree_of result (split (tree_of input.now) (map cow_view arguments.now)) }
{
    match arguments {
        [separator] => {
            let text = input.to_kstr(alloc)?;
            let separator = separator.as_view().to_kstr(alloc)?;
            let parts = strings::split(alloc, text.as_str(), separator.as_str())?;
            let array = array_of(alloc, parts.as_slice())?;
            Ok(array)
        }
        _ => Err(unexpected_arguments_error(alloc)),
    }
}

/// Returns the array of the strings.
fn array_of(alloc: Global, parts: &[&str]) -> Result<Value, AllocError>
    ensures { IfOk result (λ v. tree_of v ≡ texts (map (λ p. p.now) parts.now)) }
{
    let mut items = Vec::with_capacity(alloc, parts.len())?;
    for part in parts {
        items.push(Value::Scalar(ScalarOf::Str(String::from_str(alloc, *part)?)))?;
    }
    Ok(Value::from(items))
}
