//! Filters that replace or remove parts of a string.
ghost use Rattle.std.specs.Prelude.{map, Ok};
ghost use Rattle.liquid_error.specs.meaning.Told.{Gives};
ghost use Rattle.liquid_value.specs.meaning.Cow.{cow_view};
ghost use Rattle.liquid_value.specs.meaning.Render.{render};
ghost use Rattle.liquid_value.specs.meaning.View.{view as tree_of};
ghost use Rattle.liquid_strings.specs.meaning.Replace.{replaced, replaced_first, replaced_last};
ghost use Rattle.liquid_filters.specs.meaning.string.Replacement.{remove, remove_first, remove_last, replace, replace_first, replace_last};
ghost use Rattle.liquid_filters.specs.meaning.string.Written.{written};

use crate::value::errors::unexpected_arguments_error;
use liquid_error::Error;
use liquid_scalar::ScalarOf;
use liquid_strings as strings;
use liquid_value::{Value, ValueCow};
use std::alloc::Global;

/// Returns the text with the second argument, or nothing, in each place of the first.
pub fn replace(alloc: Global, input: &Value, arguments: &[ValueCow<'_>]) -> Result<Value, Error>
    ensures { Gives tree_of result (replace (tree_of input.now) (map cow_view arguments.now)) }
{
    match arguments {
        [search] => replace_each(alloc, input, search, ""),
        [search, by] => {
            let by = by.as_view().to_kstr(alloc)?;
            replace_each(alloc, input, search, by.as_str())
        }
        _ => Err(unexpected_arguments_error(alloc)),
    }
}

/// Returns the text with the second argument, or nothing, in the first place of the first.
pub fn replace_first(
    alloc: Global,
    input: &Value,
    arguments: &[ValueCow<'_>],
) -> Result<Value, Error>
    ensures { Gives tree_of result (replace_first (tree_of input.now) (map cow_view arguments.now)) }
{
    match arguments {
        [search] => replace_at_first(alloc, input, search, ""),
        [search, by] => {
            let by = by.as_view().to_kstr(alloc)?;
            replace_at_first(alloc, input, search, by.as_str())
        }
        _ => Err(unexpected_arguments_error(alloc)),
    }
}

/// Returns the text with the second argument in the last place of the first.
pub fn replace_last(
    alloc: Global,
    input: &Value,
    arguments: &[ValueCow<'_>],
) -> Result<Value, Error>
    ensures { Gives tree_of result (replace_last (tree_of input.now) (map cow_view arguments.now)) }
{
    match arguments {
        [search, by] => {
            let by = by.as_view().to_kstr(alloc)?;
            replace_at_last(alloc, input, search, by.as_str())
        }
        _ => Err(unexpected_arguments_error(alloc)),
    }
}

/// Returns the text without the places of the argument.
pub fn remove(alloc: Global, input: &Value, arguments: &[ValueCow<'_>]) -> Result<Value, Error>
    ensures { Gives tree_of result (remove (tree_of input.now) (map cow_view arguments.now)) }
{
    match arguments {
        [part] => replace_each(alloc, input, part, ""),
        _ => Err(unexpected_arguments_error(alloc)),
    }
}

/// Returns the text without the first place of the argument.
pub fn remove_first(
    alloc: Global,
    input: &Value,
    arguments: &[ValueCow<'_>],
) -> Result<Value, Error>
    ensures { Gives tree_of result (remove_first (tree_of input.now) (map cow_view arguments.now)) }
{
    match arguments {
        [part] => replace_at_first(alloc, input, part, ""),
        _ => Err(unexpected_arguments_error(alloc)),
    }
}

/// Returns the text without the last place of the argument.
pub fn remove_last(alloc: Global, input: &Value, arguments: &[ValueCow<'_>]) -> Result<Value, Error>
    ensures { Gives tree_of result (remove_last (tree_of input.now) (map cow_view arguments.now)) }
{
    match arguments {
        [part] => replace_at_last(alloc, input, part, ""),
        _ => Err(unexpected_arguments_error(alloc)),
    }
}

/// Returns the text with `by` in each place of what is searched for.
fn replace_each(
    alloc: Global,
    input: &Value,
    search: &ValueCow<'_>,
    by: &str,
) -> Result<Value, Error>
    ensures { Gives tree_of result (Ok (written (replaced (render (cow_view search.now)) by.now (render (tree_of input.now))))) }
{
    let text = input.to_kstr(alloc)?;
    let search = search.as_view().to_kstr(alloc)?;
    let replaced = strings::replace(alloc, text.as_str(), search.as_str(), by)?;
    Ok(Value::Scalar(ScalarOf::Str(replaced)))
}

/// Returns the text with `by` in the first place of what is searched for.
fn replace_at_first(
    alloc: Global,
    input: &Value,
    search: &ValueCow<'_>,
    by: &str,
) -> Result<Value, Error>
    ensures { Gives tree_of result (Ok (written (replaced_first (render (cow_view search.now)) by.now (render (tree_of input.now))))) }
{
    let text = input.to_kstr(alloc)?;
    let search = search.as_view().to_kstr(alloc)?;
    let replaced = strings::replace_first(alloc, text.as_str(), search.as_str(), by)?;
    Ok(Value::Scalar(ScalarOf::Str(replaced)))
}

/// Returns the text with `by` in the last place of what is searched for.
fn replace_at_last(
    alloc: Global,
    input: &Value,
    search: &ValueCow<'_>,
    by: &str,
) -> Result<Value, Error>
    ensures { Gives tree_of result (Ok (written (replaced_last (render (cow_view search.now)) by.now (render (tree_of input.now))))) }
{
    let text = input.to_kstr(alloc)?;
    let search = search.as_view().to_kstr(alloc)?;
    let replaced = strings::replace_last(alloc, text.as_str(), search.as_str(), by)?;
    Ok(Value::Scalar(ScalarOf::Str(replaced)))
}
