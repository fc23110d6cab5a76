//! Filters that cut a string or an array.
ghost use Rattle.std.specs.Prelude.{◌≡◌, map, IfOk};
ghost use Rattle.liquid_error.specs.meaning.Told.{Gives};
ghost use Rattle.liquid_value.specs.meaning.Cow.{cow_view};
ghost use Rattle.liquid_value.specs.meaning.Tree.{array};
ghost use Rattle.liquid_value.specs.meaning.View.{view as tree_of, items_view};
ghost use Rattle.liquid_filters.specs.meaning.string.Truncation.{slice, slice_length, sliced, sliced_items};
ghost use Rattle.liquid_filters.specs.meaning.string.Truncation.{truncate, truncated, truncated_to};
ghost use Rattle.liquid_filters.specs.meaning.string.Truncation.{truncatewords, words_truncated, words_truncated_to};

use crate::value::errors::unexpected_arguments_error;
use crate::value::numbers::whole;
use liquid_error::Error;
use liquid_scalar::ScalarOf;
use liquid_strings as strings;
use liquid_value::{Array, Value, ValueCow};
use std::alloc::{AllocError, Global};

/// Returns the text if it has at most as many characters as the first argument says, or 50. Otherwise returns its first
/// ones and the ending, the second argument or `...`, with that many in all if the ending has no more. Nil is kept.
pub fn truncate(alloc: Global, input: &Value, arguments: &[ValueCow<'_>]) -> Result<Value, Error>
    ensures { Gives tree_of result (truncate (tree_of input.now) (map cow_view arguments.now)) }
{
    match arguments {
        [] => Ok(truncate_text(alloc, input, 50, "...")?),
        [count] => truncate_to(alloc, input, count.as_view(), "..."),
        [count, ending] => {
            let ending = ending.as_view().to_kstr(alloc)?;
            truncate_to(alloc, input, count.as_view(), ending.as_str())
        }
        _ => Err(unexpected_arguments_error(alloc)),
    }
}

fn truncate_to(alloc: Global, input: &Value, count: &Value, ending: &str) -> Result<Value, Error>
    ensures { Gives tree_of result (truncated_to (tree_of count.now) ending.now (tree_of input.now)) }
{
    match input {
        Value::Nil => Ok(Value::Nil),
        text => {
            let count = whole(alloc, count)?;
            Ok(truncate_text(alloc, text, count, ending)?)
        }
    }
}

fn truncate_text(
    alloc: Global,
    input: &Value,
    count: i64,
    ending: &str,
) -> Result<Value, AllocError>
    ensures { IfOk result (λ v. tree_of v ≡ truncated count ending.now (tree_of input.now)) }
{
    match input {
        Value::Nil => Ok(Value::Nil),
        other => {
            let text = other.to_kstr(alloc)?;
            let cut = strings::truncate(alloc, text.as_str(), count, ending)?;
            Ok(Value::Scalar(ScalarOf::Str(cut)))
        }
    }
}

/// Returns the text if nothing follows the word at the first argument, or at 15. Otherwise returns the words up to that
/// one with a space between them, and the ending, the second argument or `...`. Nil is kept.
pub fn truncatewords(
    alloc: Global,
    input: &Value,
    arguments: &[ValueCow<'_>],
) -> Result<Value, Error>
    ensures { Gives tree_of result (truncatewords (tree_of input.now) (map cow_view arguments.now)) }
{
    match arguments {
        [] => Ok(truncate_words(alloc, input, 15, "...")?),
        [count] => truncate_words_to(alloc, input, count.as_view(), "..."),
        [count, ending] => {
            let ending = ending.as_view().to_kstr(alloc)?;
            truncate_words_to(alloc, input, count.as_view(), ending.as_str())
        }
        _ => Err(unexpected_arguments_error(alloc)),
    }
}

fn truncate_words_to(
    alloc: Global,
    input: &Value,
    count: &Value,
    ending: &str,
) -> Result<Value, Error>
    ensures { Gives tree_of result (words_truncated_to (tree_of count.now) ending.now (tree_of input.now)) }
{
    match input {
        Value::Nil => Ok(Value::Nil),
        text => {
            let count = whole(alloc, count)?;
            Ok(truncate_words(alloc, text, count, ending)?)
        }
    }
}

fn truncate_words(
    alloc: Global,
    input: &Value,
    count: i64,
    ending: &str,
) -> Result<Value, AllocError>
    ensures { IfOk result (λ v. tree_of v ≡ words_truncated count ending.now (tree_of input.now)) }
{
    match input {
        Value::Nil => Ok(Value::Nil),
        other => {
            let text = other.to_kstr(alloc)?;
            let cut = strings::truncate_words(alloc, text.as_str(), count, ending)?;
            Ok(Value::Scalar(ScalarOf::Str(cut)))
        }
    }
}

/// Returns the characters of the text, or the items of an array, from the place of the first argument on, as many as
/// the second argument says, or 1. A place below 0 counts from the end.
pub fn slice(alloc: Global, input: &Value, arguments: &[ValueCow<'_>]) -> Result<Value, Error>
    ensures { Gives tree_of result (slice (tree_of input.now) (map cow_view arguments.now)) }
{
    match arguments {
        [start] => {
            let start = whole(alloc, start.as_view())?;
            Ok(slice_text(alloc, input, start, 1)?)
        }
        [start, length] => {
            let start = whole(alloc, start.as_view())?;
            let length = slice_length(alloc, length.as_view())?;
            Ok(slice_text(alloc, input, start, length)?)
        }
        _ => Err(unexpected_arguments_error(alloc)),
    }
}

fn slice_length(alloc: Global, length: &Value) -> Result<i64, Error>
    ensures { Gives (λ n. n) result (slice_length (tree_of length.now)) }
{
    match length {
        Value::Nil => Ok(1),
        other => whole(alloc, other),
    }
}

fn slice_text(alloc: Global, input: &Value, start: i64, length: i64) -> Result<Value, AllocError>
    ensures { IfOk result (λ v. tree_of v ≡ sliced start length (tree_of input.now)) }
{
    match input {
        Value::Array(items) => slice_items(alloc, items, start, length),
        other => {
            let text = other.to_kstr(alloc)?;
            let part = String::from_str(alloc, strings::slice(text.as_str(), start, length))?;
            Ok(Value::Scalar(ScalarOf::Str(part)))
        }
    }
}

#[tactic(auto, using(crate::proofs::SliceLemmas::items_sliced))]
fn slice_items(alloc: Global, items: &Array, start: i64, length: i64) -> Result<Value, AllocError>
    ensures { IfOk result (λ v. tree_of v ≡ sliced_items start length (items_view items.now.items)) }
{
    array_of(alloc, strings::slice_items(items.as_slice(), start, length))
}

/// Returns the array of copies of the items.
fn array_of(alloc: Global, items: &[Value]) -> Result<Value, AllocError>
    ensures { IfOk result (λ v. tree_of v ≡ array (items_view items.now)) }
{
    Ok(Value::from(items.to_vec(alloc)?))
}
