//! Walks from a value along a path.
ghost use Rattle.std.specs.Prelude.{◌≡◌, take, drop, Some, IfOk, IfSome, option_map, string_bytes};
ghost use Rattle.liquid_value.specs.meaning.Cow.{cow_view};
ghost use Rattle.liquid_value.specs.meaning.View.{view, items_view, members_view};
ghost use Rattle.liquid_value.specs.meaning.Members.{item_count};
ghost use Rattle.liquid_error.specs.meaning.Told.{told, Gives, Becomes};
ghost use Rattle.liquid_value.specs.meaning.Names.{names};
ghost use Rattle.liquid_paths.specs.meaning.Step.{step};
ghost use Rattle.liquid_paths.specs.meaning.Walk.{walk, find, find_after, unknown_index, with_front, indexes, count_indexes, listed};
ghost use Rattle.liquid_paths.specs.meaning.PathOf.{index_of, indexes_of};
ghost use Rattle.liquid_paths.specs.meaning.InPlace.{InPlace, IsNumber};

use crate::path::PathText;
use crate::steps::step;
use liquid_error::Error;
use liquid_scalar::ScalarCow;
use liquid_value::{Object, Value, ValueCow};
use std::alloc::{AllocError, Global};

/// Returns the value at the end of a path, or `None` if an index on the way has nothing at it. The empty path leads to
/// the value itself. What is found is borrowed in place, and only a `size` is made. An `Err` means out of memory.
pub fn try_find<'v>(
    alloc: Global,
    value: &'v Value,
    path: &[ScalarCow<'_>],
) -> Result<Option<ValueCow<'v>>, AllocError>
    ensures gives { IfOk result (λ found. option_map cow_view found ≡ walk (view value.now) (indexes_of path.now)) }
    ensures in_place { IfOk result (λ found. IfSome found InPlace) }
{
    let mut at = ValueCow::Borrowed(value);
    for index in path {
        at = match step_on(alloc, &at, index)? {
            Some(next) => next,
            None => return Ok(None),
        };
    }
    Ok(Some(at))
}

/// Takes one more step: from a borrowed value to its borrowed part, and from an owned one to an owned one.
fn step_on<'v>(
    alloc: Global,
    at: &ValueCow<'v>,
    index: &ScalarCow<'_>,
) -> Result<Option<ValueCow<'v>>, AllocError>
    ensures gives { IfOk result (λ found. option_map cow_view found ≡ step (cow_view at.now) (index_of index.now)) }
    ensures in_place { InPlace at.now → IfOk result (λ found. IfSome found InPlace) }
{
    match at {
        ValueCow::Borrowed(value) => step(alloc, *value, index),
        ValueCow::Owned(value) => match step_owned(alloc, value, index)? {
            Some(part) => Ok(Some(ValueCow::Owned(part))),
            None => Ok(None),
        },
    }
}

fn step_owned(
    alloc: Global,
    value: &Value,
    index: &ScalarCow<'_>,
) -> Result<Option<Value>, AllocError>
    ensures gives { IfOk result (λ found. option_map view found ≡ step (view value.now) (index_of index.now)) }
    ensures number { IsNumber (view value.now) → IfOk result (λ found. IfSome found (λ part. IsNumber (view part))) }
{
    match step(alloc, value, index)? {
        Some(part) => Ok(Some(part.into_owned()?)),
        None => Ok(None),
    }
}

/// Returns the value at the end of a path, borrowed as by `try_find`.
///
/// If an index on the way has nothing at it, the error is "Unknown index", with the contexts `variable` (the indexes
/// before that one, joined by `.`, unless it is the path's first), `requested index` (its text) and `available indexes`
/// (those that the value before it has, joined by `, `).
pub fn find<'v>(
    alloc: Global,
    value: &'v Value,
    path: &[ScalarCow<'_>],
) -> Result<ValueCow<'v>, Error>
    ensures gives { Gives cow_view result (find (view value.now) (indexes_of path.now)) }
    ensures in_place { IfOk result InPlace }
{
    find_after(alloc, 0, value, path)
}

/// Returns the value at the end of a path whose first `front` indexes have led to `value`.
///
/// The walk begins after them. If an index on the way has nothing at it, the error is that of `find`, and it shows them
/// in `variable`. If the path has no index after them, the result is `value`.
pub fn find_after<'v>(
    alloc: Global,
    front: usize,
    value: &'v Value,
    path: &[ScalarCow<'_>],
) -> Result<ValueCow<'v>, Error>
    ensures gives { Gives cow_view result (find_after (indexes_of (take front path.now)) (view value.now)
        (indexes_of (drop front path.now))) }
    ensures in_place { IfOk result InPlace }
{
    let mut at = ValueCow::Borrowed(value);
    for place in front..path.len() {
        let index = &path[place];
        at = match step_on(alloc, &at, index)? {
            Some(next) => next,
            None => return Err(unknown_index_error(alloc, &path[..place], at.as_view(), index)),
        };
    }
    Ok(at)
}

/// Returns the error for an index that the value after the front does not have.
fn unknown_index_error(
    alloc: Global,
    front: &[ScalarCow<'_>],
    value: &Value,
    index: &ScalarCow<'_>,
) -> Error
    ensures { IfSome (told result) (λ r. r ≡ unknown_index (indexes_of front.now) (view value.now) (index_of index.now)) }
{
    let error = with_front(alloc, front, Error::with_msg(alloc, "Unknown index"));
    let requested = match index.to_kstr(alloc) {
        Ok(text) => text,
        Err(_) => return Error::Memory,
    };
    let available = match available_indexes(alloc, value) {
        Ok(text) => text,
        Err(_) => return Error::Memory,
    };
    error
        .context(alloc, "requested index", requested.as_str())
        .context(alloc, "available indexes", available.as_str())
}

fn with_front(alloc: Global, front: &[ScalarCow<'_>], error: Error) -> Error
    ensures { Becomes (with_front (indexes_of front.now)) error result }
{
    if front.is_empty() {
        return error;
    }
    match (PathText { indexes: front }).to_string(alloc) {
        Ok(text) => error.context(alloc, "variable", text.as_str()),
        Err(_) => Error::Memory,
    }
}

fn available_indexes(alloc: Global, value: &Value) -> Result<String, AllocError>
    ensures { IfOk result (λ t. string_bytes t ≡ listed (indexes (view value.now))) }
{
    match value {
        Value::Array(items) => array_indexes(alloc, items.as_slice()),
        Value::Object(members) => object_indexes(alloc, members),
        Value::Scalar(_) | Value::State(_) | Value::Nil => Ok(String::new(alloc)),
    }
}

#[tactic(auto, using(crate::proofs::Refusals::indexes_by_count))]
fn array_indexes(alloc: Global, items: &[Value]) -> Result<String, AllocError>
    ensures { IfOk result (λ t. string_bytes t ≡ listed (count_indexes (item_count (items_view items.now)))) }
{
    counted_indexes(alloc, items.len())
}

fn counted_indexes(alloc: Global, length: usize) -> Result<String, AllocError>
    ensures { IfOk result (λ t. string_bytes t ≡ listed (count_indexes length)) }
{
    if length == 0 {
        String::from_str(alloc, "first, last")
    } else {
        let last = length - 1;
        format!(in alloc; "0..{last}, first, last")
    }
}

fn object_indexes(alloc: Global, members: &Object) -> Result<String, AllocError>
    ensures { IfOk result (λ t. string_bytes t ≡ listed (names (members_view members.now.entries))) }
{
    let mut text = String::new(alloc);
    let mut is_first = true;
    for (name, _) in members.iter() {
        if !is_first {
            text.push_str(", ")?;
        }
        text.push_str(name.as_str())?;
        is_first = false;
    }
    Ok(text)
}
