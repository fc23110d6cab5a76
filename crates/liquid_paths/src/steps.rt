//! One step from a value by an index.
ghost use Rattle.std.specs.Prelude.{◌≡◌, ◌<◌, ◌^◌, IfOk, IfSome, Some, length, option_map, pos, string_bytes};
ghost use Rattle.std.specs.Option.{option_or};
ghost use Rattle.liquid_value.specs.meaning.Cow.{cow_view};
ghost use Rattle.liquid_scalar.specs.meaning.Scalar.{scal, integer, render_scalar};
ghost use Rattle.liquid_value.specs.meaning.Members.{get_member, member_count};
ghost use Rattle.liquid_value.specs.meaning.Tree.{scalar, array, object};
ghost use Rattle.liquid_value.specs.meaning.View.{view, items_view, members_view};
ghost use Rattle.liquid_value.specs.meaning.Place.{place_at, item_at};
ghost use Rattle.liquid_paths.specs.meaning.Step.{own_part, step, size_asked, item_asked};
ghost use Rattle.liquid_paths.specs.meaning.PathOf.{index_of};
ghost use Rattle.liquid_paths.specs.meaning.InPlace.{InPlace};

use liquid_scalar::{Scalar, ScalarCow, ScalarOf};
use liquid_value::{Object, Value, ValueCow};
use std::alloc::{AllocError, Global};

/// Takes one step from a value by an index. Returns `None` if the value has nothing at the index.
///
/// An array has the item at the index's number, counted from the end if it is negative; otherwise the words `first`,
/// `last` and `size`. An object has its own keys, otherwise the word `size`. A scalar has the `size` of its text in
/// bytes. What is found is borrowed, and only a size is made. An `Err` means out of memory.
pub fn step<'v>(
    alloc: Global,
    value: &'v Value,
    index: &ScalarCow<'_>,
) -> Result<Option<ValueCow<'v>>, AllocError>
    ensures gives { IfOk result (λ found. option_map cow_view found ≡ step (view value.now) (index_of index.now)) }
    ensures in_place { IfOk result (λ found. IfSome found InPlace) }
{
    match value {
        Value::Array(items) => step_array(alloc, items.as_slice(), index),
        Value::Object(members) => step_object(alloc, members, index),
        Value::Scalar(scalar) => step_scalar(alloc, scalar, index),
        Value::State(_) | Value::Nil => Ok(None),
    }
}

/// Returns the member of an object at a text, or the item of an array at an integer. It takes no memory.
///
/// If it returns `None`, a step by the index may still lead somewhere: to a size, to `first` or `last`, or by a scalar
/// of another kind.
pub fn own_part<'v>(value: &'v Value, index: &Scalar) -> Option<&'v Value>
    ensures part { option_map (λ part. view part.now) result ≡ own_part (view value.now) (scal string_bytes index.now) }
    ensures leads { IfSome result (λ part. step (view value.now) (scal string_bytes index.now) ≡ Some (view part.now)) }
{
    match (value, index) {
        (Value::Object(members), ScalarOf::Str(word)) => member_at(members, word.as_str()),
        (Value::Array(items), ScalarOf::Integer(number)) => item_at(items.as_slice(), *number),
        _ => None,
    }
}

fn step_array<'v>(
    alloc: Global,
    items: &'v [Value],
    index: &ScalarCow<'_>,
) -> Result<Option<ValueCow<'v>>, AllocError>
    ensures gives { IfOk result (λ found. option_map cow_view found ≡ step (array (items_view items.now)) (index_of index.now)) }
    ensures in_place { IfOk result (λ found. IfSome found InPlace) }
{
    if let Some(number) = index.to_integer() {
        if let Some(item) = item_at(items, number) {
            return Ok(Some(ValueCow::Borrowed(item)));
        }
    }
    let word = index.to_kstr(alloc)?;
    Ok(item_asked(items, word.as_str()))
}

#[tactic(auto, using(crate::proofs::Values::count_of_values, crate::proofs::Values::made_in_place))]
fn item_asked<'v>(items: &'v [Value], word: &str) -> Option<ValueCow<'v>>
    ensures gives { option_map cow_view result ≡ item_asked word.now (items_view items.now) }
    ensures in_place { IfSome result InPlace }
{
    match word {
        "first" => borrow_item(item_at(items, 0)),
        "last" => borrow_item(item_at(items, -1)),
        "size" => Some(number(items.len())),
        _ => None,
    }
}

fn number<'v>(count: usize) -> ValueCow<'v>
    requires { count < 2 ^ 63 }
    ensures { cow_view result ≡ scalar (integer (pos count)) }
{
    ValueCow::Owned(Value::Scalar(ScalarOf::Integer(count as i64)))
}

/// Returns the place in a list that an index names, counted from the front, or from the end if it is negative.
fn place_at(index: i64, length: usize) -> Option<usize>
    ensures { result ≡ place_at index length }
{
    if index < 0 {
        let back = index.unsigned_abs();
        if back <= length as u64 {
            Some(length - back as usize)
        } else {
            None
        }
    } else {
        let place = index as usize;
        if place < length { Some(place) } else { None }
    }
}

fn item_at(items: &[Value], index: i64) -> Option<&Value>
    ensures { option_map (λ x. view x.now) result ≡ item_at index (items_view items.now) }
{
    match place_at(index, items.len()) {
        Some(place) => items.get(place),
        None => None,
    }
}

fn borrow_item(item: Option<&Value>) -> Option<ValueCow<'_>>
    ensures gives { option_map cow_view result ≡ option_map (λ x. view x.now) item.entry }
    ensures in_place { IfSome result InPlace }
{
    match item {
        Some(item) => Some(ValueCow::Borrowed(item)),
        None => None,
    }
}

fn step_object<'v>(
    alloc: Global,
    members: &'v Object,
    index: &ScalarCow<'_>,
) -> Result<Option<ValueCow<'v>>, AllocError>
    ensures gives { IfOk result (λ found. option_map cow_view found
        ≡ step (object (members_view members.now.entries)) (index_of index.now)) }
    ensures in_place { IfOk result (λ found. IfSome found InPlace) }
{
    let word = index.to_kstr(alloc)?;
    Ok(member_or_size(members, word.as_str()))
}

fn member_or_size<'v>(members: &'v Object, word: &str) -> Option<ValueCow<'v>>
    ensures gives { option_map cow_view result
        ≡ option_or (get_member word.now (members_view members.now.entries))
        (size_asked word.now (member_count (members_view members.now.entries))) }
    ensures in_place { IfSome result InPlace }
{
    match member_at(members, word) {
        Some(member) => Some(ValueCow::Borrowed(member)),
        None => size_asked(word, members.len()),
    }
}

fn member_at<'v>(members: &'v Object, word: &str) -> Option<&'v Value>
    ensures { option_map (λ x. view x.now) result ≡ get_member word.now (members_view members.now.entries) }
{
    members.get(word)
}

fn step_scalar<'v>(
    alloc: Global,
    subject: &Scalar,
    index: &ScalarCow<'_>,
) -> Result<Option<ValueCow<'v>>, AllocError>
    ensures gives { IfOk result (λ found. option_map cow_view found ≡ step (scalar (scal string_bytes subject.now)) (index_of index.now)) }
    ensures in_place { IfOk result (λ found. IfSome found InPlace) }
{
    let word = index.to_kstr(alloc)?;
    Ok(size_asked(word.as_str(), text_size(alloc, subject)?))
}

/// Returns the size of a scalar's text. A number's size takes no memory.
fn text_size(alloc: Global, scalar: &Scalar) -> Result<usize, AllocError>
    ensures { IfOk result (λ size. (size ≡ length (render_scalar (scal string_bytes scalar.now))) × (size < 2 ^ 63)) }
{
    match scalar {
        ScalarOf::Integer(number) => {
            let mut buffer = itoa::Buffer::new();
            Ok(buffer.format(*number).len())
        }
        other => {
            let text = other.to_kstr(alloc)?;
            Ok(text.as_str().len())
        }
    }
}

#[tactic(auto, using(crate::proofs::Values::made_in_place))]
fn size_asked<'v>(word: &str, count: usize) -> Option<ValueCow<'v>>
    requires { count < 2 ^ 63 }
    ensures gives { option_map cow_view result ≡ size_asked word.now count }
    ensures in_place { IfSome result InPlace }
{
    if word == "size" {
        Some(number(count))
    } else {
        None
    }
}
