//! What a loop goes over.
ghost use Rattle.std.specs.Prelude.{◌≡◌, [], map, string_bytes, IfOk, IfSome, option_and_then};
ghost use Rattle.liquid_error.specs.meaning.Told.{told, Gives};
ghost use Rattle.liquid_scalar.specs.meaning.Scalar.{to_integer};
ghost use Rattle.liquid_value.specs.meaning.Cow.{cow_view};
ghost use Rattle.liquid_value.specs.meaning.Parts.{as_scalar};
ghost use Rattle.liquid_value.specs.meaning.View.{view as tree_of, items_view, members_view};
ghost use Rattle.liquid_plugins.specs.meaning.Evaluation.{evaluate};
ghost use Rattle.liquid_plugins.specs.meaning.ExpressionOf.{expression_of};
ghost use Rattle.liquid_error.specs.meaning.Refusal.{ok_then};
ghost use Rattle.liquid_tags.specs.meaning.Items.{items_left};
ghost use Rattle.liquid_tags.specs.meaning.Series.{expected, items_between, items_in, items_of, pair, pairs, range_too_long};
ghost use Rattle.liquid_tags.specs.meaning.Series.{series_of, trees, whole_number};

use crate::for_block::items::Items;
use liquid_core::model::{Array, ValueSource};
use liquid_core::parser::Meant;
use liquid_core::runtime::ExpressionMark;
use liquid_core::{Error, Expression, Object, Runtime, SharedArray, Value, ValueCow};
use std::alloc::{AllocError, Global};

/// A value, or the numbers of a range.
#[derive(Drop)]
pub enum Series {
    Of(Expression),
    Between(Expression, Expression),
}

/// Marks the shape of a series.
pub enum SeriesShape {
    Of(ExpressionMark),
    Between(ExpressionMark, ExpressionMark),
}

impl Meant for Series {
    type Shape = SeriesShape;

    ghost shape = { series_of };
}

/// The number of items of the longest range.
const LONGEST: u64 = 1_000_000;

/// Returns the items of a series.
#[inline(never)]
pub fn items_of<R: Runtime>(alloc: Global, series: &Series, runtime: &R) -> Result<Items, Error>
    ensures { Gives items_left result (items_of (R.view runtime.now) (series_of series.now)) }
{
    match series {
        Series::Of(value) => items_in(alloc, value.evaluate(alloc, runtime)?),
        Series::Between(from, to) => {
            let from = whole_number(alloc, from, runtime)?;
            let to = whole_number(alloc, to, runtime)?;
            items_between(alloc, from, to)
        }
    }
}

/// Returns the items of a value. An array that the value shares is not copied.
#[tactic(auto, using(crate::proofs::SeriesLemmas::items_of_object))]
fn items_in(alloc: Global, value: ValueCow<'_>) -> Result<Items, Error>
    ensures { Gives items_left result (items_in (cow_view value.entry)) }
{
    if let Some(members) = value.as_object() {
        return Ok(items_of_pairs(alloc, members)?);
    }
    items_of_owned(alloc, value.into_owned()?)
}

/// Returns the items of a value that the loop owns.
fn items_of_owned(alloc: Global, value: Value) -> Result<Items, Error>
    ensures { Gives items_left result (items_in (tree_of value)) }
{
    match value {
        Value::Array(array) => Ok(Items::from_shared(alloc, array)?),
        Value::Object(members) => Ok(items_of_pairs(alloc, members.as_object())?),
        Value::State(_) | Value::Nil => Ok(empty_items()),
        Value::Scalar(scalar) => Err(type_error(alloc, "Array expected", &Value::Scalar(scalar))),
    }
}

/// Returns no items.
fn empty_items() -> Items
    ensures { items_left result ≡ [] }
{
    Items::from_range(0, 0)
}

/// Returns the pairs of an object as items.
fn items_of_pairs(alloc: Global, members: &Object) -> Result<Items, AllocError>
    ensures { IfOk result (λ items. items_left items ≡ pairs (members_view members.now.entries)) }
{
    Items::from_array(alloc, pairs(alloc, members)?)
}

/// Returns the pairs of an object.
fn pairs(alloc: Global, members: &Object) -> Result<Vec<Value>, AllocError>
    ensures { IfOk result (λ v. map tree_of v.items ≡ pairs (members_view members.now.entries)) }
{
    let mut items = Vec::with_capacity(alloc, members.len())?;
    for (name, value) in members.iter() {
        items.push(pair(alloc, name, value)?)?;
    }
    Ok(items)
}

/// Returns a name and its value, as an array.
fn pair(alloc: Global, name: &String, value: &Value) -> Result<Value, AllocError>
    ensures { IfOk result (λ v. tree_of v ≡ pair (string_bytes name.now) (tree_of value.now)) }
{
    let mut pair = Array::with_capacity(alloc, 2)?;
    pair.push(Value::scalar(name.clone()?))?;
    pair.push(value.clone()?)?;
    Ok(Value::Array(SharedArray::shared(alloc, pair)?))
}

/// Returns the integer that is the value of an expression.
fn whole_number<R: Runtime>(
    alloc: Global,
    expression: &Expression,
    runtime: &R,
) -> Result<i64, Error>
    ensures { Gives (λ n. n) result (ok_then (evaluate (R.view runtime.now) (expression_of expression.now)) whole_number) }
{
    let value = expression.evaluate(alloc, runtime)?;
    match number_of(value.as_view()) {
        Some(number) => Ok(number),
        None => Err(type_error(alloc, "Whole number expected", value.as_view())),
    }
}

/// Returns the integer of a value, if it is one.
pub(crate) fn number_of(value: &Value) -> Option<i64>
    ensures { result ≡ option_and_then to_integer (as_scalar (tree_of value.now)) }
{
    match value {
        Value::Scalar(scalar) => scalar.to_integer(),
        _ => None,
    }
}

/// Returns the numbers of a range.
fn items_between(alloc: Global, from: i64, to: i64) -> Result<Items, Error>
    ensures { Gives items_left result (items_between from to) }
{
    if from <= to {
        let steps = to.abs_diff(from);
        if steps < LONGEST {
            Ok(Items::from_range(from, steps + 1))
        } else {
            Err(range_too_long(alloc, from, to))
        }
    } else {
        Ok(Items::from_range(from, 0))
    }
}

/// Returns the error for a value, with its source.
pub(crate) fn type_error(alloc: Global, message: &str, value: &Value) -> Error
    ensures { IfSome (told result) (λ r. r ≡ expected message.now (tree_of value.now)) }
{
    match ValueSource::new(value).to_string(alloc) {
        Ok(source) => Error::with_msg(alloc, message).context(alloc, "found", source.as_str()),
        Err(_) => Error::Memory,
    }
}

/// Returns the error for a range that has too many numbers.
fn range_too_long(alloc: Global, from: i64, to: i64) -> Error
    ensures { IfSome (told result) (λ r. r ≡ range_too_long from to) }
{
    match from.to_string(alloc) {
        Ok(start) => match to.to_string(alloc) {
            Ok(stop) => Error::with_msg(alloc, "Range too long")
                .context(alloc, "start", start.as_str())
                .context(alloc, "stop", stop.as_str()),
            Err(_) => Error::Memory,
        },
        Err(_) => Error::Memory,
    }
}
