//! Jekyll's filters on lists.
ghost use Rattle.std.specs.Prelude.{◌≡◌, ◌++◌, codes, map, string_bytes, IfOk, OnOk};
ghost use Rattle.liquid_error.specs.meaning.Told.{Gives};
ghost use Rattle.liquid_value.specs.meaning.Cow.{cow_view};
ghost use Rattle.liquid_value.specs.meaning.Render.{render};
ghost use Rattle.liquid_value.specs.meaning.View.{view as tree_of, items_view};
ghost use Rattle.liquid_filters.specs.meaning.list.Lists.{list_of};
ghost use Rattle.liquid_strings.specs.meaning.Slices.{count_in};
ghost use Rattle.liquid_filters.specs.meaning.value.Items.{own_items};
ghost use Rattle.liquid_jekyll.specs.meaning.value.Lists as Spec;

use liquid_error::Error;
use liquid_filters::value::errors::unexpected_arguments_error;
use liquid_filters::value::items::items;
use liquid_filters::value::numbers::whole;
use liquid_scalar::ScalarOf;
use liquid_value::render::ValueRender;
use liquid_value::{Array, Value, ValueCow};
use std::alloc::{AllocError, Global};

/// Which end of an array is cut.
#[derive(Debug, Clone, Copy, PartialEq, Eq)]
enum End {
    First,
    Last,
}

/// Returns an array without its last item, or without as many as the argument says. Any other input is kept.
pub fn pop(alloc: Global, input: &Value, arguments: &[ValueCow<'_>]) -> Result<Value, Error>
    ensures { Gives tree_of result (Spec.pop (tree_of input.now) (map cow_view arguments.now)) }
{
    cut(alloc, input, arguments, End::Last)
}

/// Returns an array without its first item, or without as many as the argument says. Any other input is kept.
pub fn shift(alloc: Global, input: &Value, arguments: &[ValueCow<'_>]) -> Result<Value, Error>
    ensures { Gives tree_of result (Spec.shift (tree_of input.now) (map cow_view arguments.now)) }
{
    cut(alloc, input, arguments, End::First)
}

fn cut(alloc: Global, input: &Value, arguments: &[ValueCow<'_>], end: End) -> Result<Value, Error>
    ensures { Gives tree_of result (Spec.cut end (tree_of input.now) (map cow_view arguments.now)) }
{
    match arguments {
        [] => match input {
            Value::Array(items) => Ok(cut_items(alloc, items.as_array(), 1, end)?),
            other => Ok(other.clone()?),
        },
        [count] => match input {
            Value::Array(items) => {
                let count = whole(alloc, count.as_view())?;
                Ok(cut_items(alloc, items.as_array(), count, end)?)
            }
            other => Ok(other.clone()?),
        },
        _ => Err(unexpected_arguments_error(alloc)),
    }
}

#[tactic(auto, using(crate::proofs::ItemLemmas::items_cut))]
fn cut_items(alloc: Global, items: &Array, count: i64, end: End) -> Result<Value, AllocError>
    ensures { IfOk result (λ v. tree_of v ≡ list_of (Spec.without end (count_in count) (own_items (items_view items.now.items)))) }
{
    array_of(
        alloc,
        drop_at_end(items.as_slice(), size_of_cut(count), end),
    )
}

fn size_of_cut(count: i64) -> usize
    ensures { result ≡ count_in count }
{
    if count <= 0 { 0 } else { count as usize }
}

/// Returns the items without that many at this end.
fn drop_at_end(items: &[Value], count: usize, end: End) -> &[Value]
    ensures { map tree_of result.now ≡ Spec.without end count (map tree_of items.now) }
{
    if count >= items.len() {
        return &[];
    }
    match end {
        End::First => &items[count..],
        End::Last => &items[..items.len() - count],
    }
}

/// Returns the array of copies of the items.
fn array_of(alloc: Global, items: &[Value]) -> Result<Value, AllocError>
    ensures { IfOk result (λ v. tree_of v ≡ list_of (map tree_of items.now)) }
{
    Ok(Value::from(items.to_vec(alloc)?))
}

/// Returns an array with the argument after its items. Any other input is kept.
pub fn push(alloc: Global, input: &Value, arguments: &[ValueCow<'_>]) -> Result<Value, Error>
    ensures { Gives tree_of result (Spec.push (tree_of input.now) (map cow_view arguments.now)) }
{
    match arguments {
        [value] => Ok(push_value(alloc, input, value.as_view())?),
        _ => Err(unexpected_arguments_error(alloc)),
    }
}

fn push_value(alloc: Global, input: &Value, value: &Value) -> Result<Value, AllocError>
    ensures { IfOk result (λ v. tree_of v ≡ Spec.pushed (tree_of value.now) (tree_of input.now)) }
{
    match input {
        Value::Array(items) => {
            let mut all = Vec::with_capacity(alloc, items.as_array().len().saturating_add(1))?;
            push_copies(&mut all, items.as_array())?;
            all.push(value.clone()?)?;
            Ok(Value::from(all))
        }
        other => other.clone(),
    }
}

/// Returns an array with the argument before its items. Any other input is kept.
pub fn unshift(alloc: Global, input: &Value, arguments: &[ValueCow<'_>]) -> Result<Value, Error>
    ensures { Gives tree_of result (Spec.unshift (tree_of input.now) (map cow_view arguments.now)) }
{
    match arguments {
        [value] => Ok(unshift_value(alloc, input, value.as_view())?),
        _ => Err(unexpected_arguments_error(alloc)),
    }
}

fn unshift_value(alloc: Global, input: &Value, value: &Value) -> Result<Value, AllocError>
    ensures { IfOk result (λ v. tree_of v ≡ Spec.unshifted (tree_of value.now) (tree_of input.now)) }
{
    match input {
        Value::Array(items) => {
            let mut all = Vec::with_capacity(alloc, items.as_array().len().saturating_add(1))?;
            all.push(value.clone()?)?;
            push_copies(&mut all, items.as_array())?;
            Ok(Value::from(all))
        }
        other => other.clone(),
    }
}

/// Appends copies of the items.
fn push_copies(all: &mut Vec<Value>, items: &Array) -> Result<(), AllocError>
    ensures { OnOk result (map tree_of all.new.items ≡ map tree_of all.old.items ++ own_items (items_view items.now.items)) }
{
    for item in items {
        all.push(item.clone()?)?;
    }
    Ok(())
}

/// Returns the texts of the items as they are listed in a sentence: with commas between them and a word, the argument or
/// `and`, before the last one.
pub fn array_to_sentence_string(
    alloc: Global,
    input: &Value,
    arguments: &[ValueCow<'_>],
) -> Result<Value, Error>
    ensures { Gives tree_of result (Spec.sentenced (tree_of input.now) (map cow_view arguments.now)) }
{
    match arguments {
        [] => Ok(sentence_of(alloc, input, "and")?),
        [word] => {
            let word = word.as_view().to_kstr(alloc)?;
            Ok(sentence_of(alloc, input, word.as_str())?)
        }
        _ => Err(unexpected_arguments_error(alloc)),
    }
}

fn sentence_of(alloc: Global, input: &Value, by: &str) -> Result<Value, AllocError>
    ensures { IfOk result (λ v. tree_of v ≡ Spec.sentence_of by.now (tree_of input.now)) }
{
    let items = items(alloc, input)?;
    let text = sentence(alloc, items.as_slice(), by)?;
    Ok(Value::Scalar(ScalarOf::Str(text)))
}

fn sentence(alloc: Global, items: &[&Value], by: &str) -> Result<String, AllocError>
    ensures { IfOk result (λ text. string_bytes text ≡ Spec.sentence by.now (map (λ r. tree_of r.now) items.now)) }
{
    let mut text = String::new(alloc);
    match items {
        [] => {}
        [only] => push_text(&mut text, only)?,
        [first, second] => {
            push_text(&mut text, first)?;
            text.push_str(" ")?;
            push_last(&mut text, second, by)?;
        }
        _ => push_series(&mut text, items, by)?,
    }
    Ok(text)
}

/// Appends the items with commas between them, and the word before the last one.
fn push_series(text: &mut String, items: &[&Value], by: &str) -> Result<(), AllocError>
    ensures { OnOk result (string_bytes text.new ≡ string_bytes text.old ++ Spec.series by.now (map (λ r. tree_of r.now) items.now)) }
{
    let Some((last, others)) = items.split_last() else {
        return Ok(());
    };
    for item in others {
        push_text(text, item)?;
        text.push_str(", ")?;
    }
    push_last(text, last, by)?;
    Ok(())
}

/// Appends the word, a space and the item.
fn push_last(text: &mut String, item: &Value, by: &str) -> Result<(), AllocError>
    ensures { OnOk result (string_bytes text.new ≡ string_bytes text.old ++ (by.now ++ (codes " " ++ render (tree_of item.now)))) }
{
    text.push_str(by)?;
    text.push_str(" ")?;
    push_text(text, item)
}

/// Appends the text that the value renders as.
fn push_text(text: &mut String, value: &Value) -> Result<(), AllocError>
    ensures { OnOk result (string_bytes text.new ≡ string_bytes text.old ++ render (tree_of value.now)) }
{
    write!(text, "{}", ValueRender::new(value))
}
