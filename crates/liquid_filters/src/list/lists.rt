//! The filters on whole lists.
ghost use Rattle.std.specs.Prelude.{◌≡◌, ◌++◌, map, option_map, reverse, unwrap_or, IfOk, OnOk, Ok, string_bytes};
ghost use Rattle.std.specs.List.{join_by};
ghost use Rattle.liquid_error.specs.meaning.Told.{Gives};
ghost use Rattle.liquid_value.specs.meaning.Cow.{cow_view};
ghost use Rattle.liquid_value.specs.meaning.Render.{render};
ghost use Rattle.liquid_value.specs.meaning.Tree.{nil};
ghost use Rattle.liquid_value.specs.meaning.View.{view as tree_of, items_view, members_view};
ghost use Rattle.liquid_filters.specs.meaning.value.Items.{own_items};
ghost use Rattle.liquid_filters.specs.meaning.list.Lists.{concat, concatenated, first, first_item, first_member};
ghost use Rattle.liquid_filters.specs.meaning.list.Lists.{join, joined, last, last_item, list_of, reversed};

use crate::value::errors::{array_error, unexpected_arguments_error};
use crate::value::items::items;
use liquid_error::Error;
use liquid_scalar::ScalarOf;
use liquid_value::render::ValueRender;
use liquid_value::{Array, Object, Value, ValueCow};
use std::alloc::{AllocError, Global};

/// Returns an array's first item, an object's first name and value as an array, and nil for any other value.
pub fn first(alloc: Global, input: &Value) -> Result<Value, Error>
    ensures { Gives tree_of result (Ok (first (tree_of input.now))) }
{
    match input {
        Value::Array(items) => Ok(first_item(items.as_array())?),
        Value::Object(members) => Ok(first_member(alloc, members.as_object())?),
        _ => Ok(Value::Nil),
    }
}

/// Returns an array's last item, and nil for any other value.
pub fn last(_alloc: Global, input: &Value) -> Result<Value, Error>
    ensures { Gives tree_of result (Ok (last (tree_of input.now))) }
{
    match input {
        Value::Array(items) => Ok(last_item(items.as_array())?),
        _ => Ok(Value::Nil),
    }
}

/// Returns the items in the opposite order.
pub fn reverse(alloc: Global, input: &Value) -> Result<Value, Error>
    ensures { Gives tree_of result (Ok (reversed (tree_of input.now))) }
{
    let mut items = items(alloc, input)?;
    reverse_items(&mut items);
    Ok(list_of(alloc, items.as_slice())?)
}

/// Returns the items, and after them those of the argument, unchanged.
pub fn concat(alloc: Global, input: &Value, arguments: &[ValueCow<'_>]) -> Result<Value, Error>
    ensures { Gives tree_of result (concat (tree_of input.now) (map cow_view arguments.now)) }
{
    match arguments {
        [other] => concat_lists(alloc, input, other.as_view()),
        _ => Err(unexpected_arguments_error(alloc)),
    }
}

fn concat_lists(alloc: Global, input: &Value, other: &Value) -> Result<Value, Error>
    ensures { Gives tree_of result (concatenated (tree_of input.now) (tree_of other.now)) }
{
    let mut all = items(alloc, input)?;
    match other {
        Value::Array(others) => {
            push_own_items(&mut all, others.as_array())?;
            Ok(list_of(alloc, all.as_slice())?)
        }
        _ => Err(array_error(alloc, other)),
    }
}

/// Returns the texts of the items with the argument's text between each two, or a space without an argument.
pub fn join(alloc: Global, input: &Value, arguments: &[ValueCow<'_>]) -> Result<Value, Error>
    ensures { Gives tree_of result (join (tree_of input.now) (map cow_view arguments.now)) }
{
    match arguments {
        [] => Ok(join_with(alloc, input, " ")?),
        [separator] => {
            let separator = separator.as_view().to_kstr(alloc)?;
            Ok(join_with(alloc, input, separator.as_str())?)
        }
        _ => Err(unexpected_arguments_error(alloc)),
    }
}

fn join_with(alloc: Global, input: &Value, separator: &str) -> Result<Value, AllocError>
    ensures { IfOk result (λ v. tree_of v ≡ joined separator.now (tree_of input.now)) }
{
    let items = items(alloc, input)?;
    let text = join_texts(alloc, items.as_slice(), separator)?;
    Ok(Value::Scalar(ScalarOf::Str(text)))
}

fn join_texts(alloc: Global, items: &[&Value], separator: &str) -> Result<String, AllocError>
    ensures { IfOk result (λ text. string_bytes text ≡ join_by render separator.now (map (λ r. tree_of r.now) items.now)) }
{
    let mut text = String::new(alloc);
    let Some((first, rest)) = items.split_first() else {
        return Ok(text);
    };
    push_text(&mut text, first)?;
    for item in rest {
        text.push_str(separator)?;
        push_text(&mut text, item)?;
    }
    Ok(text)
}

/// Appends the text that the value renders as.
fn push_text(text: &mut String, value: &Value) -> Result<(), AllocError>
    ensures { OnOk result (string_bytes text.new ≡ string_bytes text.old ++ render (tree_of value.now)) }
{
    write!(text, "{}", ValueRender::new(value))
}

/// Returns the array of copies of the items.
pub(crate) fn list_of(alloc: Global, items: &[&Value]) -> Result<Value, AllocError>
    ensures { IfOk result (λ v. tree_of v ≡ list_of (map (λ r. tree_of r.now) items.now)) }
{
    let mut copies = Vec::with_capacity(alloc, items.len())?;
    for item in items {
        copies.push((*item).clone()?)?;
    }
    Ok(Value::from(copies))
}

#[tactic(auto, using(crate::proofs::ListSteps::map_reverse))]
fn reverse_items(items: &mut Vec<&Value>)
    ensures { map (λ r. tree_of r.now) items.new.items ≡ reverse (map (λ r. tree_of r.now) items.old.items) }
{
    items.reverse();
}

fn push_own_items<'v>(all: &mut Vec<&'v Value>, others: &'v Array) -> Result<(), AllocError>
    ensures { OnOk result (map (λ r. tree_of r.now) all.new.items
        ≡ map (λ r. tree_of r.now) all.old.items ++ own_items (items_view others.now.items)) }
{
    for other in others {
        all.push(other)?;
    }
    Ok(())
}

fn first_item(items: &Array) -> Result<Value, AllocError>
    ensures { IfOk result (λ v. tree_of v ≡ first_item (items_view items.now.items)) }
{
    match items.first() {
        Some(item) => item.clone(),
        None => Ok(Value::Nil),
    }
}

fn first_member(alloc: Global, members: &Object) -> Result<Value, AllocError>
    ensures { IfOk result (λ v. tree_of v ≡ first_member (members_view members.now.entries)) }
{
    match members.iter().next() {
        Some((name, value)) => {
            let name = Value::Scalar(ScalarOf::Str(name.clone()?));
            Ok(Value::from(vec![in alloc; name, value.clone()?]?))
        }
        None => Ok(Value::Nil),
    }
}

fn last_item(items: &Array) -> Result<Value, AllocError>
    ensures { IfOk result (λ v. tree_of v ≡ last_item nil (items_view items.now.items)) }
{
    copy_or_nil(items.last())
}

/// Returns a copy of the value, and nil if there is none.
fn copy_or_nil(value: Option<&Value>) -> Result<Value, AllocError>
    ensures { IfOk result (λ v. tree_of v ≡ unwrap_or (option_map (λ r. tree_of r.now) value.entry) nil) }
{
    match value {
        Some(value) => value.clone(),
        None => Ok(Value::Nil),
    }
}
