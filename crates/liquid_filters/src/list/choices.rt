//! The filters that choose items by their keys.
ghost use Rattle.std.specs.Prelude.{◌≡◌, ◌++◌, ◌∷◌, [], map, not, IfOk, OnOk};
ghost use Rattle.liquid_error.specs.meaning.Told.{Gives};
ghost use Rattle.liquid_value.specs.meaning.Cow.{cow_view};
ghost use Rattle.liquid_value.specs.meaning.Parts.{is_nil};
ghost use Rattle.liquid_value.specs.meaning.View.{view as tree_of};
ghost use Rattle.liquid_filters.specs.meaning.list.Choices.{compacted, distinct, having, having_property, is_wanted};
ghost use Rattle.liquid_filters.specs.meaning.list.Choices.{items_in, keys_of, mapped, unique, where_property};
ghost use Rattle.liquid_filters.specs.meaning.list.Lists.{list_of};
ghost use Rattle.liquid_filters.specs.meaning.list.Entries.{entry_view};

use crate::list::keys::{Entry, entries, with_keys};
use crate::value::errors::unexpected_arguments_error;
use crate::value::items::items;
use crate::value::parts::is_truthy;
use liquid_error::Error;
use liquid_value::{Array, Value, ValueCow};
use std::alloc::{AllocError, Global};
use std::collections::HashSet;

/// Returns the property of each item that the argument names.
pub fn map(alloc: Global, input: &Value, arguments: &[ValueCow<'_>]) -> Result<Value, Error>
    ensures { Gives tree_of result (mapped (tree_of input.now) (map cow_view arguments.now)) }
{
    match arguments {
        [name] => {
            let name = name.as_view().to_kstr(alloc)?;
            let items = items(alloc, input)?;
            let entries = with_keys(alloc, items.as_slice(), Some(&name))?;
            Ok(keys_of(alloc, entries.as_slice())?)
        }
        _ => Err(unexpected_arguments_error(alloc)),
    }
}

/// Returns the items that are not nil, or whose property with the argument's name is not nil.
pub fn compact(alloc: Global, input: &Value, arguments: &[ValueCow<'_>]) -> Result<Value, Error>
    ensures { Gives tree_of result (compacted (tree_of input.now) (map cow_view arguments.now)) }
{
    let entries = entries(alloc, input, arguments)?;
    Ok(with_key(alloc, entries.as_slice())?)
}

/// Returns the items whose property with the first argument's name is the same as the second argument, or is truthy if
/// the second one is missing or nil.
pub fn keep_where(alloc: Global, input: &Value, arguments: &[ValueCow<'_>]) -> Result<Value, Error>
    ensures { Gives tree_of result (where_property (tree_of input.now) (map cow_view arguments.now)) }
{
    match arguments {
        [name] => having_property(alloc, input, name.as_view(), &Value::Nil),
        [name, wanted] => having_property(alloc, input, name.as_view(), wanted.as_view()),
        _ => Err(unexpected_arguments_error(alloc)),
    }
}

/// Returns the items that are the first with their key: themselves, or the property that the argument names.
pub fn uniq(alloc: Global, input: &Value, arguments: &[ValueCow<'_>]) -> Result<Value, Error>
    ensures { Gives tree_of result (unique (tree_of input.now) (map cow_view arguments.now)) }
{
    let entries = entries(alloc, input, arguments)?;
    Ok(distinct(alloc, entries.as_slice())?)
}

fn having_property(
    alloc: Global,
    input: &Value,
    name: &Value,
    wanted: &Value,
) -> Result<Value, Error>
    ensures { Gives tree_of result (having_property (tree_of input.now) (tree_of name.now) (tree_of wanted.now)) }
{
    let name = name.to_kstr(alloc)?;
    let items = items(alloc, input)?;
    let entries = with_keys(alloc, items.as_slice(), Some(&name))?;
    Ok(with_wanted(alloc, entries.as_slice(), wanted)?)
}

fn keys_of(alloc: Global, entries: &[Entry<'_>]) -> Result<Value, AllocError>
    ensures { IfOk result (λ v. tree_of v ≡ list_of (keys_of (map entry_view entries.now))) }
{
    let mut keys = Vec::with_capacity(alloc, entries.len())?;
    for entry in entries {
        keys.push(entry.key.as_view().clone()?)?;
    }
    Ok(Value::from(keys))
}

fn with_key(alloc: Global, entries: &[Entry<'_>]) -> Result<Value, AllocError>
    ensures { IfOk result (λ v. tree_of v ≡ having (λ key. not (is_nil key)) (map entry_view entries.now)) }
{
    let mut kept = Vec::new(alloc);
    for entry in entries {
        if !is_nil(entry.key.as_view()) {
            push_copy(&mut kept, entry.item)?;
        }
    }
    Ok(Value::from(kept))
}

fn with_wanted(alloc: Global, entries: &[Entry<'_>], wanted: &Value) -> Result<Value, AllocError>
    ensures { IfOk result (λ v. tree_of v ≡ having (is_wanted (tree_of wanted.now)) (map entry_view entries.now)) }
{
    let mut kept = Vec::new(alloc);
    for entry in entries {
        if is_wanted(wanted, entry.key.as_view()) {
            push_copy(&mut kept, entry.item)?;
        }
    }
    Ok(Value::from(kept))
}

/// Returns the items whose key is not the same as one before.
fn distinct(alloc: Global, entries: &[Entry<'_>]) -> Result<Value, AllocError>
    ensures { IfOk result (λ v. tree_of v ≡ list_of (items_in (distinct (map entry_view entries.now)))) }
{
    let mut seen = HashSet::new(alloc);
    let mut kept = Vec::new(alloc);
    for entry in entries {
        if seen.insert(entry.key.as_view())? {
            push_copy(&mut kept, entry.item)?;
        }
    }
    Ok(Value::from(kept))
}

/// Appends a copy of the item.
pub(crate) fn push_copy(kept: &mut Array, item: &Value) -> Result<(), AllocError>
    ensures { OnOk result (map tree_of kept.new.items ≡ map tree_of kept.old.items ++ tree_of item.now ∷ []) }
{
    kept.push(item.clone()?)?;
    Ok(())
}

/// Returns `true` if a property is the one that is wanted, or is truthy if nil is wanted.
pub(crate) fn is_wanted(wanted: &Value, key: &Value) -> bool
    ensures { result ≡ is_wanted (tree_of wanted.now) (tree_of key.now) }
{
    match wanted {
        Value::Nil => is_truthy(key),
        _ => *key == *wanted,
    }
}

fn is_nil(value: &Value) -> bool
    ensures { result ≡ is_nil (tree_of value.now) }
{
    matches!(value, Value::Nil)
}
