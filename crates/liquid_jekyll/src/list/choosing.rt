//! The filters that choose items by their keys.
ghost use Rattle.std.specs.Prelude.{◌≡◌, filter, map, option_map, IfOk};
ghost use Rattle.std.specs.List.{list_any};
ghost use Rattle.liquid_error.specs.meaning.Told.{Gives};
ghost use Rattle.liquid_value.specs.meaning.Cow.{cow_view};
ghost use Rattle.liquid_value.specs.meaning.View.{view as tree_of, members_view};
ghost use Rattle.liquid_filters.specs.meaning.list.Choices.{having};
ghost use Rattle.liquid_filters.specs.meaning.list.Entries.{entry_view};
ghost use Rattle.liquid_jekyll.specs.meaning.list.Choosing as Spec;

use crate::list::item_keys::with_keys;
use crate::list::own::own_items;
use liquid_error::Error;
use liquid_filters::list::choices;
use liquid_filters::list::keys::Entry;
use liquid_filters::value::errors::unexpected_arguments_error;
use liquid_filters::value::items::items;
use liquid_scalar::ScalarOf;
use liquid_value::{Object, Value, ValueCow};
use std::alloc::{AllocError, Global};

/// Returns the items whose key fits the second argument. Without it, the standard filter is meant.
///
/// The key is the property that the first argument names, or what a path of names leads to. The input is kept if the name is
/// nil or `false`, if the value is an array or an object, and if the input is neither.
pub fn keep_where(alloc: Global, input: &Value, arguments: &[ValueCow<'_>]) -> Result<Value, Error>
    ensures { Gives tree_of result (Spec.kept_where (tree_of input.now) (map cow_view arguments.now)) }
{
    match arguments {
        [path, wanted] => where_key(alloc, input, path.as_view(), wanted.as_view()),
        _ => choices::keep_where(alloc, input, arguments),
    }
}

/// Returns the first item whose key fits the second argument, or nil. The input is kept where [`keep_where`] keeps it.
pub fn find(alloc: Global, input: &Value, arguments: &[ValueCow<'_>]) -> Result<Value, Error>
    ensures { Gives tree_of result (Spec.found (tree_of input.now) (map cow_view arguments.now)) }
{
    match arguments {
        [path, wanted] => find_key(alloc, input, path.as_view(), wanted.as_view()),
        _ => Err(unexpected_arguments_error(alloc)),
    }
}

fn where_key(alloc: Global, input: &Value, path: &Value, wanted: &Value) -> Result<Value, Error>
    ensures { Gives tree_of result (Spec.where_key (tree_of input.now) (tree_of path.now) (tree_of wanted.now)) }
{
    match candidates(alloc, input, path, wanted)? {
        Some(entries) => Ok(fitting(alloc, entries.as_slice(), wanted)?),
        None => Ok(input.clone()?),
    }
}

fn find_key(alloc: Global, input: &Value, path: &Value, wanted: &Value) -> Result<Value, Error>
    ensures { Gives tree_of result (Spec.find_key (tree_of input.now) (tree_of path.now) (tree_of wanted.now)) }
{
    match candidates(alloc, input, path, wanted)? {
        Some(entries) => Ok(first_fitting(alloc, entries.as_slice(), wanted)?),
        None => Ok(input.clone()?),
    }
}

/// Returns the items with their keys, or `None` if the input is kept.
fn candidates<'v>(
    alloc: Global,
    input: &'v Value,
    path: &Value,
    wanted: &Value,
) -> Result<Option<Vec<Entry<'v>>>, Error>
    ensures { Gives (option_map (λ v. map entry_view v.items)) result
        (Spec.candidates (tree_of input.now) (tree_of path.now) (tree_of wanted.now)) }
{
    if is_no_path(path) || is_no_scalar(wanted) {
        return Ok(None);
    }
    match own_items(alloc, input)? {
        Some(items) => {
            let path = path.to_kstr(alloc)?;
            Ok(Some(with_keys(alloc, items.as_slice(), path.as_str())?))
        }
        None => Ok(None),
    }
}

/// Returns `true` for nil and `false`, which name no property.
fn is_no_path(path: &Value) -> bool
    ensures { result ≡ Spec.is_no_path (tree_of path.now) }
{
    match path {
        Value::Nil => true,
        Value::Scalar(ScalarOf::Bool(truth)) => !*truth,
        _ => false,
    }
}

/// Returns `true` for an array and an object, which no key fits.
fn is_no_scalar(wanted: &Value) -> bool
    ensures { result ≡ Spec.is_no_scalar (tree_of wanted.now) }
{
    matches!(wanted, Value::Array(_) | Value::Object(_))
}

fn fitting(alloc: Global, entries: &[Entry<'_>], wanted: &Value) -> Result<Value, AllocError>
    ensures { IfOk result (λ v. tree_of v ≡ having (Spec.fits (tree_of wanted.now)) (map entry_view entries.now)) }
{
    let mut kept = Vec::new(alloc);
    for entry in entries {
        if fits(alloc, wanted, entry.key.as_view())? {
            kept.push(entry.item.clone()?)?;
        }
    }
    Ok(Value::from(kept))
}

fn first_fitting(alloc: Global, entries: &[Entry<'_>], wanted: &Value) -> Result<Value, AllocError>
    ensures { IfOk result (λ v. tree_of v ≡ Spec.first_having (Spec.fits (tree_of wanted.now)) (map entry_view entries.now)) }
{
    for entry in entries {
        if fits(alloc, wanted, entry.key.as_view())? {
            return entry.item.clone();
        }
    }
    Ok(Value::Nil)
}

/// Returns `true` if a key fits a value.
///
/// Nil fits nil. A state fits all that has no text. Any other value fits by its text a scalar, or an array with such an item.
fn fits(alloc: Global, wanted: &Value, key: &Value) -> Result<bool, AllocError>
    ensures { IfOk result (λ b. b ≡ Spec.fits (tree_of wanted.now) (tree_of key.now)) }
{
    match wanted {
        Value::Nil => Ok(matches!(key, Value::Nil)),
        Value::State(_) => is_hollow(alloc, key),
        other => {
            let text = other.to_kstr(alloc)?;
            has_text(alloc, key, text.as_str())
        }
    }
}

/// Returns `true` for nil, for a string and an array whose text is empty, and for an object without members.
fn is_hollow(alloc: Global, key: &Value) -> Result<bool, AllocError>
    ensures { IfOk result (λ b. b ≡ Spec.is_hollow (tree_of key.now)) }
{
    match key {
        Value::State(_) => Ok(false),
        Value::Object(members) => Ok(has_no_member(members.as_object())),
        other => {
            let text = other.to_kstr(alloc)?;
            Ok(text.as_str().is_empty())
        }
    }
}

fn has_no_member(members: &Object) -> bool
    ensures { result ≡ Spec.has_no_member (members_view members.now.entries) }
{
    members.iter().next().is_none()
}

/// Returns `true` if a scalar, or one of the items of an array, has the text.
fn has_text(alloc: Global, key: &Value, text: &str) -> Result<bool, AllocError>
    ensures { IfOk result (λ b. b ≡ Spec.has_text text.now (tree_of key.now)) }
{
    let items = items(alloc, key)?;
    any_has_text(alloc, items.as_slice(), text)
}

fn any_has_text(alloc: Global, items: &[&Value], text: &str) -> Result<bool, AllocError>
    ensures { IfOk result (λ b. b ≡ list_any (Spec.is_text text.now) (map (λ r. tree_of r.now) items.now)) }
{
    for item in items {
        if is_text(alloc, item, text)? {
            return Ok(true);
        }
    }
    Ok(false)
}

fn is_text(alloc: Global, value: &Value, text: &str) -> Result<bool, AllocError>
    ensures { IfOk result (λ b. b ≡ Spec.is_text text.now (tree_of value.now)) }
{
    match value {
        Value::Scalar(_) => {
            let own = value.to_kstr(alloc)?;
            Ok(own.as_str() == text)
        }
        _ => Ok(false),
    }
}
