//! The key of an item: its property, or what a path of names leads to.
ghost use Rattle.std.specs.Prelude.{◌≡◌, map};
ghost use Rattle.liquid_error.specs.meaning.Told.{Gives};
ghost use Rattle.liquid_value.specs.meaning.Cow.{cow_view};
ghost use Rattle.liquid_value.specs.meaning.View.{view as tree_of};
ghost use Rattle.liquid_filters.specs.meaning.list.Entries.{entry_view};
ghost use Rattle.liquid_jekyll.specs.meaning.list.ItemKeys as Spec;

use crate::text::strip_spaces;
use liquid_error::Error;
use liquid_filters::list::keys::Entry;
use liquid_filters::value::parts::property;
use liquid_scalar::{ScalarCow, ScalarOf};
use liquid_strings::split;
use liquid_value::{Value, ValueCow};
use std::alloc::Global;
use std::borrow::CowStr;

/// Returns each item with its key by a path.
pub(crate) fn with_keys<'v>(
    alloc: Global,
    items: &[&'v Value],
    path: &str,
) -> Result<Vec<Entry<'v>>, Error>
    ensures { Gives (λ v. map entry_view v.items) result (Spec.keyed path.now (map (λ r. tree_of r.now) items.now)) }
{
    let mut entries = Vec::with_capacity(alloc, items.len())?;
    for item in items {
        let key = key_of(alloc, item, path)?;
        entries.push(Entry { key, item: *item })?;
    }
    Ok(entries)
}

/// Returns the key of an item: the number that its attribute writes, or otherwise the attribute.
fn key_of<'v>(alloc: Global, item: &'v Value, path: &str) -> Result<ValueCow<'v>, Error>
    ensures { Gives cow_view result (Spec.key_of path.now (tree_of item.now)) }
{
    Ok(number_or_value(attribute(alloc, item, path)?))
}

/// Returns the property of the item, or, if the path has dots, what the names between them lead to.
fn attribute<'v>(alloc: Global, item: &'v Value, path: &str) -> Result<ValueCow<'v>, Error>
    ensures { Gives cow_view result (Spec.attribute path.now (tree_of item.now)) }
{
    if has_dot(path.as_bytes()) {
        let names = split(alloc, path, ".")?;
        walk_path(alloc, item, names.as_slice())
    } else {
        property(alloc, item, path)
    }
}

fn has_dot(path: &[u8]) -> bool
    ensures { result ≡ Spec.has_dot path.now }
{
    path.iter().any(|byte| *byte == b'.')
}

/// Returns what the names lead to: a property of the item, then a property of that, and so on.
fn walk_path<'v>(alloc: Global, item: &'v Value, names: &[&str]) -> Result<ValueCow<'v>, Error>
    ensures { Gives cow_view result (Spec.walked (map (λ n. n.now) names.now) (tree_of item.now)) }
{
    match names {
        [] => Ok(ValueCow::Borrowed(item)),
        [first, rest @ ..] => {
            let value = property(alloc, item, *first)?;
            walk_rest(alloc, value, rest)
        }
    }
}

/// Returns what the names after the first lead to.
fn walk_rest<'v>(alloc: Global, value: ValueCow<'v>, names: &[&str]) -> Result<ValueCow<'v>, Error>
    ensures { Gives cow_view result (Spec.walked_on (map (λ n. n.now) names.now) (cow_view value.entry)) }
{
    let mut current = value;
    for name in names {
        current = step(alloc, current, *name)?;
    }
    Ok(current)
}

/// Returns what a name leads to from a value.
fn step<'v>(alloc: Global, value: ValueCow<'v>, name: &str) -> Result<ValueCow<'v>, Error>
    ensures { Gives cow_view result (Spec.property_on name.now (cow_view value.entry)) }
{
    match value {
        ValueCow::Borrowed(value) => property_on(alloc, value, name),
        ValueCow::Owned(value) => {
            let next = property_on(alloc, &value, name)?;
            Ok(ValueCow::Owned(next.as_view().clone()?))
        }
    }
}

/// Returns a property of a value, or `false` for nil and booleans.
fn property_on<'v>(alloc: Global, value: &'v Value, name: &str) -> Result<ValueCow<'v>, Error>
    ensures { Gives cow_view result (Spec.property_on name.now (tree_of value.now)) }
{
    if leads_to_false(value) {
        Ok(ValueCow::Owned(Value::Scalar(ScalarOf::Bool(false))))
    } else {
        property(alloc, value, name)
    }
}

fn leads_to_false(value: &Value) -> bool
    ensures { result ≡ Spec.leads_to_false (tree_of value.now) }
{
    matches!(value, Value::Nil | Value::Scalar(ScalarOf::Bool(_)))
}

/// Returns the number that the value writes, or otherwise the value.
fn number_or_value(value: ValueCow<'_>) -> ValueCow<'_>
    ensures { cow_view result ≡ Spec.numbered (cow_view value.entry) }
{
    match number_in(value.as_view()) {
        Some(number) => ValueCow::Owned(Value::Scalar(ScalarOf::Integer(number))),
        None => value,
    }
}

fn number_in(value: &Value) -> Option<i64>
    ensures { result ≡ Spec.number_in (tree_of value.now) }
{
    match value {
        Value::Scalar(ScalarOf::Str(text)) => unsigned_number(strip_spaces(text.as_str())),
        _ => None,
    }
}

/// Returns the integer that the text writes without a plus sign.
fn unsigned_number(text: &str) -> Option<i64>
    ensures { result ≡ Spec.unsigned_number text.now }
{
    match text.as_bytes() {
        [b'+', ..] => None,
        _ => {
            let text: ScalarCow<'_> = ScalarOf::Str(CowStr::Borrowed(text));
            text.to_integer()
        }
    }
}
