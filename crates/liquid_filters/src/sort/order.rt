//! The filters that put a list in order.
ghost use Rattle.std.specs.Prelude.{◌≡◌, map, option_map, IfOk, OnOk, string_bytes};
ghost use Rattle.liquid_error.specs.meaning.Told.{Gives};
ghost use Rattle.liquid_scalar.specs.meaning.Scalar.{scal};
ghost use Rattle.liquid_value.specs.meaning.Cow.{cow_view};
ghost use Rattle.liquid_value.specs.meaning.Parts.{is_nil};
ghost use Rattle.liquid_value.specs.meaning.View.{view as tree_of};
ghost use Rattle.liquid_filters.specs.meaning.list.Choices.{items_in, keys_of};
ghost use Rattle.liquid_filters.specs.meaning.list.Lists.{list_of};
ghost use Rattle.liquid_filters.specs.meaning.sort.Order.{checked, comes_before, in_order, key_cmp, natural_key, one_kind, order_in_kind};
ghost use Rattle.liquid_filters.specs.meaning.sort.Order.{ordered, present, rank, scalar_rank, sorted, sorted_naturally, without_kin};
ghost use Rattle.liquid_filters.specs.meaning.list.Entries.{entry_view};

use crate::list::keys::{Entry, entries};
use crate::value::errors::order_error;
use liquid_error::Error;
use liquid_scalar::{Scalar, ScalarOf};
use liquid_value::{Value, ValueCow};
use std::alloc::{AllocError, Global};
use std::cmp::Ordering;

/// Returns the items in the order of their keys, which are themselves or the property that the argument names.
///
/// Items with a nil key are last, and items whose keys tie stay in their order. Two keys that are not scalars of one
/// kind are an error.
pub fn sort(alloc: Global, input: &Value, arguments: &[ValueCow<'_>]) -> Result<Value, Error>
    ensures { Gives tree_of result (sorted (tree_of input.now) (map cow_view arguments.now)) }
{
    let entries = entries(alloc, input, arguments)?;
    check_kinds(alloc, entries.as_slice())?;
    Ok(sort_by_key(alloc, entries)?)
}

/// Returns the items in the order of their keys' texts, where ASCII letters count as lower case.
///
/// Items with a nil key are last, and items whose keys tie stay in their order.
pub fn sort_natural(
    alloc: Global,
    input: &Value,
    arguments: &[ValueCow<'_>],
) -> Result<Value, Error>
    ensures { Gives tree_of result (sorted_naturally (tree_of input.now) (map cow_view arguments.now)) }
{
    let entries = entries(alloc, input, arguments)?;
    let natural = natural_entries(alloc, entries.as_slice())?;
    Ok(sort_by_key(alloc, natural)?)
}

/// Fails for keys that are not nil and not all scalars of one kind.
fn check_kinds(alloc: Global, entries: &[Entry<'_>]) -> Result<(), Error>
    ensures { Gives (λ u. u) result (checked (without_kin (present (keys_of (map entry_view entries.now))))) }
{
    let keys = present(alloc, entries)?;
    match without_kin(keys.as_slice()) {
        Some((first, other)) => Err(order_error(alloc, first, other)),
        None => Ok(()),
    }
}

/// Returns the keys that are not nil.
fn present<'e>(alloc: Global, entries: &'e [Entry<'_>]) -> Result<Vec<&'e Value>, AllocError>
    ensures { IfOk result (λ v. map (λ r. tree_of r.now) v.items ≡ present (keys_of (map entry_view entries.now))) }
{
    let mut keys = Vec::with_capacity(alloc, entries.len())?;
    for entry in entries {
        let key = entry.key.as_view();
        if !is_nil(key) {
            keys.push(key)?;
        }
    }
    Ok(keys)
}

/// Returns the first key and the first one that is not a scalar of its kind, if there is one.
fn without_kin<'k>(keys: &[&'k Value]) -> Option<(&'k Value, &'k Value)>
    ensures { option_map (λ p. (tree_of p.0.now, tree_of p.1.now)) result ≡ without_kin (map (λ r. tree_of r.now) keys.now) }
{
    let (first, others) = keys.split_first()?;
    for other in others {
        if !one_kind(first, other) {
            return Some((*first, *other));
        }
    }
    None
}

/// Returns the items in the order of their keys.
fn sort_by_key(alloc: Global, mut entries: Vec<Entry<'_>>) -> Result<Value, AllocError>
    ensures { IfOk result (λ v. tree_of v ≡ ordered (map entry_view entries.entry.items)) }
{
    sort_entries(&mut entries)?;
    list_of_items(alloc, entries.as_slice())
}

/// Puts the entries in the order of their keys. Entries whose keys tie stay in their order.
fn sort_entries(entries: &mut Vec<Entry<'_>>) -> Result<(), AllocError>
    ensures { OnOk result (map entry_view entries.new.items ≡ in_order comes_before (map entry_view entries.old.items)) }
{
    entries.sort_by(|left, right| compare_keys(left.key.as_view(), right.key.as_view()))
}

/// Returns the array of copies of the items.
fn list_of_items(alloc: Global, entries: &[Entry<'_>]) -> Result<Value, AllocError>
    ensures { IfOk result (λ v. tree_of v ≡ list_of (items_in (map entry_view entries.now))) }
{
    let mut items = Vec::with_capacity(alloc, entries.len())?;
    for entry in entries {
        items.push(entry.item.clone()?)?;
    }
    Ok(Value::from(items))
}

/// Returns the entries with each key replaced by its text, with ASCII letters in lower case.
fn natural_entries<'v>(alloc: Global, entries: &[Entry<'v>]) -> Result<Vec<Entry<'v>>, AllocError>
    ensures { IfOk result (λ v. map entry_view v.items ≡ map (λ e. (natural_key e.0, e.1)) (map entry_view entries.now)) }
{
    let mut natural = Vec::with_capacity(alloc, entries.len())?;
    for entry in entries {
        natural.push(natural_entry(alloc, entry)?)?;
    }
    Ok(natural)
}

fn natural_entry<'v>(alloc: Global, entry: &Entry<'v>) -> Result<Entry<'v>, AllocError>
    ensures { IfOk result (λ e. entry_view e ≡ (natural_key (entry_view entry.now).0, (entry_view entry.now).1)) }
{
    let key = natural_key(alloc, entry.key.as_view())?;
    Ok(Entry {
        key: ValueCow::Owned(key),
        item: entry.item,
    })
}

fn natural_key(alloc: Global, key: &Value) -> Result<Value, AllocError>
    ensures { IfOk result (λ v. tree_of v ≡ natural_key (tree_of key.now)) }
{
    match key {
        Value::Nil => Ok(Value::Nil),
        other => {
            let text = other.to_kstr(alloc)?;
            let lower = text.as_str().to_ascii_lowercase(alloc)?;
            Ok(Value::Scalar(ScalarOf::Str(lower)))
        }
    }
}

/// Compares two keys: by their kinds, and in one kind by the order of scalars.
fn compare_keys(left: &Value, right: &Value) -> Ordering
    ensures { result ≡ key_cmp (tree_of left.now) (tree_of right.now) }
{
    match rank(left).cmp(&rank(right)) {
        Ordering::Equal => match order_in_kind(left, right) {
            Some(order) => order,
            None => Ordering::Equal,
        },
        decided => decided,
    }
}

/// Returns the order of two scalars of one kind.
fn order_in_kind(left: &Value, right: &Value) -> Option<Ordering>
    ensures { result ≡ order_in_kind (tree_of left.now) (tree_of right.now) }
{
    match (left, right) {
        (Value::Scalar(left), Value::Scalar(right)) => left.scalar_cmp(right),
        _ => None,
    }
}

fn is_nil(value: &Value) -> bool
    ensures { result ≡ is_nil (tree_of value.now) }
{
    matches!(value, Value::Nil)
}

/// Returns `true` if two keys are scalars of one kind.
fn one_kind(left: &Value, right: &Value) -> bool
    ensures { result ≡ one_kind (tree_of left.now) (tree_of right.now) }
{
    match (left, right) {
        (Value::Scalar(left), Value::Scalar(right)) => scalar_rank(left) == scalar_rank(right),
        _ => false,
    }
}

/// Returns the rank of the key's kind: that of a scalar's, then that of all without an order, and nil last.
fn rank(key: &Value) -> u8
    ensures { result ≡ rank (tree_of key.now) }
{
    match key {
        Value::Scalar(scalar) => scalar_rank(scalar),
        Value::Nil => 6,
        _ => 5,
    }
}

fn scalar_rank(scalar: &Scalar) -> u8
    ensures { result ≡ scalar_rank (scal string_bytes scalar.now) }
{
    match scalar {
        ScalarOf::Integer(_) => 0,
        ScalarOf::Bool(_) => 1,
        ScalarOf::Str(_) => 2,
        ScalarOf::Date(_) => 3,
        ScalarOf::DateTime(_) => 4,
    }
}
