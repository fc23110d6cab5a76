//! The filter that puts items in the order of their keys.
ghost use Rattle.std.specs.Prelude.{◌≡◌, ◌++◌, map, string_bytes, IfOk, IfSome, OnOk};
ghost use Rattle.std.specs.List.{list_all};
ghost use Rattle.liquid_error.specs.meaning.Told.{Gives, told};
ghost use Rattle.liquid_value.specs.meaning.Cow.{cow_view};
ghost use Rattle.liquid_value.specs.meaning.View.{view as tree_of, members_view};
ghost use Rattle.liquid_filters.specs.meaning.list.Choices.{items_in, keys_of};
ghost use Rattle.liquid_filters.specs.meaning.list.Entries.{entry_view};
ghost use Rattle.liquid_filters.specs.meaning.list.Lists.{list_of};
ghost use Rattle.liquid_filters.specs.meaning.sort.Order.{comes_before, in_order, one_kind};
ghost use Rattle.liquid_jekyll.specs.meaning.list.Ordering as Spec;

use crate::list::comparing::{compare_keys, is_nil, one_kind};
use crate::list::item_keys::with_keys;
use crate::list::own::items_of;
use liquid_error::Error;
use liquid_filters::list::keys::Entry;
use liquid_filters::sort::order;
use liquid_filters::value::errors::{array_error, unexpected_arguments_error};
use liquid_scalar::ScalarOf;
use liquid_value::render::{ValueRender, ValueSource};
use liquid_value::{Object, Value, ValueCow};
use std::alloc::{AllocError, Global};

/// Where items without a key are put.
#[derive(Debug, Clone, Copy, PartialEq, Eq)]
enum NilEnd {
    First,
    Last,
}

/// Returns the items in the order of their keys, which the first argument names. Without it the standard filter is meant,
/// which gives an object's names and values as pairs.
///
/// Items with a nil key are first, or last if the second argument is `"last"`. If the other keys are not scalars of one kind,
/// their texts are compared. Items whose keys tie stay in their order.
pub fn sort(alloc: Global, input: &Value, arguments: &[ValueCow<'_>]) -> Result<Value, Error>
    ensures { Gives tree_of result (Spec.sorted (tree_of input.now) (map cow_view arguments.now)) }
{
    match arguments {
        [] => sort_plain(alloc, input),
        [path] => sort_if_named(alloc, input, path.as_view(), NilEnd::First),
        [path, nils] => sort_at(alloc, input, path.as_view(), nils.as_view()),
        _ => Err(unexpected_arguments_error(alloc)),
    }
}

fn sort_if_named(alloc: Global, input: &Value, path: &Value, nils: NilEnd) -> Result<Value, Error>
    ensures { Gives tree_of result (Spec.sorted_if_named nils (tree_of input.now) (tree_of path.now)) }
{
    match path {
        Value::Nil => sort_plain(alloc, input),
        path => sort_by_key(alloc, input, path, nils),
    }
}

fn sort_at(alloc: Global, input: &Value, path: &Value, nils: &Value) -> Result<Value, Error>
    ensures { Gives tree_of result (Spec.sorted_at (tree_of input.now) (tree_of path.now) (tree_of nils.now)) }
{
    match path {
        Value::Nil => sort_plain(alloc, input),
        path => {
            let nils = nil_end(alloc, nils)?;
            sort_by_key(alloc, input, path, nils)
        }
    }
}

/// Returns the items in the order of the standard filter, or the pairs of an object.
fn sort_plain(alloc: Global, input: &Value) -> Result<Value, Error>
    ensures { Gives tree_of result (Spec.sorted_plain (tree_of input.now)) }
{
    match input {
        Value::Object(members) => Ok(pairs_of(alloc, members.as_object())?),
        other => order::sort(alloc, other, &[]),
    }
}

/// Returns each name and value of an object as an array.
fn pairs_of(alloc: Global, members: &Object) -> Result<Value, AllocError>
    ensures { IfOk result (λ v. tree_of v ≡ list_of (Spec.pairs (members_view members.now.entries))) }
{
    let mut pairs = Vec::with_capacity(alloc, members.len())?;
    for (name, value) in members.iter() {
        pairs.push(pair_of(alloc, name, value)?)?;
    }
    Ok(Value::from(pairs))
}

fn pair_of(alloc: Global, name: &String, value: &Value) -> Result<Value, AllocError>
    ensures { IfOk result (λ v. tree_of v ≡ Spec.pair (string_bytes name.now) (tree_of value.now)) }
{
    let name = Value::Scalar(ScalarOf::Str(name.clone()?));
    Ok(Value::from(vec![in alloc; name, value.clone()?]?))
}

fn sort_by_key(alloc: Global, input: &Value, path: &Value, nils: NilEnd) -> Result<Value, Error>
    ensures { Gives tree_of result (Spec.sorted_by nils (tree_of input.now) (tree_of path.now)) }
{
    match input {
        Value::Array(items) => {
            let items = items_of(alloc, items.as_array())?;
            let path = path.to_kstr(alloc)?;
            let entries = with_keys(alloc, items.as_slice(), path.as_str())?;
            Ok(arrange(alloc, entries.as_slice(), nils)?)
        }
        Value::Nil => Ok(Value::from(Vec::new(alloc))),
        other => Err(array_error(alloc, other)),
    }
}

/// Returns the end that an argument names.
fn nil_end(alloc: Global, name: &Value) -> Result<NilEnd, Error>
    ensures { Gives (λ e. e) result (Spec.nil_end (tree_of name.now)) }
{
    let text = name.to_kstr(alloc)?;
    match end_named(text.as_str()) {
        Some(end) => Ok(end),
        None => Err(order_expected(alloc, name)),
    }
}

fn end_named(name: &str) -> Option<NilEnd>
    ensures { result ≡ Spec.end_named name.now }
{
    if name == "first" {
        Some(NilEnd::First)
    } else if name == "last" {
        Some(NilEnd::Last)
    } else {
        None
    }
}

/// Returns the error for an argument that names no end.
fn order_expected(alloc: Global, value: &Value) -> Error
    ensures { IfSome (told result) (λ r. r ≡ Spec.order_expected (tree_of value.now)) }
{
    match ValueSource::new(value).to_string(alloc) {
        Ok(source) => Error::with_msg(alloc, "Order of nil expected").context(
            alloc,
            "found",
            source.as_str(),
        ),
        Err(_) => Error::Memory,
    }
}

/// Returns the items in the order of their keys, with those of nil keys at this end.
fn arrange(alloc: Global, entries: &[Entry<'_>], nils: NilEnd) -> Result<Value, AllocError>
    ensures { IfOk result (λ v. tree_of v ≡ list_of (Spec.arranged nils (map entry_view entries.now))) }
{
    let mut sorted = comparable(alloc, entries)?;
    sort_entries(&mut sorted)?;
    let mut items = Vec::with_capacity(alloc, entries.len())?;
    match nils {
        NilEnd::First => {
            push_without_key(&mut items, entries)?;
            push_items(&mut items, sorted.as_slice())?;
        }
        NilEnd::Last => {
            push_items(&mut items, sorted.as_slice())?;
            push_without_key(&mut items, entries)?;
        }
    }
    Ok(Value::from(items))
}

/// Returns the entries whose key is not nil, with the texts of the keys if these are not scalars of one kind.
fn comparable<'e>(alloc: Global, entries: &'e [Entry<'_>]) -> Result<Vec<Entry<'e>>, AllocError>
    ensures { IfOk result (λ v. map entry_view v.items ≡ Spec.comparable (Spec.with_key (map entry_view entries.now))) }
{
    let present = with_key(alloc, entries)?;
    if are_of_one_kind(present.as_slice()) {
        Ok(present)
    } else {
        with_texts(alloc, present.as_slice())
    }
}

/// Returns the entries whose key is not nil.
fn with_key<'e>(alloc: Global, entries: &'e [Entry<'_>]) -> Result<Vec<Entry<'e>>, AllocError>
    ensures { IfOk result (λ v. map entry_view v.items ≡ Spec.with_key (map entry_view entries.now)) }
{
    let mut present = Vec::with_capacity(alloc, entries.len())?;
    for entry in entries {
        let key = entry.key.as_view();
        if !is_nil(key) {
            present.push(Entry {
                key: ValueCow::Borrowed(key),
                item: entry.item,
            })?;
        }
    }
    Ok(present)
}

/// Returns the entries with the text of each key.
pub(crate) fn with_texts<'e>(
    alloc: Global,
    entries: &[Entry<'e>],
) -> Result<Vec<Entry<'e>>, AllocError>
    ensures { IfOk result (λ v. map entry_view v.items ≡ Spec.with_texts (map entry_view entries.now)) }
{
    let mut texts = Vec::with_capacity(alloc, entries.len())?;
    for entry in entries {
        texts.push(with_text(alloc, entry)?)?;
    }
    Ok(texts)
}

fn with_text<'e>(alloc: Global, entry: &Entry<'e>) -> Result<Entry<'e>, AllocError>
    ensures { IfOk result (λ e. entry_view e ≡ Spec.with_text (entry_view entry.now)) }
{
    let text = text_of(alloc, entry.key.as_view())?;
    Ok(Entry {
        key: ValueCow::Owned(text),
        item: entry.item,
    })
}

fn text_of(alloc: Global, key: &Value) -> Result<Value, AllocError>
    ensures { IfOk result (λ v. tree_of v ≡ Spec.text_of (tree_of key.now)) }
{
    let mut text = String::new(alloc);
    write!(&mut text, "{}", ValueRender::new(key))?;
    Ok(Value::Scalar(ScalarOf::Str(text)))
}

/// Returns `true` if all keys are scalars of one kind.
fn are_of_one_kind(entries: &[Entry<'_>]) -> bool
    ensures { result ≡ Spec.are_of_one_kind (keys_of (map entry_view entries.now)) }
{
    match entries {
        [] => true,
        [first, rest @ ..] => are_kin(first.key.as_view(), rest),
    }
}

fn are_kin(key: &Value, entries: &[Entry<'_>]) -> bool
    ensures { result ≡ list_all (one_kind (tree_of key.now)) (keys_of (map entry_view entries.now)) }
{
    for entry in entries {
        if !one_kind(key, entry.key.as_view()) {
            return false;
        }
    }
    true
}

/// Puts the entries in the order of their keys. Entries whose keys tie stay in their order.
fn sort_entries(entries: &mut Vec<Entry<'_>>) -> Result<(), AllocError>
    ensures { OnOk result (map entry_view entries.new.items ≡ in_order comes_before (map entry_view entries.old.items)) }
{
    entries.sort_by(|left, right| compare_keys(left.key.as_view(), right.key.as_view()))
}

/// Appends copies of the items whose key is nil.
fn push_without_key(items: &mut Vec<Value>, entries: &[Entry<'_>]) -> Result<(), AllocError>
    ensures { OnOk result (map tree_of items.new.items
        ≡ map tree_of items.old.items ++ items_in (Spec.without_key (map entry_view entries.now))) }
{
    for entry in entries {
        if is_nil(entry.key.as_view()) {
            items.push(entry.item.clone()?)?;
        }
    }
    Ok(())
}

/// Appends copies of the items.
fn push_items(items: &mut Vec<Value>, entries: &[Entry<'_>]) -> Result<(), AllocError>
    ensures { OnOk result (map tree_of items.new.items
        ≡ map tree_of items.old.items ++ items_in (map entry_view entries.now)) }
{
    for entry in entries {
        items.push(entry.item.clone()?)?;
    }
    Ok(())
}
