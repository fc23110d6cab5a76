//! What a filter reads of an item: the item itself, or a property of it.
ghost use Rattle.std.specs.Prelude.{◌≡◌, map, option_map, IfOk};
ghost use Rattle.std.specs.Cow.{cow_str_bytes};
ghost use Rattle.liquid_error.specs.meaning.Told.{Gives};
ghost use Rattle.liquid_value.specs.meaning.Cow.{cow_view};
ghost use Rattle.liquid_value.specs.meaning.View.{view as tree_of};
ghost use Rattle.liquid_filters.specs.meaning.list.Keys.{entries, key_of, keyed, name_of, optional_name};
ghost use Rattle.liquid_filters.specs.meaning.list.Entries.{entry_view};

use crate::value::errors::unexpected_arguments_error;
use crate::value::items::items;
use crate::value::parts::property;
use liquid_error::Error;
use liquid_value::{Value, ValueCow};
use std::alloc::{AllocError, Global};
use std::borrow::CowStr;

/// An item and its key.
#[derive(Drop)]
pub struct Entry<'v> {
    pub key: ValueCow<'v>,
    pub item: &'v Value,
}

/// Returns each item of the input with its key: itself, or the property that the argument names.
pub fn entries<'v>(
    alloc: Global,
    input: &'v Value,
    arguments: &[ValueCow<'_>],
) -> Result<Vec<Entry<'v>>, Error>
    ensures { Gives (λ v. map entry_view v.items) result (entries (tree_of input.now) (map cow_view arguments.now)) }
{
    let name = optional_name(alloc, arguments)?;
    let items = items(alloc, input)?;
    with_keys(alloc, items.as_slice(), name.as_ref())
}

/// Returns each item with its key: itself, or the property of that name.
pub fn with_keys<'v>(
    alloc: Global,
    items: &[&'v Value],
    name: Option<&CowStr<'_>>,
) -> Result<Vec<Entry<'v>>, Error>
    ensures { Gives (λ v. map entry_view v.items) result (keyed (option_map (λ n. cow_str_bytes n.now) name.entry)
        (map (λ r. tree_of r.now) items.now)) }
{
    let mut entries = Vec::with_capacity(alloc, items.len())?;
    for item in items {
        let key = key_of(alloc, item, name)?;
        entries.push(Entry { key, item: *item })?;
    }
    Ok(entries)
}

/// Returns the item itself, or its property of that name.
pub fn key_of<'v>(
    alloc: Global,
    item: &'v Value,
    name: Option<&CowStr<'_>>,
) -> Result<ValueCow<'v>, Error>
    ensures { Gives cow_view result (key_of (option_map (λ n. cow_str_bytes n.now) name.entry) (tree_of item.now)) }
{
    match name {
        Some(name) => property(alloc, item, name.as_str()),
        None => Ok(ValueCow::Borrowed(item)),
    }
}

/// Returns the name of the property that the argument gives, if there is an argument and it is not nil.
pub fn optional_name<'a>(
    alloc: Global,
    arguments: &'a [ValueCow<'_>],
) -> Result<Option<CowStr<'a>>, Error>
    ensures { Gives (option_map cow_str_bytes) result (optional_name (map cow_view arguments.now)) }
{
    match arguments {
        [] => Ok(None),
        [argument] => Ok(name_of(alloc, argument.as_view())?),
        _ => Err(unexpected_arguments_error(alloc)),
    }
}

fn name_of(alloc: Global, argument: &Value) -> Result<Option<CowStr<'_>>, AllocError>
    ensures { IfOk result (λ name. option_map cow_str_bytes name ≡ name_of (tree_of argument.now)) }
{
    match argument {
        Value::Nil => Ok(None),
        other => Ok(Some(other.to_kstr(alloc)?)),
    }
}
