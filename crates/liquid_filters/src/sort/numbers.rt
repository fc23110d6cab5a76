//! The filter that puts a list in the order of numbers.
ghost use Rattle.std.specs.Prelude.{◌≡◌, map, option_map, IfOk, OnOk};
ghost use Rattle.liquid_decimals.specs.meaning.Dec.{dec};
ghost use Rattle.liquid_error.specs.meaning.Told.{Gives};
ghost use Rattle.liquid_value.specs.meaning.Cow.{cow_view};
ghost use Rattle.liquid_value.specs.meaning.View.{view as tree_of};
ghost use Rattle.liquid_filters.specs.meaning.list.Entries.{entry_view};
ghost use Rattle.liquid_filters.specs.meaning.list.Lists.{list_of};
ghost use Rattle.liquid_filters.specs.meaning.sort.Numbers.{has_lesser_number, number_cmp, number_of_key, numbered, numbered_items};
ghost use Rattle.liquid_filters.specs.meaning.sort.Numbers.{sorted_numerically};
ghost use Rattle.liquid_filters.specs.meaning.sort.Numbered.{numbered_view};
ghost use Rattle.liquid_filters.specs.meaning.sort.Order.{in_order};

use crate::list::keys::{Entry, entries};
use crate::value::decimals::decimal;
use liquid_decimals::Decimal;
use liquid_error::Error;
use liquid_value::{Value, ValueCow};
use std::alloc::{AllocError, Global};
use std::cmp::Ordering;

/// An item and the number of its key, which a nil key has not.
#[derive(Clone, Copy)]
pub(crate) struct Numbered<'v> {
    pub number: Option<Decimal>,
    pub item: &'v Value,
}

/// Returns the items in the order of their numbers, which are their own or those of the property that the argument names.
///
/// Items with a nil key are last, and items whose numbers are equal stay in their order. Any other key that is no number is
/// an error.
pub fn sort_numeric(
    alloc: Global,
    input: &Value,
    arguments: &[ValueCow<'_>],
) -> Result<Value, Error>
    ensures { Gives tree_of result (sorted_numerically (tree_of input.now) (map cow_view arguments.now)) }
{
    let entries = entries(alloc, input, arguments)?;
    let mut numbered = with_numbers(alloc, entries.as_slice())?;
    sort_numbers(&mut numbered)?;
    Ok(list_of_numbered(alloc, numbered.as_slice())?)
}

/// Returns each item with the number of its key.
fn with_numbers<'v>(alloc: Global, entries: &[Entry<'v>]) -> Result<Vec<Numbered<'v>>, Error>
    ensures { Gives (λ v. map numbered_view v.items) result (numbered (map entry_view entries.now)) }
{
    let mut numbered = Vec::with_capacity(alloc, entries.len())?;
    for entry in entries {
        let number = number_of_key(alloc, entry.key.as_view())?;
        numbered.push(Numbered {
            number,
            item: entry.item,
        })?;
    }
    Ok(numbered)
}

/// Returns the number of a key, or `None` for nil.
fn number_of_key(alloc: Global, key: &Value) -> Result<Option<Decimal>, Error>
    ensures { Gives (option_map dec) result (number_of_key (tree_of key.now)) }
{
    match key {
        Value::Nil => Ok(None),
        other => Ok(Some(decimal(alloc, other)?)),
    }
}

/// Puts the items in the order of their numbers. Items whose numbers are equal stay in their order.
fn sort_numbers(numbered: &mut Vec<Numbered<'_>>) -> Result<(), AllocError>
    ensures { OnOk result (map numbered_view numbered.new.items ≡ in_order has_lesser_number (map numbered_view numbered.old.items)) }
{
    numbered.sort_by(|left, right| compare_numbers(left.number, right.number))
}

/// Compares two numbers. A key without one is after all that have one.
fn compare_numbers(left: Option<Decimal>, right: Option<Decimal>) -> Ordering
    ensures { result ≡ number_cmp (option_map dec left) (option_map dec right) }
{
    match (left, right) {
        (Some(left), Some(right)) => left.compare(right),
        (Some(_), None) => Ordering::Less,
        (None, Some(_)) => Ordering::Greater,
        (None, None) => Ordering::Equal,
    }
}

/// Returns the array of copies of the items.
fn list_of_numbered(alloc: Global, numbered: &[Numbered<'_>]) -> Result<Value, AllocError>
    ensures { IfOk result (λ v. tree_of v ≡ list_of (numbered_items (map numbered_view numbered.now))) }
{
    let mut items = Vec::with_capacity(alloc, numbered.len())?;
    for entry in numbered {
        items.push(entry.item.clone()?)?;
    }
    Ok(Value::from(items))
}
