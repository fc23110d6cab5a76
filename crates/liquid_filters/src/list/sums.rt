//! The sum of a list.
ghost use Rattle.std.specs.Prelude.{map, option_map};
ghost use Rattle.std.specs.Cow.{cow_str_bytes};
ghost use Rattle.liquid_decimals.specs.meaning.Dec.{dec};
ghost use Rattle.liquid_error.specs.meaning.Refusal.{ok_then};
ghost use Rattle.liquid_error.specs.meaning.Told.{Gives};
ghost use Rattle.liquid_value.specs.meaning.Cow.{cow_view};
ghost use Rattle.liquid_value.specs.meaning.View.{view as tree_of};
ghost use Rattle.liquid_filters.specs.meaning.value.Decimals.{decimal};
ghost use Rattle.liquid_filters.specs.meaning.list.Keys.{key_of};
ghost use Rattle.liquid_filters.specs.meaning.list.Sums.{numbers, summed};

use crate::list::decimal_sums::sum_of;
use crate::list::keys::{key_of, optional_name};
use crate::value::decimals::{decimal, limited_decimal};
use crate::value::items::items;
use liquid_decimals::Decimal;
use liquid_error::Error;
use liquid_value::{Value, ValueCow};
use std::alloc::Global;
use std::borrow::CowStr;

/// Returns the sum of the items, or of the property that the argument names. It is exact, with as many digits after the
/// point as the number that has most. Only the sum itself must fit.
pub fn sum(alloc: Global, input: &Value, arguments: &[ValueCow<'_>]) -> Result<Value, Error>
    ensures { Gives tree_of result (summed (tree_of input.now) (map cow_view arguments.now)) }
{
    let name = optional_name(alloc, arguments)?;
    let items = items(alloc, input)?;
    let numbers = numbers(alloc, items.as_slice(), name.as_ref())?;
    limited_decimal(alloc, sum_of(numbers.as_slice()))
}

/// Returns the number of each item, or of its property of that name.
fn numbers(
    alloc: Global,
    items: &[&Value],
    name: Option<&CowStr<'_>>,
) -> Result<Vec<Decimal>, Error>
    ensures { Gives (λ v. map dec v.items) result (numbers (option_map (λ n. cow_str_bytes n.now) name.entry)
        (map (λ r. tree_of r.now) items.now)) }
{
    let mut numbers = Vec::with_capacity(alloc, items.len())?;
    for item in items {
        numbers.push(key_number(alloc, item, name)?)?;
    }
    Ok(numbers)
}

/// Returns the number of the item, or of its property of that name.
fn key_number(alloc: Global, item: &Value, name: Option<&CowStr<'_>>) -> Result<Decimal, Error>
    ensures { Gives dec result (ok_then (key_of (option_map (λ n. cow_str_bytes n.now) name.entry) (tree_of item.now)) decimal) }
{
    let key = key_of(alloc, item, name)?;
    decimal(alloc, key.as_view())
}
