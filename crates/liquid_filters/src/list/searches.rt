//! The filters that search items by a property.
ghost use Rattle.std.specs.Prelude.{◌≡◌, map, IfOk};
ghost use Rattle.std.specs.List.{list_any};
ghost use Rattle.liquid_error.specs.meaning.Told.{Gives};
ghost use Rattle.liquid_value.specs.meaning.Cow.{cow_view};
ghost use Rattle.liquid_value.specs.meaning.View.{view as tree_of};
ghost use Rattle.liquid_filters.specs.meaning.list.Entries.{entry_view};
ghost use Rattle.liquid_filters.specs.meaning.list.Lists.{list_of};
ghost use Rattle.liquid_filters.specs.meaning.list.Searches.{failing, first_or_nil, found, found_index, has_any, index_from, passing};
ghost use Rattle.liquid_filters.specs.meaning.list.Searches.{rejected, tested, tested_by, tested_items};
ghost use Rattle.liquid_filters.specs.meaning.list.Tests.{tested_view};

use crate::list::choices::{is_wanted, push_copy};
use crate::list::keys::{Entry, with_keys};
use crate::value::errors::unexpected_arguments_error;
use crate::value::items::items;
use liquid_error::Error;
use liquid_scalar::ScalarOf;
use liquid_value::{Value, ValueCow};
use std::alloc::{AllocError, Global};

/// An item, and whether its property is as wanted.
#[derive(Clone, Copy)]
pub(crate) struct Tested<'v> {
    pub passes: bool,
    pub item: &'v Value,
}

/// Returns the first item whose property with the first argument's name is the same as the second argument, or is truthy
/// if the second one is missing or nil. Returns nil if there is none.
pub fn find(alloc: Global, input: &Value, arguments: &[ValueCow<'_>]) -> Result<Value, Error>
    ensures { Gives tree_of result (found (tree_of input.now) (map cow_view arguments.now)) }
{
    let tested = test(alloc, input, arguments)?;
    Ok(first_passing(tested.as_slice())?)
}

/// Returns the index, from 0, of the item that [`find`] returns, or nil if there is none.
pub fn find_index(alloc: Global, input: &Value, arguments: &[ValueCow<'_>]) -> Result<Value, Error>
    ensures { Gives tree_of result (found_index (tree_of input.now) (map cow_view arguments.now)) }
{
    let tested = test(alloc, input, arguments)?;
    Ok(index_of_passing(tested.as_slice())?)
}

/// Returns `true` if there is an item that [`find`] returns.
pub fn has(alloc: Global, input: &Value, arguments: &[ValueCow<'_>]) -> Result<Value, Error>
    ensures { Gives tree_of result (has_any (tree_of input.now) (map cow_view arguments.now)) }
{
    let tested = test(alloc, input, arguments)?;
    let passes = any_passes(tested.as_slice());
    Ok(Value::Scalar(ScalarOf::Bool(passes)))
}

/// Returns the items whose property with the first argument's name is not the same as the second argument, or is not
/// truthy if the second one is missing or nil.
pub fn reject(alloc: Global, input: &Value, arguments: &[ValueCow<'_>]) -> Result<Value, Error>
    ensures { Gives tree_of result (rejected (tree_of input.now) (map cow_view arguments.now)) }
{
    let tested = test(alloc, input, arguments)?;
    Ok(all_failing(alloc, tested.as_slice())?)
}

/// Returns each item, and whether its property is as the arguments want it.
fn test<'v>(
    alloc: Global,
    input: &'v Value,
    arguments: &[ValueCow<'_>],
) -> Result<Vec<Tested<'v>>, Error>
    ensures { Gives (λ v. map tested_view v.items) result (tested (tree_of input.now) (map cow_view arguments.now)) }
{
    match arguments {
        [name] => test_by(alloc, input, name.as_view(), &Value::Nil),
        [name, wanted] => test_by(alloc, input, name.as_view(), wanted.as_view()),
        _ => Err(unexpected_arguments_error(alloc)),
    }
}

fn test_by<'v>(
    alloc: Global,
    input: &'v Value,
    name: &Value,
    wanted: &Value,
) -> Result<Vec<Tested<'v>>, Error>
    ensures { Gives (λ v. map tested_view v.items) result (tested_by (tree_of input.now) (tree_of name.now) (tree_of wanted.now)) }
{
    let name = name.to_kstr(alloc)?;
    let items = items(alloc, input)?;
    let entries = with_keys(alloc, items.as_slice(), Some(&name))?;
    Ok(test_entries(alloc, entries.as_slice(), wanted)?)
}

fn test_entries<'v>(
    alloc: Global,
    entries: &[Entry<'v>],
    wanted: &Value,
) -> Result<Vec<Tested<'v>>, AllocError>
    ensures { IfOk result (λ v. map tested_view v.items ≡ tested_items (tree_of wanted.now) (map entry_view entries.now)) }
{
    let mut tested = Vec::with_capacity(alloc, entries.len())?;
    for entry in entries {
        let passes = is_wanted(wanted, entry.key.as_view());
        tested.push(Tested {
            passes,
            item: entry.item,
        })?;
    }
    Ok(tested)
}

fn first_passing(tested: &[Tested<'_>]) -> Result<Value, AllocError>
    ensures { IfOk result (λ v. tree_of v ≡ first_or_nil (passing (map tested_view tested.now))) }
{
    for test in tested {
        if test.passes {
            return test.item.clone();
        }
    }
    Ok(Value::Nil)
}

fn index_of_passing(tested: &[Tested<'_>]) -> Result<Value, AllocError>
    ensures { IfOk result (λ v. tree_of v ≡ index_from 0 (map tested_view tested.now)) }
{
    let mut index = 0i64;
    for test in tested {
        if test.passes {
            return Ok(Value::Scalar(ScalarOf::Integer(index)));
        }
        index += 1;
    }
    Ok(Value::Nil)
}

fn any_passes(tested: &[Tested<'_>]) -> bool
    ensures { result ≡ list_any (λ t. t.0) (map tested_view tested.now) }
{
    for test in tested {
        if test.passes {
            return true;
        }
    }
    false
}

fn all_failing(alloc: Global, tested: &[Tested<'_>]) -> Result<Value, AllocError>
    ensures { IfOk result (λ v. tree_of v ≡ list_of (failing (map tested_view tested.now))) }
{
    let mut kept = Vec::new(alloc);
    for test in tested {
        if !test.passes {
            push_copy(&mut kept, test.item)?;
        }
    }
    Ok(Value::from(kept))
}
