//! What a call passes to its partial.
ghost use Rattle.std.specs.Prelude.{◌≡◌, [], ◌∷◌, is_some, length, option_map, slice_get, IfOk};
ghost use Rattle.liquid_error.specs.meaning.Told.{Gives};
ghost use Rattle.liquid_value.specs.meaning.View.{view as tree_of};
ghost use Rattle.liquid_tags.specs.meaning.Series.{series_of};
ghost use Rattle.liquid_std.specs.meaning.inclusion.Passed.{is_loop, items_passed, listed, passes};

use crate::inclusion::calls::Manner;
use liquid_core::{Error, Runtime, Value};
use liquid_tags::for_block::series::items_of;
use liquid_tags::{Items, Series};
use std::alloc::{AllocError, Global};

/// The items that a call passes.
#[derive(Drop)]
pub enum Passed {
    /// One value.
    One(Value),
    /// Items.
    Each(Items),
}

impl Passed {
    /// Returns the number of items.
    pub fn len(&self) -> u64
        ensures { result ≡ length (items_passed self.now) }
    {
        match self {
            Passed::One(_) => 1,
            Passed::Each(items) => items.len(),
        }
    }

    /// Returns the item at a place, counted from 0, if there is one.
    pub fn get(&self, place: u64) -> Result<Option<Value>, AllocError>
        ensures { IfOk result (λ item. option_map tree_of item ≡ slice_get (items_passed self.now) place) }
    {
        match self {
            Passed::One(value) => one_at(value, place),
            Passed::Each(items) => match items.get(place)? {
                Some(item) => Ok(Some(item.to_value()?)),
                None => Ok(None),
            },
        }
    }
}

/// Returns the value at the first place, and nothing at any other.
fn one_at(value: &Value, place: u64) -> Result<Option<Value>, AllocError>
    ensures { IfOk result (λ item. option_map tree_of item ≡ slice_get (tree_of value.now ∷ []) place) }
{
    if place == 0 {
        Ok(Some(value.clone()?))
    } else {
        Ok(None)
    }
}

/// Returns what a call passes in this manner, and whether each item is given with `forloop`.
#[inline(never)]
pub fn passes<R: Runtime>(
    alloc: Global,
    manner: Manner,
    series: &Series,
    runtime: &R,
) -> Result<(Passed, bool), Error>
    ensures { Gives (λ p. (items_passed p.0, p.1)) result (passes (R.view runtime.now) manner (series_of series.now)) }
{
    match series {
        Series::Of(value) => {
            let value = value.evaluate(alloc, runtime)?;
            if is_listed(manner, value.as_view()) {
                Ok((
                    Passed::Each(items_of(alloc, series, runtime)?),
                    is_loop(manner),
                ))
            } else {
                Ok((Passed::One(value.into_owned()?), false))
            }
        }
        Series::Between(_, _) => {
            Ok((
                Passed::Each(items_of(alloc, series, runtime)?),
                is_loop(manner),
            ))
        }
    }
}

fn is_loop(manner: Manner) -> bool
    ensures { result ≡ is_loop manner }
{
    match manner {
        Manner::Whole | Manner::Items => false,
        Manner::Loop => true,
    }
}

/// Returns `true` if a value is passed item by item.
fn is_listed(manner: Manner, value: &Value) -> bool
    ensures { result ≡ is_some (listed manner (tree_of value.now)) }
{
    match (manner, value) {
        (Manner::Items | Manner::Loop, Value::Array(_)) => true,
        (Manner::Loop, Value::Object(_)) => true,
        _ => false,
    }
}
