//! A loop, and the items that it goes over.
ghost use Rattle.std.specs.Prelude.{◌≡◌};
ghost use Rattle.liquid_error.specs.meaning.Told.{Gives};
ghost use Rattle.liquid_std.specs.meaning.iteration.Loops.{loop_of, picked_items};
ghost use Rattle.liquid_std.specs.meaning.iteration.Picked.{picked_left};

use crate::iteration::options::{Options, OptionsShape, option_number};
use crate::iteration::picked::Picked;
use crate::iteration::scalars::{OverScalar, items_over};
use liquid_core::parser::{Bytes, Meant};
use liquid_core::{Error, Runtime};
use liquid_tags::Series;
use liquid_tags::for_block::series::SeriesShape;
use std::alloc::Global;

/// The name of a loop's items, the series that it goes over, and its options.
#[derive(Drop)]
pub struct Loop {
    pub name: String,
    pub series: Series,
    pub options: Options,
}

/// Marks the shape of a loop.
pub struct LoopShape {
    pub name: Bytes,
    pub series: SeriesShape,
    pub options: OptionsShape,
}

impl Meant for Loop {
    type Shape = LoopShape;

    ghost shape = { loop_of };
}

/// Returns the items that a loop goes over: those items of its series that its options pick.
///
/// The series is evaluated first, then `offset`, then `limit`.
#[inline(never)]
pub fn picked_items<R: Runtime>(
    alloc: Global,
    over: OverScalar,
    header: &Loop,
    runtime: &R,
) -> Result<Picked, Error>
    ensures { Gives picked_left result (picked_items over (R.view runtime.now) (loop_of header.now)) }
{
    let items = items_over(alloc, over, &header.series, runtime)?;
    let offset = option_number(alloc, &header.options.offset, runtime)?;
    let limit = option_number(alloc, &header.options.limit, runtime)?;
    Ok(Picked::of(
        items,
        offset.unwrap_or(0),
        limit,
        header.options.is_reversed,
    ))
}
