//! The tag `cycle`.
ghost use Rattle.std.specs.Prelude.{◌≡◌, length, map, OnErr};
ghost use Rattle.liquid_error.specs.meaning.Told.{Gives};
ghost use Rattle.liquid_runtime.specs.meaning.Written.{SameFrames};
ghost use Rattle.liquid_plugins.specs.meaning.ExpressionOf.{expression_of};
ghost use Rattle.liquid_plugins.specs.meaning.TurnOf.{turn_of, Leaves};
ghost use Rattle.std.specs.Prelude.{string_bytes};
ghost use Rattle.liquid_std.specs.meaning.marks.Cycles.{cycle_of, cycles, next_place, text_at};

use crate::marks::groups::{Group, GroupShape, key_in};
use crate::marks::holder::HoldsMarks;
use liquid_core::model::ValueRender;
use liquid_core::parser::{ListOf, Meant};
use liquid_core::runtime::ExpressionMark;
use liquid_core::{Error, Expression, Runtime, Turn};
use std::alloc::Global;

/// A `cycle`: its group and its values.
#[derive(Drop)]
pub struct Cycle {
    pub group: Group,
    pub values: Vec<Expression>,
}

/// Marks the shape of a `cycle`.
pub struct CycleShape {
    pub group: GroupShape,
    pub values: ListOf<ExpressionMark>,
}

impl Meant for Cycle {
    type Shape = CycleShape;

    ghost shape = { cycle_of };
}

/// Writes the text of the value at the place of the group, and moves the group to its next place.
///
/// Only that value is evaluated. If there is an error, or memory runs out, the group keeps its place.
#[inline(never)]
pub fn cycle_turn<V: HoldsMarks, R: Runtime<Register = V>>(
    alloc: Global,
    cycle: &Cycle,
    runtime: &mut R,
) -> Result<Turn, Error>
    ensures answer { Gives turn_of result (cycles V.holds (cycle_of cycle.now) (tt {0}) (R.view runtime.old)).answer }
    ensures after { Leaves result (cycles V.holds (cycle_of cycle.now) (tt {0}) (R.view runtime.old)).written
        (R.view runtime.old) (R.view runtime.new) }
    ensures kept { OnErr result (R.view runtime.new ≡ R.view runtime.old) }
    ensures frames { SameFrames (R.view runtime.old) (R.view runtime.new) }
    ensures store { R.store runtime.new ≡ R.store runtime.old }
    ensures owes { R.restores runtime.new ≡ R.restores runtime.old }
    ensures borrows { R.lent runtime.new ≡ R.lent runtime.old }
{
    let key = key_in(alloc, &cycle.group, &*runtime)?;
    let place = runtime.registers().value.marks().place(key.as_str());
    let text = text_at(alloc, cycle.values.as_slice(), place, &*runtime)?;
    let next = next_place(place, cycle.values.len());
    runtime.registers_mut().value.move_group(alloc, key, next)?;
    Ok(Turn::Text(text))
}

/// Returns the text of the value at a place, or an empty text if there is none.
fn text_at<R: Runtime>(
    alloc: Global,
    values: &[Expression],
    place: u64,
    runtime: &R,
) -> Result<String, Error>
    ensures { Gives (λ s. string_bytes s) result (text_at (R.view runtime.now) (map expression_of values.now) place) }
{
    match values.get(place as usize) {
        Some(value) => {
            let value = value.evaluate(alloc, runtime)?;
            Ok(ValueRender::new(value.as_view()).to_string(alloc)?)
        }
        None => Ok(String::new(alloc)),
    }
}

/// Returns the place after this one, of that many. After the last place comes the first.
fn next_place(place: u64, count: usize) -> u64
    ensures { result ≡ next_place place count }
{
    let count = count as u64;
    if place < count && place + 1 < count {
        place + 1
    } else {
        0
    }
}
