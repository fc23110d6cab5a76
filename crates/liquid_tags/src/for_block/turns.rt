//! The turns of a loop.
ghost use Rattle.std.specs.Prelude.{◌≡◌, drop, option_map, slice_get, string_bytes, IfOk, OnOk};
ghost use Rattle.liquid_error.specs.meaning.Told.{Gives};
ghost use Rattle.liquid_runtime.specs.meaning.LoopNames.{item_tree};
ghost use Rattle.liquid_runtime.specs.meaning.Written.{SameFrames};
ghost use Rattle.liquid_plugins.specs.meaning.TurnOf.{turn_of, Leaves, LeavesProgress};
ghost use Rattle.liquid_tags.specs.meaning.Loops.{following, item_turn, loop_takes, rounds_of};

use crate::for_block::rounds::Rounds;
use liquid_core::runtime::{Counts, Interrupt, LoopFrame, LoopItem};
use liquid_core::{Error, Frame, Runtime, Turn};
use std::alloc::{AllocError, Global};
use std::mem;

/// Returns a turn of the loop with this name.
#[inline(always)]
pub(crate) fn loop_turn<R: Runtime>(
    alloc: Global,
    name: &String,
    rounds: &mut Rounds,
    runtime: &mut R,
) -> Result<Turn, Error>
    ensures answer { Gives turn_of result (loop_takes (string_bytes name.now) (rounds_of rounds.old) (R.view runtime.old)).answer }
    ensures after { Leaves result (loop_takes (string_bytes name.now) (rounds_of rounds.old) (R.view runtime.old)).written
        (R.view runtime.old) (R.view runtime.new) }
    ensures progress { LeavesProgress result (loop_takes (string_bytes name.now) (rounds_of rounds.old) (R.view runtime.old)).progress
        (rounds_of rounds.new) }
    ensures frames { SameFrames (R.view runtime.old) (R.view runtime.new) }
    ensures store { R.store runtime.new ≡ R.store runtime.old }
    ensures owes { R.restores runtime.new ≡ R.restores runtime.old }
    ensures borrows { R.lent runtime.new ≡ R.lent runtime.old }
{
    let (place, size) = (rounds.place, rounds.size);
    let item = next_item(rounds)?;
    if place > 0 {
        if let Some(Interrupt::Break) = runtime.registers_mut().interrupt.reset() {
            return Ok(Turn::End);
        }
    }
    let used = mem::replace(&mut rounds.frame, None);
    Ok(item_turn(alloc, name, used, Counts { place, size }, item)?)
}

/// Removes the next item and returns it, if there is one.
fn next_item(rounds: &mut Rounds) -> Result<Option<LoopItem>, AllocError>
    ensures item { IfOk result (λ item. option_map item_tree item ≡ slice_get (rounds_of rounds.old).left 0) }
    ensures following { OnOk result (rounds_of rounds.new ≡ following (rounds_of rounds.old)) }
{
    match rounds.place.checked_add(1) {
        Some(place) => {
            let item = rounds.left.take_first()?;
            rounds.place = place;
            Ok(item)
        }
        None => Err(AllocError),
    }
}

/// Returns the turn of the item at a place, or the end if there is none. `used` is the frame of the turn before, if there is
/// one. It is written over.
#[inline(always)]
pub fn item_turn(
    alloc: Global,
    name: &String,
    used: Option<Box<LoopFrame>>,
    counts: Counts,
    item: Option<LoopItem>,
) -> Result<Turn, AllocError>
    ensures { IfOk result (λ turn.
        turn_of turn ≡ item_turn (string_bytes name.now) counts.place counts.size (option_map item_tree item)) }
{
    match item {
        Some(item) => {
            let frame = LoopFrame::of_turn(alloc, used, name.as_str(), item, counts)?;
            Ok(Turn::Body(0, Frame::Loop(frame), None))
        }
        None => Ok(Turn::End),
    }
}
