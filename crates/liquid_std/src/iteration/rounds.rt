//! The turns of a loop.
ghost use Rattle.std.specs.Prelude.{◌≡◌, option_map, slice_get, string_bytes, IfOk, OnOk};
ghost use Rattle.liquid_error.specs.meaning.Told.{Gives};
ghost use Rattle.liquid_runtime.specs.meaning.LoopNames.{item_tree};
ghost use Rattle.liquid_runtime.specs.meaning.Written.{SameFrames};
ghost use Rattle.liquid_plugins.specs.meaning.TurnOf.{turn_of, Leaves, LeavesProgress};
ghost use Rattle.liquid_tags.specs.meaning.Loops.{following, loop_takes};
ghost use Rattle.liquid_std.specs.meaning.iteration.Loops.{rounds_of, rounds_over};
ghost use Rattle.liquid_std.specs.meaning.iteration.Picked.{picked_left};

use crate::iteration::picked::Picked;
use liquid_core::parser::Meant;
use liquid_core::runtime::{Counts, Interrupt, LoopFrame, LoopItem};
use liquid_core::{Error, Runtime, Turn};
use liquid_tags::for_block::rounds::RoundsShape;
use liquid_tags::for_block::turns::item_turn;
use std::alloc::{AllocError, Global};
use std::mem;

/// The progress of a loop.
#[derive(Drop)]
pub struct Rounds {
    /// The items that are left.
    left: Picked,
    /// The place of the first of them.
    place: u64,
    /// The number of items at the start.
    size: u64,
    /// The greatest number of turns: one for each item, and one after the last.
    turns: u64,
    /// The frame of the turn that has ended. The next turn writes over it.
    frame: Option<Box<LoopFrame>>,
}

impl Meant for Rounds {
    type Shape = RoundsShape;

    ghost shape = { rounds_of };
}

impl Rounds {
    /// Returns the greatest number of turns.
    pub fn turns(&self) -> u64
        ensures { result ≡ (rounds_of self.now).turns }
    {
        self.turns
    }

    /// Keeps the frame of a turn that has ended, for the next one to write over.
    pub fn recycle(&mut self, frame: Box<LoopFrame>)
        ensures { rounds_of self.new ≡ rounds_of self.old }
    {
        self.frame = Some(frame);
    }
}

/// Returns the progress of a loop that starts over these items, or `None` if there are none.
#[inline(never)]
pub fn rounds_over(alloc: Global, items: Picked) -> Result<Option<Box<Rounds>>, AllocError>
    ensures { IfOk result (λ rounds. option_map (λ r. rounds_of r.value) rounds ≡ rounds_over (picked_left items)) }
{
    let size = items.len();
    if size == 0 {
        return Ok(None);
    }
    match size.checked_add(1) {
        Some(turns) => {
            let rounds = Rounds {
                left: items,
                place: 0,
                size,
                turns,
                frame: None,
            };
            Ok(Some(Box::new(alloc, rounds)?))
        }
        None => Err(AllocError),
    }
}

/// Returns the next turn of a loop whose items have this name: the part of the next item, or the end.
#[inline(always)]
pub fn loop_turn<R: Runtime>(
    alloc: Global,
    name: &String,
    rounds: &mut Rounds,
    runtime: &mut R,
) -> Result<Turn, Error>
    ensures answer { Gives turn_of result (loop_takes (string_bytes name.now) (rounds_of rounds.old) (R.view runtime.old)).answer }
    ensures after { Leaves result (loop_takes (string_bytes name.now) (rounds_of rounds.old) (R.view runtime.old)).written
        (R.view runtime.old) (R.view runtime.new) }
    ensures progress { LeavesProgress result (loop_takes (string_bytes name.now) (rounds_of rounds.old) (R.view runtime.old)).progress
        (rounds_of rounds.new) }
    ensures frames { SameFrames (R.view runtime.old) (R.view runtime.new) }
    ensures store { R.store runtime.new ≡ R.store runtime.old }
    ensures owes { R.restores runtime.new ≡ R.restores runtime.old }
    ensures borrows { R.lent runtime.new ≡ R.lent runtime.old }
{
    let (place, size) = (rounds.place, rounds.size);
    let item = next_item(rounds)?;
    if place > 0 {
        if let Some(Interrupt::Break) = runtime.registers_mut().interrupt.reset() {
            return Ok(Turn::End);
        }
    }
    let used = mem::replace(&mut rounds.frame, None);
    Ok(item_turn(alloc, name, used, Counts { place, size }, item)?)
}

/// Removes the next item and returns it, if there is one.
fn next_item(rounds: &mut Rounds) -> Result<Option<LoopItem>, AllocError>
    ensures item { IfOk result (λ item. option_map item_tree item ≡ slice_get (rounds_of rounds.old).left 0) }
    ensures following { OnOk result (rounds_of rounds.new ≡ following (rounds_of rounds.old)) }
{
    match rounds.place.checked_add(1) {
        Some(place) => {
            let item = rounds.left.take_first()?;
            rounds.place = place;
            Ok(item)
        }
        None => Err(AllocError),
    }
}
