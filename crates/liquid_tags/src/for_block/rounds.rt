//! The progress of a loop.
ghost use Rattle.liquid_tags.specs.meaning.Loops.{rounds_of};

use crate::for_block::items::Items;
use liquid_core::parser::{ListOf, Meant, TreeMark};
use liquid_core::runtime::LoopFrame;

/// The items that a loop has left, the place of the first of them, how many items there were, and how many turns there
/// are: one for each item, and one after the last. In addition, the frame of the turn that has ended, which the next turn
/// writes over.
#[derive(Drop)]
pub struct Rounds {
    pub(crate) left: Items,
    pub(crate) place: u64,
    pub(crate) size: u64,
    pub(crate) turns: u64,
    pub(crate) frame: Option<Box<LoopFrame>>,
}

/// Marks the shape of a loop's progress.
pub struct RoundsShape {
    pub left: ListOf<TreeMark>,
    pub place: u64,
    pub size: u64,
    pub turns: u64,
}

impl Meant for Rounds {
    type Shape = RoundsShape;

    ghost shape = { rounds_of };
}
