//! The nodes of blocks, and how they are rendered.
ghost use Rattle.std.specs.Prelude.{◌≡◌, IfOk};
ghost use Rattle.liquid_tags.specs.laws.BlockLaws.{blocks_hide};
ghost use Rattle.liquid_tags.specs.meaning.Items.{items_left};
ghost use Rattle.liquid_tags.specs.meaning.Blocks.{block_count, block_nodes, block_of, over_items, progress_of};

use crate::for_block::items::Items;
use crate::for_block::rounds::{Rounds, RoundsShape};
use crate::for_block::series::{Series, SeriesShape, items_of};
use crate::for_block::turns::loop_turn;
use crate::if_block::condition::{Condition, ConditionShape, choose_part};
use liquid_core::parser::{Bytes, ListOf, Meant};
use liquid_core::runtime::LoopFrame;
use liquid_core::{Discreet, Error, Frame, Fresh, Renderable, Runtime, Turn};
use std::alloc::{AllocError, Global};

/// What a block is made into.
#[derive(Drop)]
pub enum BlockNode {
    /// The part after the first condition that holds, or the part after them all if none does.
    If(Vec<Condition>),
    /// The first part for each item, under a name, or the second part if there are no items.
    For(String, Box<Series>),
    /// A text that is written unchanged.
    Raw(String),
}

/// Marks the shape of a block.
pub enum BlockShape {
    If(ListOf<ConditionShape>),
    For(Bytes, SeriesShape),
    Raw(Bytes),
}

/// The progress of a block.
#[derive(Drop)]
pub enum BlockProgress {
    /// This part is next, or the block's text, and no turn follows it.
    Once(u64),
    /// A loop. It is in a box, so that the progress of the other blocks is small.
    Loop(Box<Rounds>),
}

/// Marks the shape of a block's progress.
pub enum ProgressShape {
    Once(u64),
    Loop(RoundsShape),
}

impl BlockProgress {
    /// Returns the greatest number of turns.
    pub fn turns(&self) -> u64
        ensures { result ≡ block_count (progress_of self.now) }
    {
        match self {
            BlockProgress::Once(_) => 1,
            BlockProgress::Loop(rounds) => rounds.turns,
        }
    }
}

impl Meant for BlockNode {
    type Shape = BlockShape;

    ghost shape = { block_of };
}

impl Meant for BlockProgress {
    type Shape = ProgressShape;

    ghost shape = { progress_of };
}

impl<V: Fresh> Renderable<V> for BlockNode {
    type Progress = BlockProgress;

    ghost means = { block_nodes };

    #[inline(always)]
    fn start<R: Runtime<Register = V>>(
        &self,
        alloc: Global,
        runtime: &mut R,
    ) -> Result<BlockProgress, Error> {
        match self {
            BlockNode::If(conditions) => {
                let part = choose_part(alloc, conditions.as_slice(), &*runtime)?;
                Ok(BlockProgress::Once(part))
            }
            BlockNode::For(_, series) => {
                let items = items_of(alloc, &**series, &*runtime)?;
                Ok(over_items(alloc, items)?)
            }
            BlockNode::Raw(_) => Ok(BlockProgress::Once(0)),
        }
    }

    fn turns(progress: &BlockProgress) -> u64 {
        progress.turns()
    }

    #[inline(always)]
    fn turn<R: Runtime<Register = V>>(
        &self,
        alloc: Global,
        progress: &mut BlockProgress,
        runtime: &mut R,
    ) -> Result<Turn, Error> {
        match (self, progress) {
            (BlockNode::Raw(text), _) => Ok(Turn::Text(text.clone()?)),
            (BlockNode::For(name, _), BlockProgress::Loop(rounds)) => {
                loop_turn(alloc, name, &mut **rounds, runtime)
            }
            (_, BlockProgress::Once(part)) => Ok(Turn::Body(*part, Frame::None, None)),
            (BlockNode::If(_), BlockProgress::Loop(_)) => Ok(Turn::End),
        }
    }

    fn recycle(&self, progress: &mut BlockProgress, frame: Box<LoopFrame>) {
        match progress {
            BlockProgress::Loop(rounds) => rounds.frame = Some(frame),
            BlockProgress::Once(_) => {}
        }
    }

    fn caught(&self, _progress: &mut BlockProgress, text: String) {
        drop(text);
    }
}

impl<V: Fresh> Discreet<V> for BlockNode {
    ghost hides = { blocks_hide };
}

/// Returns the progress of a loop over these items. Without items, the `else` part is next.
#[inline(never)]
fn over_items(alloc: Global, items: Items) -> Result<BlockProgress, AllocError>
    ensures { IfOk result (λ p. progress_of p ≡ over_items (items_left items)) }
{
    let size = items.len();
    if size == 0 {
        return Ok(BlockProgress::Once(1));
    }
    match size.checked_add(1) {
        Some(turns) => {
            let rounds = Rounds {
                left: items,
                place: 0,
                size,
                turns,
                frame: None,
            };
            Ok(BlockProgress::Loop(Box::new(alloc, rounds)?))
        }
        None => Err(AllocError),
    }
}
