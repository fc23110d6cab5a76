//! The nodes of blocks, and how they are rendered.
ghost use Rattle.std.specs.Prelude.{◌≡◌};
ghost use Rattle.liquid_std.specs.laws.BlockLaws.{blocks_hide};
ghost use Rattle.liquid_std.specs.meaning.Blocks.{block_count, block_nodes, block_of, progress_of};

use crate::capture::capture_turn;
use crate::conditions::branches::CaseShape;
use crate::conditions::condition::ConditionShape;
use crate::conditions::{Case, Condition, Equality, part_case, part_if, part_unless};
use crate::iteration::loops::LoopShape;
use crate::iteration::tables::TableShape;
use crate::iteration::{
    Loop, OverScalar, Rounds, Table, loop_turn, picked_items, table_over, table_turn,
};
use crate::loops::{start_rounds, start_table};
use crate::marks::{HoldsMarks, changed_turn};
use liquid_core::parser::{Bytes, ListOf, Meant};
use liquid_core::runtime::LoopFrame;
use liquid_core::{Discreet, Error, Frame, Renderable, Runtime, Turn};
use liquid_tags::for_block::rounds::RoundsShape;
use std::alloc::Global;

/// The node of a block.
#[derive(Drop)]
pub enum StdBlock {
    /// Renders the part after the first condition that holds, or the part after them all if none does.
    If(Equality, Vec<Condition>),
    /// Like `If`, except that the first condition must not hold.
    Unless(Equality, Vec<Condition>),
    /// Renders the part of the first `when` with an equal value, or the part after them all if there is none.
    Case(Equality, Box<Case>),
    /// Renders the first part for each item, or the second part if there are no items.
    For(OverScalar, Box<Loop>),
    /// Renders a table, with its part in a cell for each item.
    Tablerow(Box<Loop>),
    /// Assigns the text of its part to this name.
    Capture(String),
    /// Writes the text of its part, unless it is that of the last such block.
    Ifchanged,
    /// Writes nothing.
    Comment,
    /// Writes this text unchanged.
    Raw(String),
}

/// Marks the shape of a block.
pub enum StdBlockShape {
    If(Equality, ListOf<ConditionShape>),
    Unless(Equality, ListOf<ConditionShape>),
    Case(Equality, CaseShape),
    For(OverScalar, LoopShape),
    Tablerow(LoopShape),
    Capture(Bytes),
    Ifchanged,
    Comment,
    Raw(Bytes),
}

/// The progress of a block.
#[derive(Drop)]
pub enum StdProgress {
    /// One turn, with this part or with the block's text.
    Once(u64),
    /// A loop. It is in a box, so that the progress of the other blocks is small.
    Rounds(Box<Rounds>),
    /// A table, which is in a box too.
    Table(Box<Table>),
    /// A `capture` or an `ifchanged`, with the text of its part once the part is rendered.
    Capturing(Option<String>),
}

/// Marks the shape of a block's progress.
pub enum StdProgressShape {
    Once(u64),
    Rounds(RoundsShape),
    Table(TableShape),
    Capturing(Option<Bytes>),
}

impl StdProgress {
    /// Returns the greatest number of turns.
    pub fn turns(&self) -> u64
        ensures { result ≡ block_count (progress_of self.now) }
    {
        match self {
            StdProgress::Once(_) => 1,
            StdProgress::Rounds(rounds) => rounds.turns(),
            StdProgress::Table(table) => table.turns(),
            StdProgress::Capturing(_) => 2,
        }
    }
}

impl Meant for StdBlock {
    type Shape = StdBlockShape;

    ghost shape = { block_of };
}

impl Meant for StdProgress {
    type Shape = StdProgressShape;

    ghost shape = { progress_of };
}

impl<V: HoldsMarks> Renderable<V> for StdBlock {
    type Progress = StdProgress;

    ghost means = { block_nodes V.holds };

    fn start<R: Runtime<Register = V>>(
        &self,
        alloc: Global,
        runtime: &mut R,
    ) -> Result<StdProgress, Error> {
        match self {
            StdBlock::If(equality, conditions) => {
                let part = part_if(alloc, *equality, conditions.as_slice(), &*runtime)?;
                Ok(StdProgress::Once(part))
            }
            StdBlock::Unless(equality, conditions) => {
                let part = part_unless(alloc, *equality, conditions.as_slice(), &*runtime)?;
                Ok(StdProgress::Once(part))
            }
            StdBlock::Case(equality, case) => {
                let part = part_case(alloc, *equality, &**case, &*runtime)?;
                Ok(StdProgress::Once(part))
            }
            StdBlock::For(over, header) => {
                let items = picked_items(alloc, *over, &**header, &*runtime)?;
                Ok(start_rounds(alloc, items)?)
            }
            StdBlock::Tablerow(header) => {
                let table = table_over(alloc, &**header, &*runtime)?;
                Ok(start_table(table))
            }
            StdBlock::Capture(_) | StdBlock::Ifchanged => Ok(StdProgress::Capturing(None)),
            StdBlock::Comment | StdBlock::Raw(_) => Ok(StdProgress::Once(0)),
        }
    }

    fn turns(progress: &StdProgress) -> u64 {
        progress.turns()
    }

    #[inline(always)]
    fn turn<R: Runtime<Register = V>>(
        &self,
        alloc: Global,
        progress: &mut StdProgress,
        runtime: &mut R,
    ) -> Result<Turn, Error> {
        match (self, progress) {
            (StdBlock::Raw(text), _) => Ok(Turn::Text(text.clone()?)),
            (StdBlock::Comment, _) => Ok(Turn::End),
            (StdBlock::For(_, header), StdProgress::Rounds(rounds)) => {
                loop_turn(alloc, &header.name, &mut **rounds, runtime)
            }
            (StdBlock::Tablerow(header), StdProgress::Table(table)) => {
                table_turn(alloc, &header.name, &mut **table, runtime)
            }
            (StdBlock::Capture(name), StdProgress::Capturing(text)) => {
                capture_turn(alloc, name, text, runtime)
            }
            (StdBlock::Ifchanged, StdProgress::Capturing(text)) => changed_turn(text, runtime),
            (_, StdProgress::Once(part)) => Ok(Turn::Body(*part, Frame::None, None)),
            (_, StdProgress::Rounds(_) | StdProgress::Table(_) | StdProgress::Capturing(_)) => {
                Ok(Turn::End)
            }
        }
    }

    fn recycle(&self, progress: &mut StdProgress, frame: Box<LoopFrame>) {
        match progress {
            StdProgress::Rounds(rounds) => rounds.recycle(frame),
            StdProgress::Once(_) | StdProgress::Table(_) | StdProgress::Capturing(_) => {}
        }
    }

    fn caught(&self, progress: &mut StdProgress, text: String) {
        match self {
            StdBlock::Capture(_) | StdBlock::Ifchanged => {
                *progress = StdProgress::Capturing(Some(text))
            }
            _ => drop(text),
        }
    }
}

impl<V: HoldsMarks> Discreet<V> for StdBlock {
    ghost hides = { blocks_hide V.holds };
}
