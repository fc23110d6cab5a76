//! The blocks `for` and `tablerow`.
ghost use Rattle.std.specs.Prelude.{◌≡◌, option_map, IfOk};
ghost use Rattle.liquid_error.specs.meaning.Told.{Gives};
ghost use Rattle.liquid_parser.specs.meaning.Handed.{Tokens};
ghost use Rattle.liquid_parser.specs.meaning.Plugins.{AreTokens};
ghost use Rattle.liquid_std.specs.meaning.iteration.Picked.{picked_left};
ghost use Rattle.liquid_std.specs.meaning.iteration.Tables.{table_of};
ghost use Rattle.liquid_std.specs.meaning.BlockPlugins.{for_given, plan_of, tablerow_given};
ghost use Rattle.liquid_std.specs.meaning.Blocks.{over_items, over_table, progress_of};

use crate::block_plugins::StdPlan;
use crate::blocks::{StdBlock, StdProgress};
use crate::iteration::read_loop::read_loop;
use crate::iteration::{LoopBlock, OverScalar, Picked, Table, rounds_over};
use liquid_core::{Error, TagTokenIter};
use std::alloc::{AllocError, Global};

/// Reads the start tag of a `for`, with what it goes over if its series is a scalar.
pub(crate) fn begin_for(
    alloc: Global,
    over: OverScalar,
    tokens: TagTokenIter<'_>,
) -> Result<StdPlan, Error>
    ensures { (ts : Tokens) → AreTokens tokens.entry ts → Gives plan_of result (for_given over ts) }
{
    let header = read_loop(alloc, LoopBlock::For, tokens)?;
    let header = Box::new(alloc, header)?;
    Ok(StdPlan::new(StdBlock::For(over, header)))
}

/// Reads the start tag of a `tablerow`.
pub(crate) fn begin_tablerow(alloc: Global, tokens: TagTokenIter<'_>) -> Result<StdPlan, Error>
    ensures { (ts : Tokens) → AreTokens tokens.entry ts → Gives plan_of result (tablerow_given ts) }
{
    let header = read_loop(alloc, LoopBlock::Tablerow, tokens)?;
    let header = Box::new(alloc, header)?;
    Ok(StdPlan::new(StdBlock::Tablerow(header)))
}

/// Returns the progress of a loop over these items, or of its second part if there are none.
#[inline(never)]
pub(crate) fn start_rounds(alloc: Global, items: Picked) -> Result<StdProgress, AllocError>
    ensures { IfOk result (λ p. progress_of p ≡ over_items (picked_left items)) }
{
    match rounds_over(alloc, items)? {
        Some(rounds) => Ok(StdProgress::Rounds(rounds)),
        None => Ok(StdProgress::Once(1)),
    }
}

/// Returns the progress of a table. Without a table nothing is rendered.
pub(crate) fn start_table(table: Option<Box<Table>>) -> StdProgress
    ensures { progress_of result ≡ over_table (option_map (λ t. table_of t.value) table) }
{
    match table {
        Some(table) => StdProgress::Table(table),
        None => StdProgress::Once(1),
    }
}
