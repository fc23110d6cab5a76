//! The turns of a table: texts of rows and cells, and between them the bodies of the items.
ghost use Rattle.std.specs.Prelude.{◌≡◌, ◌+◌, option_map, string_bytes, IfOk, IfSome, OnOk};
ghost use Rattle.liquid_error.specs.meaning.Told.{Gives};
ghost use Rattle.liquid_value.specs.meaning.View.{view as tree_of};
ghost use Rattle.liquid_runtime.specs.meaning.LoopNames.{item_tree};
ghost use Rattle.liquid_runtime.specs.meaning.Maps.{names_of};
ghost use Rattle.liquid_runtime.specs.meaning.Written.{SameFrames};
ghost use Rattle.liquid_plugins.specs.meaning.TurnOf.{turn_of, Leaves, LeavesProgress};
ghost use Rattle.liquid_plugins.specs.meaning.Turns.{text_turn};
ghost use Rattle.liquid_tags.specs.meaning.Loops.{is_left, rested};
ghost use Rattle.liquid_tags.specs.meaning.Series.{series_of};
ghost use Rattle.liquid_std.specs.meaning.iteration.Loops.{loop_of};
ghost use Rattle.liquid_std.specs.meaning.iteration.Picked.{picked_left};
ghost use Rattle.liquid_std.specs.meaning.iteration.Tables.{after_body, after_text, body_of, cell_turn, is_nil, is_over_nil, names_of_cell};
ghost use Rattle.liquid_std.specs.meaning.iteration.Tables.{table, table_of, table_over, table_takes, text_at};

use crate::iteration::cells::{tablerowloop, text_between};
use crate::iteration::loops::{Loop, picked_items};
use crate::iteration::options::option_number;
use crate::iteration::picked::{Picked, clamp_negative};
use crate::iteration::scalars::OverScalar;
use liquid_core::parser::{ListOf, Meant, TreeMark};
use liquid_core::runtime::{Interrupt, LoopItem};
use liquid_core::{Error, Frame, Object, Runtime, Turn, Value, no_names};
use liquid_tags::Series;
use liquid_tags::names::bind;
use std::alloc::{AllocError, Global};

/// What comes next in a table.
#[derive(Debug, Clone, Copy, PartialEq, Eq, Drop)]
pub enum Stage {
    /// The text before the next item's body, or after the last one's.
    Text,
    /// The body of the next item.
    Body,
    /// The end.
    End,
}

/// The progress of a table.
#[derive(Drop)]
pub struct Table {
    /// The items that are left.
    left: Picked,
    /// The place of the first of them.
    place: u64,
    /// The number of items at the start.
    size: u64,
    /// The number of columns, or 0 if all cells are in one row.
    columns: u64,
    /// What comes next.
    stage: Stage,
    /// The greatest number of turns: two for each item, the last text, and the end.
    turns: u64,
}

/// Marks the shape of a table's progress.
pub struct TableShape {
    pub left: ListOf<TreeMark>,
    pub place: u64,
    pub size: u64,
    pub columns: u64,
    pub stage: Stage,
    pub turns: u64,
}

impl Meant for Table {
    type Shape = TableShape;

    ghost shape = { table_of };
}

impl Table {
    /// Returns a table that starts over these items, in this number of columns, or in one row if that is 0.
    fn of(items: Picked, columns: u64) -> Result<Table, AllocError>
        ensures { IfOk result (λ t. table_of t ≡ table (picked_left items) columns) }
    {
        let size = items.len();
        match turns_over(size) {
            Some(turns) => Ok(Table {
                left: items,
                place: 0,
                size,
                columns,
                stage: Stage::Text,
                turns,
            }),
            None => Err(AllocError),
        }
    }

    /// Returns the greatest number of turns.
    pub fn turns(&self) -> u64
        ensures { result ≡ (table_of self.now).turns }
    {
        self.turns
    }
}

/// Returns the number of turns of a table of that many items, if it fits into 64 bits.
fn turns_over(size: u64) -> Option<u64>
    ensures { IfSome result (λ turns. turns ≡ size + size + 2) }
{
    size.checked_add(size)?.checked_add(2)
}

/// Returns the table over the items of a loop, or `None` over nil.
///
/// Over nil no option is evaluated. Otherwise `cols` is evaluated after the other options.
#[inline(never)]
pub fn table_over<R: Runtime>(
    alloc: Global,
    header: &Loop,
    runtime: &R,
) -> Result<Option<Box<Table>>, Error>
    ensures { Gives (option_map (λ t. table_of t.value)) result (table_over (R.view runtime.now) (loop_of header.now)) }
{
    if is_over_nil(alloc, &header.series, runtime)? {
        return Ok(None);
    }
    let items = picked_items(alloc, OverScalar::Refused, header, runtime)?;
    let columns = option_number(alloc, &header.options.cols, runtime)?;
    let table = Table::of(items, clamp_negative(columns.unwrap_or(0)))?;
    Ok(Some(Box::new(alloc, table)?))
}

/// Returns `true` if a series is the value nil.
fn is_over_nil<R: Runtime>(alloc: Global, series: &Series, runtime: &R) -> Result<bool, Error>
    ensures { Gives (λ b. b) result (is_over_nil (R.view runtime.now) (series_of series.now)) }
{
    match series {
        Series::Of(value) => Ok(is_nil(value.evaluate(alloc, runtime)?.as_view())),
        Series::Between(_, _) => Ok(false),
    }
}

fn is_nil(value: &Value) -> bool
    ensures { result ≡ is_nil (tree_of value.now) }
{
    match value {
        Value::Nil => true,
        _ => false,
    }
}

/// Returns the next turn of a table whose items have this name: a text, the body of the next item, or the end.
#[inline(never)]
pub fn table_turn<R: Runtime>(
    alloc: Global,
    name: &String,
    table: &mut Table,
    runtime: &mut R,
) -> Result<Turn, Error>
    ensures answer { Gives turn_of result (table_takes (string_bytes name.now) (table_of table.old) (R.view runtime.old)).answer }
    ensures after { Leaves result (table_takes (string_bytes name.now) (table_of table.old) (R.view runtime.old)).written
        (R.view runtime.old) (R.view runtime.new) }
    ensures progress { LeavesProgress result (table_takes (string_bytes name.now) (table_of table.old) (R.view runtime.old)).progress
        (table_of table.new) }
    ensures frames { SameFrames (R.view runtime.old) (R.view runtime.new) }
    ensures store { R.store runtime.new ≡ R.store runtime.old }
    ensures owes { R.restores runtime.new ≡ R.restores runtime.old }
    ensures borrows { R.lent runtime.new ≡ R.lent runtime.old }
{
    match table.stage {
        Stage::Text => {
            let is_left = has_left(table.place, runtime);
            Ok(next_text(alloc, table, is_left)?)
        }
        Stage::Body => Ok(next_body(alloc, name, table)?),
        Stage::End => Ok(Turn::End),
    }
}

/// Returns `true` if the body before a place has ended the table by `break`, and clears the interrupt of that body.
fn has_left<R: Runtime>(place: u64, runtime: &mut R) -> bool
    ensures answer { result ≡ is_left place (R.view runtime.old).interrupt }
    ensures view { R.view runtime.new ≡ rested place (R.view runtime.old) }
    ensures frames { SameFrames (R.view runtime.old) (R.view runtime.new) }
    ensures store { R.store runtime.new ≡ R.store runtime.old }
    ensures owes { R.restores runtime.new ≡ R.restores runtime.old }
    ensures borrows { R.lent runtime.new ≡ R.lent runtime.old }
{
    if place > 0 {
        match runtime.registers_mut().interrupt.reset() {
            Some(Interrupt::Break) => true,
            _ => false,
        }
    } else {
        false
    }
}

/// Returns the turn of the text at the table's place. It is the last text if the table is left or has no more items.
fn next_text(alloc: Global, table: &mut Table, is_left: bool) -> Result<Turn, AllocError>
    ensures answer { IfOk result (λ turn. turn_of turn ≡ text_turn (text_at (table_of table.old) is_left)) }
    ensures after { OnOk result (table_of table.new ≡ after_text (table_of table.old) is_left) }
{
    let goes_on = table.place < table.size && !is_left;
    let text = text_between(alloc, table.columns, table.place, goes_on)?;
    table.stage = if goes_on { Stage::Body } else { Stage::End };
    Ok(Turn::Text(text))
}

/// Removes the next item, and returns the turn of its body.
fn next_body(alloc: Global, name: &String, table: &mut Table) -> Result<Turn, AllocError>
    ensures answer { IfOk result (λ turn. turn_of turn ≡ body_of (string_bytes name.now) (table_of table.old)) }
    ensures after { OnOk result (table_of table.new ≡ after_body (table_of table.old)) }
{
    let place = table.place;
    match place.checked_add(1) {
        Some(next) => {
            let item = table.left.take_first()?;
            table.place = next;
            table.stage = Stage::Text;
            cell_turn(alloc, name, table.columns, place, table.size, item)
        }
        None => Err(AllocError),
    }
}

/// Returns the turn of the item at a place, or the end if there is none.
fn cell_turn(
    alloc: Global,
    name: &String,
    columns: u64,
    place: u64,
    size: u64,
    item: Option<LoopItem>,
) -> Result<Turn, AllocError>
    ensures { IfOk result (λ turn. turn_of turn ≡ cell_turn (string_bytes name.now) columns place size (option_map item_tree item)) }
{
    match item {
        Some(item) => {
            let cell = tablerowloop(alloc, columns, place, size)?;
            let names = names_of_cell(alloc, name, cell, item.to_value()?)?;
            Ok(Turn::Body(0, Frame::Stack(names, None), None))
        }
        None => Ok(Turn::End),
    }
}

/// Returns the names of an item's frame: `tablerowloop`, and then the name of the item, which wins if it is the same.
fn names_of_cell(
    alloc: Global,
    name: &String,
    cell: Value,
    item: Value,
) -> Result<Object, AllocError>
    ensures { IfOk result (λ names. names_of names ≡ names_of_cell (string_bytes name.now) (tree_of cell) (tree_of item)) }
{
    let mut names = no_names(alloc);
    bind(alloc, &mut names, "tablerowloop", cell)?;
    bind(alloc, &mut names, name.as_str(), item)?;
    Ok(names)
}
