//! The rows and cells of a table.
ghost use Rattle.std.specs.Prelude.{◌≡◌, ◌+◌, ◌-◌, pos, string_bytes, IfOk};
ghost use Rattle.liquid_scalar.specs.meaning.Scalar.{boolean, integer};
ghost use Rattle.liquid_value.specs.meaning.Members.{put_member};
ghost use Rattle.liquid_value.specs.meaning.Tree.{scalar};
ghost use Rattle.liquid_value.specs.meaning.View.{view as tree_of, members_view};
ghost use Rattle.liquid_std.specs.meaning.iteration.Cells.{begins, cell_members, column_at, next_cell};
ghost use Rattle.liquid_std.specs.meaning.iteration.Cells.{next_row, opens_cell, row_at, tablerowloop};
ghost use Rattle.liquid_std.specs.meaning.iteration.Cells.{text_between};

use liquid_core::runtime::Counts;
use liquid_core::{Object, SharedObject, Value};
use std::alloc::{AllocError, Global};

/// Returns the number of the row of the item at a place, from 1. Places count from 0; without columns there is one row.
fn row_at(columns: u64, place: u64) -> Result<u64, AllocError>
    ensures { IfOk result (λ row. row ≡ row_at columns place) }
{
    if columns == 0 {
        return Ok(1);
    }
    one_more(place / columns)
}

/// Returns the number of the column of the item at a place, from 1.
fn column_at(columns: u64, place: u64) -> Result<u64, AllocError>
    ensures { IfOk result (λ column. column ≡ column_at columns place) }
{
    if columns == 0 {
        return one_more(place);
    }
    one_more(place % columns)
}

/// Returns the next number. If it does not fit, the error is out of memory: no memory holds that many items.
fn one_more(number: u64) -> Result<u64, AllocError>
    ensures { IfOk result (λ n. n ≡ number + 1) }
{
    match number.checked_add(1) {
        Some(next) => Ok(next),
        None => Err(AllocError),
    }
}

/// Returns the object `tablerowloop` of the item at a place.
pub(crate) fn tablerowloop(
    alloc: Global,
    columns: u64,
    place: u64,
    size: u64,
) -> Result<Value, AllocError>
    ensures { IfOk result (λ v. tree_of v ≡ tablerowloop columns place size) }
{
    let mut members = Counts { place, size }.to_object(alloc)?;
    let column = column_at(columns, place)?;
    let row = row_at(columns, place)?;
    put_cell(alloc, &mut members, columns, row, column)?;
    Ok(Value::Object(SharedObject::shared(alloc, members)?))
}

/// Inserts the members that describe the cell in this row and column.
fn put_cell(
    alloc: Global,
    members: &mut Object,
    columns: u64,
    row: u64,
    column: u64,
) -> Result<(), AllocError>
    ensures { IfOk result (λ _. members_view members.new.entries ≡ cell_members columns row column (members_view members.old.entries)) }
{
    put_number(alloc, members, "row", row)?;
    put_number(alloc, members, "col", column)?;
    put_number(alloc, members, "col0", column.saturating_sub(1))?;
    put(alloc, members, "col_first", Value::scalar(column == 1))?;
    put(alloc, members, "col_last", Value::scalar(column == columns))
}

/// Inserts a count. If it does not fit, the error is out of memory: no memory holds that many items.
fn put_number(alloc: Global, members: &mut Object, name: &str, count: u64) -> Result<(), AllocError>
    ensures { IfOk result
        (λ _. members_view members.new.entries ≡ put_member name.now (scalar (integer (pos count))) (members_view members.old.entries)) }
{
    match i64::try_from(count) {
        Ok(number) => put(alloc, members, name, Value::scalar(number)),
        Err(_) => Err(AllocError),
    }
}

/// Inserts a member.
#[tactic(auto, using(liquid_runtime::proofs::LoopLaws::inserted))]
fn put(alloc: Global, members: &mut Object, name: &str, value: Value) -> Result<(), AllocError>
    ensures { IfOk result (λ _. members_view members.new.entries
        ≡ put_member name.now (tree_of value) (members_view members.old.entries)) }
{
    drop(members.insert(String::from_str(alloc, name)?, value)?);
    Ok(())
}

/// Returns the text at a place: before the body of the first item, between two bodies, or after the last one.
pub(crate) fn text_between(
    alloc: Global,
    columns: u64,
    place: u64,
    goes_on: bool,
) -> Result<String, AllocError>
    ensures { IfOk result (λ text. string_bytes text ≡ text_between columns place goes_on) }
{
    let begins = begins(place);
    if goes_on {
        let cell = next_cell(alloc, columns, place)?;
        let mut text = String::from_str(alloc, begins)?;
        text.push_str(cell.as_str())?;
        Ok(text)
    } else {
        format!(in alloc; "{begins}</tr>\n")
    }
}

/// Returns the text that closes the cell before a place, or opens the first row.
fn begins(place: u64) -> &'static str
    ensures { result.now ≡ begins place }
{
    if place == 0 {
        "<tr class=\"row1\">\n"
    } else {
        "</td>"
    }
}

/// Returns the text that opens the cell at a place. If the cell begins a row, the text between the rows comes first.
fn next_cell(alloc: Global, columns: u64, place: u64) -> Result<String, AllocError>
    ensures { IfOk result (λ text. string_bytes text ≡ next_cell columns place) }
{
    let column = column_at(columns, place)?;
    let cell = opens_cell(alloc, column)?;
    let mut text = next_row(alloc, columns, place)?;
    text.push_str(cell.as_str())?;
    Ok(text)
}

/// Returns the text that opens a cell in this column.
fn opens_cell(alloc: Global, column: u64) -> Result<String, AllocError>
    ensures { IfOk result (λ text. string_bytes text ≡ opens_cell column) }
{
    format!(in alloc; "<td class=\"col{column}\">")
}

/// Returns the text between two rows if a row other than the first begins at a place, and an empty text otherwise.
fn next_row(alloc: Global, columns: u64, place: u64) -> Result<String, AllocError>
    ensures { IfOk result (λ text. string_bytes text ≡ next_row columns place) }
{
    if place > 0 && column_at(columns, place)? == 1 {
        let row = row_at(columns, place)?;
        format!(in alloc; "</tr>\n<tr class=\"row{row}\">")
    } else {
        Ok(String::new(alloc))
    }
}
