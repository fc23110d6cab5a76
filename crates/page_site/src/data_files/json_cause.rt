//! Why a text is not JSON, in plain words.
ghost use Rattle.std.specs.Prelude.{◌≡◌};
ghost use Rattle.serde_json.specs.Errors.{IsMemory};
ghost use Rattle.page_site.specs.meaning.data_files.Sheet.{IsPlaced};

use crate::data_files::fault::{DataFault, place_of};
use serde_json::Error;
use std::alloc::{AllocError, Global};

/// Returns the fault of a text that is not JSON.
pub(crate) fn fault_of_json(alloc: Global, text: &str, error: &Error) -> DataFault
    ensures placed { IsPlaced result }
    ensures memory { IsMemory error.now → result ≡ DataFault.Memory }
{
    if error.is_memory() {
        return DataFault::Memory;
    }
    let position = position_of(text, error.line(), error.column());
    let (line, column) = place_of(text, position);
    match cause_of(alloc, text, position, error) {
        Ok(cause) => DataFault::At {
            line,
            column,
            cause,
        },
        Err(_) => DataFault::Memory,
    }
}

/// Returns why a text is not JSON from a position on.
fn cause_of(
    alloc: Global,
    text: &str,
    position: usize,
    error: &Error,
) -> Result<String, AllocError> {
    if error.is_eof() {
        return String::from_str(alloc, "the text ends too soon");
    }
    let message = format!(in alloc; "{error}")?;
    let words = without_place(message.as_str());
    match hint_of(text, position) {
        Some(hint) => format!(in alloc; "{words}: {hint}"),
        None => String::from_str(alloc, words),
    }
}

/// Returns the words before a place.
fn without_place(message: &str) -> &str {
    match message.split_once(" at line ") {
        Some((words, _)) => words,
        None => message,
    }
}

/// Returns what may be meant by the character at a position, which can't come next.
fn hint_of(text: &str, position: usize) -> Option<&'static str> {
    let front = text.get(..position)?;
    match text.get(position..)?.chars().next() {
        Some('\'') => Some("a text is put between double quotes"),
        Some('/' | '#') => Some("JSON has no comments"),
        Some('}' | ']') if front.trim_end().ends_with(',') => Some("there is a comma before it"),
        _ => None,
    }
}

/// Returns the position of a line and a column in bytes, both from 1.
fn position_of(text: &str, line: usize, column: usize) -> usize {
    let mut position: usize = 0;
    for part in text.split('\n').take(line.saturating_sub(1)) {
        position = position.saturating_add(part.len()).saturating_add(1);
    }
    position.saturating_add(column.saturating_sub(1))
}
