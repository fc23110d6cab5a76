//! Why a text is not data, and where.

use liquid_error::Error;
use std::alloc::{AllocError, AllocFailed, Global};

/// Why a text is not data.
#[derive(Debug, Drop, thiserror::Error)]
pub enum DataFault {
    /// Memory ran out.
    #[error("out of memory")]
    Memory,
    /// The text is not of its format: where, both from 1, and why.
    #[error("line {line}, column {column}: {cause}")]
    At {
        line: usize,
        column: usize,
        cause: String,
    },
    /// A value of the text can't be a value of a template.
    #[error("{0}")]
    Value(Error),
}

impl DataFault {
    ghost use Rattle.page_site.specs.meaning.data_files.Sheet.{IsPlaced};

    /// Returns the fault at a place, both from 1, with its cause.
    pub(crate) fn at(alloc: Global, line: usize, column: usize, cause: &str) -> DataFault
        ensures { IsPlaced result }
    {
        match String::from_str(alloc, cause) {
            Ok(cause) => DataFault::At {
                line,
                column,
                cause,
            },
            Err(_) => DataFault::Memory,
        }
    }
}

impl From<AllocError> for DataFault {
    ghost use Rattle.std.specs.Prelude.{◌≡◌};
    ghost use Rattle.page_site.specs.declared.data_files.fault.DataFault.TheVariants.{Memory};

    ghost from_gives = { λ _ fault. fault ≡ Memory };

    fn from(_refused: AllocError) -> DataFault {
        DataFault::Memory
    }
}

impl<T: Drop> From<AllocFailed<T>> for DataFault {
    ghost use Rattle.std.specs.Prelude.{◌≡◌};
    ghost use Rattle.page_site.specs.declared.data_files.fault.DataFault.TheVariants.{Memory};

    ghost from_gives = { λ _ fault. fault ≡ Memory };

    fn from(_refused: AllocFailed<T>) -> DataFault {
        DataFault::Memory
    }
}

/// Returns the line and the column of a position in a text, both from 1. A column counts characters.
pub(crate) fn place_of(text: &str, position: usize) -> (usize, usize) {
    let mut line: usize = 1;
    let mut column: usize = 1;
    for (at, character) in text.char_indices() {
        if at >= position {
            break;
        }
        if character == '\n' {
            line = line.saturating_add(1);
            column = 1;
        } else {
            column = column.saturating_add(1);
        }
    }
    (line, column)
}
