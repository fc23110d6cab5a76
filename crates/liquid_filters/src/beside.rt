//! The kinds of a library and a host's own kinds, in one table.
ghost use Rattle.liquid_filters.specs.meaning.Registered.{sense_beside};

use crate::arguments::CallArguments;
use crate::row::{FilterKind, FilterRow};
use liquid_error::Error;
use liquid_value::Value;
use std::alloc::Global;

/// A kind of a library, or one of a host's own.
#[derive(Debug, Clone, Copy, Drop)]
pub enum Beside<L, O> {
    Library(L),
    Own(O),
}

impl<L: FilterKind, O: FilterKind> FilterKind for Beside<L, O> {
    ghost sense = { sense_beside L.sense O.sense };

    fn row(&self) -> FilterRow {
        match self {
            Beside::Library(kind) => kind.row(),
            Beside::Own(kind) => kind.row(),
        }
    }

    fn answer(
        &self,
        alloc: Global,
        input: &Value,
        arguments: &CallArguments<'_>,
    ) -> Result<Value, Error> {
        match self {
            Beside::Library(kind) => kind.answer(alloc, input, arguments),
            Beside::Own(kind) => kind.answer(alloc, input, arguments),
        }
    }
}
