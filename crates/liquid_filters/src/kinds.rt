//! The kinds of standard filters.
ghost use Rattle.liquid_filters.specs.meaning.Standard.{std_sense};

use crate::arguments::CallArguments;
use crate::date_kind::DateKind;
use crate::list_kinds::ListKind;
use crate::number_kinds::NumberKind;
use crate::row::{FilterKind, FilterRow};
use crate::text_kinds::TextKind;
use crate::value_kinds::ValueKind;
use liquid_error::Error;
use liquid_value::Value;
use std::alloc::Global;

/// A standard filter.
#[derive(Clone, Copy, Drop)]
pub enum StdKind {
    Texts(TextKind),
    Lists(ListKind),
    Numbers(NumberKind),
    Values(ValueKind),
    Dates(DateKind),
}

impl FilterKind for StdKind {
    ghost sense = { std_sense };

    fn row(&self) -> FilterRow {
        match self {
            StdKind::Texts(kind) => kind.row(),
            StdKind::Lists(kind) => kind.row(),
            StdKind::Numbers(kind) => kind.row(),
            StdKind::Values(kind) => kind.row(),
            StdKind::Dates(kind) => kind.row(),
        }
    }

    fn answer(
        &self,
        alloc: Global,
        input: &Value,
        arguments: &CallArguments<'_>,
    ) -> Result<Value, Error> {
        match self {
            StdKind::Texts(kind) => kind.answer(alloc, input, arguments),
            StdKind::Lists(kind) => kind.answer(alloc, input, arguments),
            StdKind::Numbers(kind) => kind.answer(alloc, input, arguments),
            StdKind::Values(kind) => kind.answer(alloc, input, arguments),
            StdKind::Dates(kind) => kind.answer(alloc, input, arguments),
        }
    }
}
