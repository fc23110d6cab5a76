//! The kinds of Jekyll's filters.
ghost use Rattle.liquid_jekyll.specs.meaning.Senses.{jekyll_sense};

use crate::date_kinds::JekyllDateKind;
use crate::list_kinds::JekyllListKind;
use crate::text_kinds::JekyllTextKind;
use liquid_error::Error;
use liquid_filters::{CallArguments, FilterKind, FilterRow};
use liquid_value::Value;
use std::alloc::Global;

/// A filter of Jekyll.
#[derive(Clone, Copy, Drop)]
pub enum JekyllKind {
    Texts(JekyllTextKind),
    Lists(JekyllListKind),
    Dates(JekyllDateKind),
}

impl FilterKind for JekyllKind {
    ghost sense = { jekyll_sense };

    fn row(&self) -> FilterRow {
        match self {
            JekyllKind::Texts(kind) => kind.row(),
            JekyllKind::Lists(kind) => kind.row(),
            JekyllKind::Dates(kind) => kind.row(),
        }
    }

    fn answer(
        &self,
        alloc: Global,
        input: &Value,
        arguments: &CallArguments<'_>,
    ) -> Result<Value, Error> {
        match self {
            JekyllKind::Texts(kind) => kind.answer(alloc, input, arguments),
            JekyllKind::Lists(kind) => kind.answer(alloc, input, arguments),
            JekyllKind::Dates(kind) => kind.answer(alloc, input, arguments),
        }
    }
}
