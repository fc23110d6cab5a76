//! The filters on any value.
ghost use Rattle.liquid_filters.specs.meaning.Standard.{value_sense};

use crate::arguments::CallArguments;
use crate::json_text::json;
use crate::parameters::{ALLOW_FALSE, NONE, VALUE};
use crate::row::{FilterKind, FilterRow};
use crate::values::{default, size};
use liquid_error::Error;
use liquid_value::Value;
use std::alloc::Global;

/// A filter on any value.
#[derive(Debug, Clone, Copy, PartialEq, Eq, Drop)]
pub enum ValueKind {
    Default,
    Json,
    Size,
}

impl FilterKind for ValueKind {
    ghost sense = { value_sense };

    fn row(&self) -> FilterRow {
        match self {
            ValueKind::Default => FilterRow {
                name: "default",
                description: "Replaces an input that is nil, false or empty.",
                parameters: &VALUE,
                keywords: &ALLOW_FALSE,
            },
            ValueKind::Json => FilterRow::new("json", "Converts the input to JSON.", &NONE),
            ValueKind::Size => FilterRow::new("size", "Counts the entries or characters.", &NONE),
        }
    }

    fn answer(
        &self,
        alloc: Global,
        input: &Value,
        arguments: &CallArguments<'_>,
    ) -> Result<Value, Error> {
        match self {
            ValueKind::Default => default(alloc, input, arguments),
            ValueKind::Json => json(alloc, input),
            ValueKind::Size => size(alloc, input),
        }
    }
}
