//! The kind of the filter `date`.
ghost use Rattle.liquid_filters.specs.meaning.Standard.{date_sense};

use crate::arguments::CallArguments;
use crate::dates::date;
use crate::parameters::PATTERN;
use crate::row::{FilterKind, FilterRow};
use liquid_dates::DateTime;
use liquid_error::Error;
use liquid_value::Value;
use std::alloc::Global;

/// The filter `date`, with the moment that the strings `now` and `today` mean, if there is one.
#[derive(Clone, Copy, Drop)]
pub struct DateKind {
    pub now: Option<DateTime>,
}

impl FilterKind for DateKind {
    ghost sense = { date_sense };

    fn row(&self) -> FilterRow {
        FilterRow::new(
            "date",
            "Formats a date or a date time by a pattern.",
            &PATTERN,
        )
    }

    fn answer(
        &self,
        alloc: Global,
        input: &Value,
        arguments: &CallArguments<'_>,
    ) -> Result<Value, Error> {
        date(alloc, self.now, input, arguments.positional)
    }
}
