//! The kinds of Jekyll's filters on dates.
ghost use Rattle.liquid_jekyll.specs.meaning.Senses.{date_sense};

use crate::dates::{DateForm, write_date};
use crate::parameters::{DAY, NONE};
use liquid_dates::DateTime;
use liquid_error::Error;
use liquid_filters::{CallArguments, FilterKind, FilterRow};
use liquid_value::Value;
use std::alloc::Global;

/// A filter that writes a date, with the moment that the strings `now` and `today` mean, if there is one.
#[derive(Clone, Copy, Drop)]
pub struct JekyllDateKind {
    pub form: DateForm,
    pub now: Option<DateTime>,
}

impl FilterKind for JekyllDateKind {
    ghost sense = { date_sense };

    fn row(&self) -> FilterRow {
        match self.form {
            DateForm::Short => FilterRow::new(
                "date_to_string",
                "Formats a date with the short name of its month.",
                &DAY,
            ),
            DateForm::Long => {
                FilterRow::new(
                    "date_to_long_string",
                    "Formats a date with the full name of its month.",
                    &DAY,
                )
            }
            DateForm::Xmlschema => {
                FilterRow::new(
                    "date_to_xmlschema",
                    "Formats a date time for XML and Atom.",
                    &NONE,
                )
            }
            DateForm::Rfc822 => {
                FilterRow::new(
                    "date_to_rfc822",
                    "Formats a date time for mail and RSS.",
                    &NONE,
                )
            }
        }
    }

    fn answer(
        &self,
        alloc: Global,
        input: &Value,
        arguments: &CallArguments<'_>,
    ) -> Result<Value, Error> {
        write_date(alloc, self.form, self.now, input, arguments.positional)
    }
}
