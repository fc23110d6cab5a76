//! The dates and date times that a scalar converts to.
ghost use Rattle.std.specs.Prelude.{IfSome, IsSomeAnd};
ghost use Rattle.jiff_core.specs.declared.civil.date.Date.{Date as CivilDate};
ghost use Rattle.liquid_dates.specs.declared.date_time.DateTime.{DateTime as DateTimeShape};
ghost use Rattle.liquid_dates.specs.meaning.DateText.{SameDate, SameDateTime};
ghost use Rattle.liquid_scalar.specs.meaning.Scalar.{scal};
ghost use Rattle.liquid_scalar.specs.meaning.ScalarDates.{IsDateOf, IsDateTimeOf};

use super::ScalarOf;
use liquid_dates::{Date, DateTime};
use std::convert::AsStr;

impl<T: AsStr> ScalarOf<T> {
    /// Returns the date itself, a date time's own date, or the date that a string writes, where `today` is the date of
    /// the moment. Returns `None` for every other scalar.
    pub fn to_date(&self, moment: DateTime) -> Option<Date>
        ensures fits { IfSome result (λ d. IsDateOf (scal T.text self.now) moment d) }

        // If the scalar has a date, that date is returned.
        ensures only { (d : CivilDate) → IsDateOf (scal T.text self.now) moment d
            → IsSomeAnd result (λ r. SameDate r d) }
    {
        match self {
            ScalarOf::Integer(_) => None,
            ScalarOf::Bool(_) => None,
            ScalarOf::Str(text) => Date::from_str(text.as_str(), moment),
            ScalarOf::Date(date) => Some(*date),
            ScalarOf::DateTime(date_time) => Some(date_time.date()),
        }
    }
    /// Returns the date time itself, or the date time that a string writes, where `now` and `today` are the moment.
    /// Returns `None` for every other scalar.
    pub fn to_date_time(&self, moment: DateTime) -> Option<DateTime>
        ensures fits { IfSome result (λ dt. IsDateTimeOf (scal T.text self.now) moment dt) }

        // If the scalar has a date time, that date time is returned.
        ensures only { (dt : DateTimeShape) → IsDateTimeOf (scal T.text self.now) moment dt
            → IsSomeAnd result (λ r. SameDateTime r dt) }
    {
        match self {
            ScalarOf::Integer(_) => None,
            ScalarOf::Bool(_) => None,
            ScalarOf::Str(text) => DateTime::from_str(text.as_str(), moment),
            ScalarOf::Date(_) => None,
            ScalarOf::DateTime(date_time) => Some(*date_time),
        }
    }
}
