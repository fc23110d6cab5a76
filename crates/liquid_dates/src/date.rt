//! A day of the calendar.
ghost use Rattle.std.specs.Prelude.{◌≡◌, ◌↔◌, IsOk, IfOk, IfErr};
ghost use Rattle.jiff_core.specs.declared.civil.date.Date.{Date as CivilDate};
ghost use Rattle.jiff_core.specs.Calendar.{IsCivilDate};
ghost use Rattle.jiff_core.specs.Date.{ordinal};
ghost use Rattle.liquid_dates.specs.meaning.IsoWeek.{iso_week};

use crate::DateError;
use jiff_core::civil;
use jiff_core::civil::ISOWeekDate;
use std::marker::Model;

/// A day of the calendar, from -9999-01-01 to 9999-12-31.
#[derive(Clone, Copy, PartialEq, Eq, PartialOrd, Ord, Hash)]
pub struct Date {
    inner: civil::Date,
}

impl Model for Date {
    ghost Value = { CivilDate };

    ghost view = { λ a. a.inner };

    ghost inverse = { λ d. record { inner = d } };
}

impl Date {
    /// Returns the date with these parts. Fails if the calendar doesn't have it.
    pub fn from_ymd(year: i32, month: u8, day: u8) -> Result<Date, DateError>
        ensures succeeds { IsOk result ↔ IsCivilDate year month day }
        ensures value { IfOk result
            (λ d. (d.year ≡ year) × (d.month ≡ month) × (d.day ≡ day)) }
        ensures err { IfErr result (λ e. e ≡ DateError.PartOutOfRange) }
    {
        if year < -9999 || year > 9999 || month < 1 || month > 12 || day < 1 {
            return Err(DateError::PartOutOfRange);
        }
        let year = year as i16;
        if day > civil::days_in_month(year, month) {
            return Err(DateError::PartOutOfRange);
        }
        Ok(Date::from_civil(civil::Date { year, month, day }))
    }

    /// Returns the year.
    pub fn year(&self) -> i32
        ensures { result ≡ self.now.year }
    {
        i32::from(self.inner.year)
    }

    /// Returns the month, from 1.
    pub fn month(&self) -> u8
        ensures { result ≡ self.now.month }
    {
        self.inner.month
    }

    /// Returns the day of the month, from 1.
    pub fn day(&self) -> u8
        ensures { result ≡ self.now.day }
    {
        self.inner.day
    }

    /// Returns the day of the year, from 1.
    pub fn ordinal(&self) -> u16
        ensures { result ≡ ordinal self.now }
    {
        self.inner.day_of_year()
    }

    /// Returns the week of the ISO 8601 year, from 1.
    #[tactic(auto, using(crate::proofs::IsoWeekLemmas::week_date_is))]
    pub fn iso_week(&self) -> u8
        ensures { result ≡ iso_week self.now }
    {
        ISOWeekDate::from_date(self.inner).week
    }

    /// Returns the date of a civil date.
    pub(crate) fn from_civil(inner: civil::Date) -> Date
        ensures { result ≡ inner }
    {
        Date { inner }
    }

    /// Returns the civil date of the date.
    pub(crate) fn to_civil(self) -> civil::Date
        ensures { result ≡ self }
    {
        self.inner
    }
}
