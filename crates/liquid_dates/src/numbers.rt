//! The numbers that directives print.
ghost use Rattle.std.specs.Prelude.{◌≡◌, ◌<◌, ◌≤◌};
ghost use Rattle.jiff_core.specs.Date.{epoch_day, ordinal};
ghost use Rattle.liquid_dates.specs.meaning.IsoWeek as Iso;
ghost use Rattle.liquid_dates.specs.meaning.Instant.{civil_date, civil_time, unix_seconds};
ghost use Rattle.liquid_dates.specs.meaning.Numbers as Spec;

use crate::DateTime;
use crate::directive::Number;
use jiff_core::civil::{Date, ISOWeekDate, Time};

/// Returns the value of a number for a date time.
#[tactic(auto, unfolding(crate::specs::meaning::Numbers::number_value))]
pub(crate) fn number_value(number: Number, date_time: DateTime) -> i64
    ensures { result ≡ Spec.number_value number date_time }
{
    let local = date_time.local();
    match number {
        Number::Year => i64::from(local.date.year),
        Number::Century => i64::from(local.date.year) / 100,
        Number::YearOfCentury => i64::from(local.date.year) % 100,
        Number::Month => i64::from(local.date.month),
        Number::Day => i64::from(local.date.day),
        Number::Ordinal => i64::from(local.date.day_of_year()),
        Number::Hour => i64::from(local.time.hour),
        Number::HourOf12 => i64::from(hour_of_12(local.time)),
        Number::Minute => i64::from(local.time.minute),
        Number::Second => i64::from(local.time.second),
        Number::WeekdayFromMonday => i64::from(local.date.weekday().index() + 1),
        Number::WeekdayFromSunday => i64::from((local.date.weekday().index() + 1) % 7),
        Number::WeekFromSunday => i64::from(week_from(6, local.date)),
        Number::WeekFromMonday => i64::from(week_from(0, local.date)),
        Number::IsoYear => i64::from(iso_year(local.date)),
        Number::IsoYearOfCentury => i64::from(iso_year(local.date)) % 100,
        Number::IsoWeek => i64::from(date_time.iso_week()),
        Number::UnixSeconds => date_time.unix_seconds(),
    }
}

/// Returns the hour on a clock of twelve hours, with 12 for 0.
pub(crate) fn hour_of_12(time: Time) -> u8
    ensures { result ≡ Spec.hour_of_12 time.hour }
{
    let hour = time.hour % 12;
    if hour == 0 { 12 } else { hour }
}

// Returns the week of the year, where weeks begin on that weekday. Weekdays are counted from Monday.
fn week_from(weekday: u8, date: Date) -> u16
    requires { weekday < 7 }
    ensures { result ≡ Spec.weekdays_passed weekday (epoch_day date) (ordinal date) }
{
    let since = (date.weekday().index() + 7 - weekday) % 7;
    (date.day_of_year() + 6 - u16::from(since)) / 7
}

// Returns the ISO 8601 year.
fn iso_year(date: Date) -> i16
    ensures { result ≡ Iso.iso_year date }
{
    let week_date = ISOWeekDate::from_date(date);
    week_date.year
}

/// Returns the width of a number that is not negative, if no width is given.
pub(crate) fn default_width(number: Number) -> usize
    ensures { result ≡ Spec.default_width number }
{
    match number {
        Number::Year | Number::IsoYear => 4,
        Number::Ordinal => 3,
        Number::WeekdayFromMonday | Number::WeekdayFromSunday | Number::UnixSeconds => 0,
        _ => 2,
    }
}
