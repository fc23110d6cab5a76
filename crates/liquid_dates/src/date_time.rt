//! A date, a time of day and an offset.
ghost use Rattle.std.specs.Prelude.{◌≡◌, ◌↔◌, ◌<◌, pos, neg_ℤ, ◌+ℤ◌, ◌*ℤ◌, IsOk, IfOk, IfErr, MatchResult};
ghost use Rattle.std.proofs.Common.{rules};
ghost use Rattle.std.specs.Cmp.{partial_order_from_own_ties};
ghost use Rattle.std.specs.Cmp.Rules.{comparing, hashing};
ghost use Rattle.std.specs.Ordering.{on, int_eq, int_cmp, as_partial_cmp};
ghost use Rattle.std.specs.Hash as fed;
ghost use Rattle.jiff_core.specs.Calendar.{IsCivilDate, IsWithin};
ghost use Rattle.jiff_core.specs.Date.{ordinal};
ghost use Rattle.jiff_core.specs.DateTime.{IsCivilNanos};
ghost use Rattle.jiff_core.specs.Time.{time_nanos};
ghost use Rattle.jiff_core.specs.Timestamp.{IsOffsetSeconds, nanos_of_seconds};
ghost use Rattle.std.specs.String.{string_bytes};
ghost use Rattle.liquid_dates.specs.meaning.IsoWeek.{iso_week};
ghost use Rattle.liquid_dates.specs.meaning.Printed.{rfc2822_text, HasRfc2822Form, IsRfc2822Refusal};
ghost use Rattle.liquid_dates.specs.meaning.Instant.{civil_date, civil_time, offset_seconds, nanosecond, unix_seconds, instant};
ghost use Rattle.liquid_dates.specs.meaning.Instant.{IsClockTime, HasParts, IsInstant, IsOffsetRefusal};

use crate::printed::Rfc2822;
use crate::{Date, DateError};
use jiff_core::{Offset, civil};
use std::alloc::Global;
use std::cmp::Ordering;
use std::hash::{Hash, Hasher};

/// A date, a time of day to the nanosecond and an offset from UTC: an instant, and how a clock at that offset shows it.
/// Comparisons use the instant.
#[derive(Clone, Copy)]
pub struct DateTime {
    local: civil::DateTime,
    offset: Offset,
}

// Returns what a clock at the offset shows at the instant, in nanoseconds.
fn shift(date_time: DateTime, offset: Offset) -> i128
    ensures value { result ≡ instant date_time +ℤ nanos_of_seconds offset.seconds }
    ensures bound { IsWithin 1_000_000_000_000_000_000_000 result }
{
    date_time.instant() + offset.to_nanosecond()
}

impl DateTime {
    /// Returns midnight of the day at offset 0. Fails if the calendar doesn't have the day.
    pub fn from_ymd(year: i32, month: u8, day: u8) -> Result<DateTime, DateError>
        ensures succeeds { IsOk result ↔ IsCivilDate year month day }
        ensures date { IfOk result (λ dt. ((civil_date dt).year ≡ year)
            × ((civil_date dt).month ≡ month) × ((civil_date dt).day ≡ day)) }
        ensures midnight { IfOk result (λ dt. time_nanos (civil_time dt) ≡ 0) }
        ensures offset { IfOk result (λ dt. offset_seconds dt ≡ pos 0) }
        ensures err { IfErr result (λ e. e ≡ DateError.PartOutOfRange) }
    {
        let date = Date::from_ymd(year, month, day)?;
        Ok(DateTime {
            local: civil::DateTime {
                date: date.to_civil(),
                time: civil::Time::MIN,
            },
            offset: Offset::UTC,
        })
    }

    /// Returns the date time with these parts. The offset is in seconds, and below 26 hours either way.
    pub fn from_parts(
        date: Date,
        hour: u8,
        minute: u8,
        second: u8,
        nanosecond: u32,
        offset: i32,
    ) -> Result<DateTime, DateError>
        ensures succeeds { IsOk result
            ↔ (IsClockTime hour minute second nanosecond × IsOffsetSeconds offset) }
        ensures date { IfOk result (λ dt. civil_date dt ≡ date) }
        ensures time { IfOk result (λ dt. HasParts hour minute second nanosecond (civil_time dt)) }
        ensures offset { IfOk result (λ dt. offset_seconds dt ≡ offset) }
        ensures err { IfErr result (λ e. e ≡ DateError.PartOutOfRange) }
    {
        if hour > 23 || minute > 59 || second > 59 || nanosecond > 999_999_999 {
            return Err(DateError::PartOutOfRange);
        }
        let time = civil::Time {
            hour,
            minute,
            second,
            subsec_nanosecond: nanosecond,
        };
        match Offset::from_seconds(i64::from(offset)) {
            Ok(offset) => Ok(DateTime {
                local: civil::DateTime {
                    date: date.to_civil(),
                    time,
                },
                offset,
            }),
            Err(_) => Err(DateError::PartOutOfRange),
        }
    }

    /// Returns the instant that many nanoseconds after 1970-01-01 00:00:00 +0000, at offset 0. Fails if its year is not
    /// from -9999 to 9999.
    #[tactic(auto, using(crate::proofs::InstantLemmas::instant_is))]
    pub fn now(unix_nanoseconds: i128) -> Result<DateTime, DateError>
        ensures succeeds { IsOk result ↔ IsCivilNanos unix_nanoseconds }
        ensures instant { IfOk result (λ dt. instant dt ≡ unix_nanoseconds) }
        ensures offset { IfOk result (λ dt. offset_seconds dt ≡ pos 0) }
        ensures err { IfErr result (λ e. e ≡ DateError.OutsideYears) }
    {
        match civil::DateTime::from_nanosecond(unix_nanoseconds) {
            Ok(local) => Ok(DateTime {
                local,
                offset: Offset::UTC,
            }),
            Err(_) => Err(DateError::OutsideYears),
        }
    }

    /// Returns the same time of day and offset on another date.
    pub fn with_date(self, date: Date) -> DateTime
        ensures date { civil_date result ≡ date }
        ensures time { civil_time result ≡ civil_time self }
        ensures offset { offset_seconds result ≡ offset_seconds self }
    {
        DateTime {
            local: civil::DateTime {
                date: date.to_civil(),
                time: self.local.time,
            },
            offset: self.offset,
        }
    }

    /// Returns the same instant at another offset, in seconds.
    ///
    /// An offset of 26 hours or more is an out-of-range part. This is checked before whether the years have the civil
    /// time at that offset.
    #[tactic(auto, using(crate::proofs::InstantLemmas::instant_is))]
    pub fn with_offset(self, seconds: i32) -> Result<DateTime, DateError>
        ensures succeeds { IsOk result ↔ (IsOffsetSeconds seconds
            × IsCivilNanos (instant self +ℤ nanos_of_seconds seconds)) }
        ensures instant { IfOk result (λ dt. instant dt ≡ instant self) }
        ensures offset { IfOk result (λ dt. offset_seconds dt ≡ seconds) }
        ensures err { IfErr result (λ e. IsOffsetRefusal seconds e) }
    {
        match Offset::from_seconds(i64::from(seconds)) {
            Ok(offset) => self.at_offset(offset),
            Err(_) => Err(DateError::PartOutOfRange),
        }
    }

    #[tactic(auto, using(crate::proofs::InstantLemmas::instant_is))]
    fn at_offset(self, offset: Offset) -> Result<DateTime, DateError>
        ensures succeeds { IsOk result
            ↔ IsCivilNanos (instant self +ℤ nanos_of_seconds offset.seconds) }
        ensures instant { IfOk result (λ dt. instant dt ≡ instant self) }
        ensures offset { IfOk result (λ dt. offset_seconds dt ≡ offset.seconds) }
        ensures err { IfErr result (λ e. e ≡ DateError.OutsideYears) }
    {
        let local = shift(self, offset);
        match civil::DateTime::from_nanosecond(local) {
            Ok(local) => Ok(DateTime { local, offset }),
            Err(_) => Err(DateError::OutsideYears),
        }
    }

    /// Returns the form of RFC 2822, such as `Tue, 16 Feb 2016 10:00:00 +0100`. A year below 1900 and an offset with
    /// seconds have no such form.
    pub fn to_rfc2822(self, alloc: Global) -> Result<String, DateError>
        ensures text { IfOk result (λ s. string_bytes s ≡ rfc2822_text self) }
        ensures has_form { IsOk result → HasRfc2822Form self }
        ensures refused { IfErr result (λ e. IsRfc2822Refusal self e) }
    {
        if self.year() < 1900 || self.offset() % 60 != 0 {
            return Err(DateError::NoRfc2822Form);
        }
        Ok(Rfc2822 { date_time: self }.to_string(alloc)?)
    }

    /// Returns nanoseconds since 1970-01-01 00:00:00 +0000.
    #[tactic(auto, using(crate::proofs::InstantLemmas::instant_is))]
    pub fn instant(self) -> i128
        ensures value { result ≡ instant self }
        ensures bound { IsInstant result }
    {
        self.local.to_nanosecond() - self.offset.to_nanosecond()
    }

    /// Returns whole seconds since 1970-01-01 00:00:00 +0000.
    #[tactic(auto, using(crate::proofs::InstantLemmas::unix_seconds_is))]
    pub(crate) fn unix_seconds(self) -> i64
        ensures { result ≡ unix_seconds self }
    {
        self.local.to_second() - i64::from(self.offset.seconds)
    }

    /// Returns the civil date.
    pub fn date(self) -> Date
        ensures { result ≡ civil_date self }
    {
        Date::from_civil(self.local.date)
    }

    /// Returns the year.
    pub fn year(&self) -> i32
        ensures { result ≡ (civil_date self.now).year }
    {
        i32::from(self.local.date.year)
    }

    /// Returns the month, from 1.
    pub fn month(&self) -> u8
        ensures { result ≡ (civil_date self.now).month }
    {
        self.local.date.month
    }

    /// Returns the day of the month, from 1.
    pub fn day(&self) -> u8
        ensures { result ≡ (civil_date self.now).day }
    {
        self.local.date.day
    }

    /// Returns the day of the year, from 1.
    pub fn ordinal(&self) -> u16
        ensures { result ≡ ordinal (civil_date self.now) }
    {
        self.local.date.day_of_year()
    }

    /// Returns the week of the ISO 8601 year, from 1.
    pub fn iso_week(&self) -> u8
        ensures { result ≡ iso_week (civil_date self.now) }
    {
        self.date().iso_week()
    }

    /// Returns the hour of the day, to 23.
    pub fn hour(&self) -> u8
        ensures { result ≡ (civil_time self.now).hour }
    {
        self.local.time.hour
    }

    /// Returns the minute of the hour.
    pub fn minute(&self) -> u8
        ensures { result ≡ (civil_time self.now).minute }
    {
        self.local.time.minute
    }

    /// Returns the second of the minute.
    pub fn second(&self) -> u8
        ensures { result ≡ (civil_time self.now).second }
    {
        self.local.time.second
    }

    /// Returns the nanosecond of the second.
    pub fn nanosecond(&self) -> u32
        ensures { result ≡ nanosecond self.now }
    {
        self.local.time.subsec_nanosecond
    }

    /// Returns how far the clock is ahead of UTC, in seconds.
    pub fn offset(&self) -> i32
        ensures value { result ≡ offset_seconds self.now }
        ensures bound { IsOffsetSeconds result }
    {
        self.offset.seconds
    }

    /// Returns what the clock shows.
    pub(crate) fn local(&self) -> civil::DateTime
        ensures date { result.date ≡ civil_date self.now }
        ensures time { result.time ≡ civil_time self.now }
    {
        self.local
    }
}

impl Default for DateTime {
    ghost is_default = { λ dt. (instant dt ≡ pos 0) × (offset_seconds dt ≡ pos 0) };

    /// Returns 1970-01-01 00:00:00 +0000.
    #[tactic(auto, using(crate::proofs::InstantLemmas::instant_is))]
    fn default() -> DateTime {
        DateTime {
            local: civil::DateTime::from_nanosecond_in_range(0),
            offset: Offset::UTC,
        }
    }
}

impl PartialEq for DateTime {
    ghost eq = { on instant int_eq };

    ghost laws = { Prim.search (comparing, rules) };

    fn eq(&self, other: &DateTime) -> bool {
        self.instant() == other.instant()
    }
}

impl Eq for DateTime {
    ghost laws = { Prim.search (comparing, rules) };
}

impl Ord for DateTime {
    ghost cmp = { on instant int_cmp };

    ghost total = { Prim.search (comparing, rules) };

    ghost matches_partial_cmp = { Prim.search (comparing, rules) };

    ghost matches_eq = { Prim.search (comparing, rules) };

    fn cmp(&self, other: &DateTime) -> Ordering {
        self.instant().cmp(&other.instant())
    }
}

impl PartialOrd for DateTime {
    ghost partial_cmp = { as_partial_cmp (on instant int_cmp) };

    ghost laws = { partial_order_from_own_ties (Prim.search (comparing, rules))
        (Prim.search (comparing, rules)) };

    fn partial_cmp(&self, other: &DateTime) -> Option<Ordering> {
        Some(self.cmp(other))
    }
}

impl Hash for DateTime {
    ghost hash_input = { λ dt. fed.i128 (instant dt) };

    ghost respects_eq = { Prim.search (hashing, rules) };

    fn hash<H: Hasher>(&self, state: &mut H) {
        self.instant().hash(state);
    }
}
