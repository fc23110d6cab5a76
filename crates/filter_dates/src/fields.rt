//! The numbers of a date time that a string writes.
ghost use Rattle.std.specs.Prelude.{IfSome, IfNone};
ghost use Rattle.liquid_dates.specs.declared.date_time.DateTime.{DateTime};
ghost use Rattle.filter_dates.specs.meaning.MomentText.{HasFields};

use liquid_dates::{Date, DateTime};

/// A date. The calendar may not have it.
#[derive(Clone, Copy)]
pub(crate) struct Day {
    pub year: u16,
    pub month: u8,
    pub day: u8,
}

/// A time of day. The clock may not have it.
#[derive(Clone, Copy)]
pub(crate) struct Clock {
    pub hour: u8,
    pub minute: u8,
    pub second: u8,
    pub nanosecond: u32,
}

/// A date, a time of day and an offset in seconds.
#[derive(Clone, Copy)]
pub(crate) struct Fields {
    pub day: Day,
    pub clock: Clock,
    pub offset: i32,
}

/// Returns the date time with these numbers, if the calendar has the date, the clock the time, and the offset is below
/// 26 hours.
pub(crate) fn date_time_of(fields: Fields) -> Option<DateTime>
    ensures fits { IfSome result (λ dt. HasFields fields dt) }
    ensures none { IfNone result ((dt : DateTime) → ¬ (HasFields fields dt)) }
{
    let Fields { day, clock, offset } = fields;
    match Date::from_ymd(i32::from(day.year), day.month, day.day) {
        Ok(date) => {
            match DateTime::from_parts(
                date,
                clock.hour,
                clock.minute,
                clock.second,
                clock.nanosecond,
                offset,
            ) {
                Ok(date_time) => Some(date_time),
                Err(_) => None,
            }
        }
        Err(_) => None,
    }
}
