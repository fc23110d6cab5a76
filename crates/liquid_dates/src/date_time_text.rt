//! The date times that texts write.
ghost use Rattle.std.specs.Prelude.{◌≡◌, ℤ, IfSome, IfNone, IsSomeAnd, IsTrue, ◌↔◌, option_map};
ghost use Rattle.jiff_core.specs.Calendar.{IsWithin};
ghost use Rattle.jiff_core.specs.Timestamp.{nanos_of_seconds};
ghost use Rattle.liquid_dates.specs.declared.date_time.DateTime.{DateTime};
ghost use Rattle.liquid_dates.specs.steps.DateReader.{offset_end, HasStamp, IsStamped, whole_of, without_weekday};
ghost use Rattle.liquid_dates.specs.steps.DateReader as Reader;
ghost use Rattle.liquid_dates.specs.meaning.DateText.{IsNow, IsDateTimeText, IsUnixTime, SameDateTime, date_time_forms};
ghost use Rattle.liquid_dates.specs.meaning.DateText.{day_forms, ends_in_offset, with_given_offset};
ghost use Rattle.liquid_dates.specs.meaning.DateText as Form;
ghost use Rattle.liquid_dates.specs.meaning.Instant as Instant;

use crate::flags::is_digit;
use crate::reading::after_byte;
use crate::stamps::{
    Stamp, read_fraction_stamp, read_iso_stamp, read_long_stamp, read_offset, read_short_stamp,
    read_us_stamp, read_weekday_stamp,
};
use crate::{Date, DateTime};

// Returns `true` if a text ends in a sign, `0` or `1`, and three digits.
fn ends_in_offset(text: &[u8]) -> bool
    ensures { result ≡ ends_in_offset text.now }
{
    is_offset_end(&text[text.len().saturating_sub(5)..])
}

fn is_offset_end(end: &[u8]) -> bool
    ensures { result ≡ Form.is_offset_end end.now }
{
    match end {
        [sign, tens, hours, minute, last] => {
            (*sign == b'+' || *sign == b'-')
                && ((*tens == b'0' || *tens == b'1')
                    && (is_digit(char::from(*hours))
                        && (is_digit(char::from(*minute)) && is_digit(char::from(*last)))))
        }
        _ => false,
    }
}

// Returns the offset of what is left after a date with a time: the one given there, or 0 if nothing is left.
fn offset_end(given: bool, rest: &[u8]) -> Option<i32>
    ensures { result ≡ offset_end given rest.now }
{
    if given {
        let following = after_byte(b' ', rest)?;
        return whole_offset(following);
    }
    if rest.is_empty() { Some(0) } else { None }
}

fn whole_offset(text: &[u8]) -> Option<i32>
    ensures { result ≡ whole_of (Reader.read_offset text.now) }
{
    let (seconds, rest) = read_offset(text)?;
    if rest.is_empty() { Some(seconds) } else { None }
}

// Returns the date time of a stamp at an offset, if the calendar and the offsets have them.
fn at_stamp(stamp: Stamp, offset: i32) -> Option<DateTime>
    ensures found { IfSome result
        (λ dt. (offset ≡ Instant.offset_seconds dt) × HasStamp stamp dt) }
    ensures none { IfNone result ((dt : DateTime)
        → ¬ ((offset ≡ Instant.offset_seconds dt) × HasStamp stamp dt)) }
{
    let Stamp {
        date,
        clock,
        nanosecond,
    } = stamp;
    match Date::from_ymd(i32::from(date.year), date.month, date.day) {
        Ok(day) => {
            match DateTime::from_parts(
                day,
                clock.hour,
                clock.minute,
                clock.second,
                nanosecond,
                offset,
            ) {
                Ok(date_time) => Some(date_time),
                Err(_) => None,
            }
        }
        Err(_) => None,
    }
}

// Returns the date time of a whole text that was read.
fn date_time_of(given: bool, read: Option<(Stamp, &[u8])>) -> Option<DateTime>
    ensures found { IfSome result (λ dt. IsStamped given read.entry dt) }
    ensures none { IfNone result ((dt : DateTime) → ¬ (IsStamped given read.entry dt)) }
{
    let (stamp, rest) = read?;
    let offset = offset_end(given, rest)?;
    at_stamp(stamp, offset)
}

// Reads `YYYY-MM-DD HH:MM:SS off`.
fn iso_date_time(given: bool, text: &[u8]) -> Option<DateTime>
    ensures fits { IfSome result
        (λ dt. Form.iso_date_time (with_given_offset given text.now) dt) }
    ensures none { IfNone result ((dt : DateTime)
        → ¬ (Form.iso_date_time (with_given_offset given text.now) dt)) }
{
    let read = read_iso_stamp(text);
    date_time_of(given, read)
}

// Reads `YYYY-MM-DD HH:MM:SS.fraction off`.
fn fraction_date_time(given: bool, text: &[u8]) -> Option<DateTime>
    ensures fits { IfSome result
        (λ dt. Form.fraction_date_time (with_given_offset given text.now) dt) }
    ensures none { IfNone result ((dt : DateTime)
        → ¬ (Form.fraction_date_time (with_given_offset given text.now) dt)) }
{
    let read = read_fraction_stamp(text);
    date_time_of(given, read)
}

// Reads `DD Month YYYY HH:MM:SS off`.
fn long_date_time(given: bool, text: &[u8]) -> Option<DateTime>
    ensures fits { IfSome result
        (λ dt. Form.long_date_time (with_given_offset given text.now) dt) }
    ensures none { IfNone result ((dt : DateTime)
        → ¬ (Form.long_date_time (with_given_offset given text.now) dt)) }
{
    let read = read_long_stamp(text);
    date_time_of(given, read)
}

// Reads `DD Mon YYYY HH:MM:SS off`.
fn short_date_time(given: bool, text: &[u8]) -> Option<DateTime>
    ensures fits { IfSome result
        (λ dt. Form.short_date_time (with_given_offset given text.now) dt) }
    ensures none { IfNone result ((dt : DateTime)
        → ¬ (Form.short_date_time (with_given_offset given text.now) dt)) }
{
    let read = read_short_stamp(text);
    date_time_of(given, read)
}

// Reads `MM/DD/YYYY HH:MM:SS off`.
fn us_date_time(given: bool, text: &[u8]) -> Option<DateTime>
    ensures fits { IfSome result
        (λ dt. Form.us_date_time (with_given_offset given text.now) dt) }
    ensures none { IfNone result ((dt : DateTime)
        → ¬ (Form.us_date_time (with_given_offset given text.now) dt)) }
{
    let read = read_us_stamp(text);
    date_time_of(given, read)
}

// Reads `Www Mon D HH:MM:SS YYYY off`.
fn weekday_date_time(given: bool, text: &[u8]) -> Option<DateTime>
    ensures fits { IfSome result
        (λ dt. Form.weekday_date_time (with_given_offset given text.now) dt) }
    ensures none { IfNone result ((dt : DateTime)
        → ¬ (Form.weekday_date_time (with_given_offset given text.now) dt)) }
{
    let read = read_weekday_stamp(text);
    let stamp = forget_weekday(read);
    date_time_of(given, stamp)
}

fn forget_weekday(read: Option<((u8, Stamp), &[u8])>) -> Option<(Stamp, &[u8])>
    ensures { result ≡ option_map without_weekday read.entry }
{
    match read {
        Some(((_, stamp), rest)) => Some((stamp, rest)),
        None => None,
    }
}

// Returns the date time of the first of the forms that begin with a day, a month or a weekday.
fn day_date_time(given: bool, text: &[u8]) -> Option<DateTime>
    ensures fits { IfSome result (λ dt. day_forms (with_given_offset given text.now) dt) }
    ensures none { IfNone result ((dt : DateTime)
        → ¬ (day_forms (with_given_offset given text.now) dt)) }
{
    match long_date_time(given, text) {
        Some(date_time) => Some(date_time),
        None => match short_date_time(given, text) {
            Some(date_time) => Some(date_time),
            None => match us_date_time(given, text) {
                Some(date_time) => Some(date_time),
                None => weekday_date_time(given, text),
            },
        },
    }
}

// Returns the date time of the first form that fits.
fn first_date_time(given: bool, text: &[u8]) -> Option<DateTime>
    ensures fits { IfSome result (λ dt. date_time_forms (with_given_offset given text.now) dt) }
    ensures none { IfNone result ((dt : DateTime)
        → ¬ (date_time_forms (with_given_offset given text.now) dt)) }
{
    match iso_date_time(given, text) {
        Some(date_time) => Some(date_time),
        None => match fraction_date_time(given, text) {
            Some(date_time) => Some(date_time),
            None => day_date_time(given, text),
        },
    }
}

// Returns `true` if a text is `now` or `today`, in any case and between whitespace.
fn is_now(text: &str) -> bool
    ensures { IsTrue result ↔ IsNow text.now }
{
    let word = text.trim().as_bytes();
    word.eq_ignore_ascii_case(b"now") || word.eq_ignore_ascii_case(b"today")
}

// Returns the date time of that many seconds since 1970 at offset 0, if the years have it.
fn at_unix_seconds(seconds: i64) -> Option<DateTime>
    ensures found { IfSome result (λ dt. IsUnixTime seconds dt) }
    ensures none { IfNone result ((dt : DateTime) → ¬ (IsUnixTime seconds dt)) }
{
    let nanoseconds = in_nanoseconds(seconds);
    match DateTime::now(nanoseconds) {
        Ok(date_time) => Some(date_time),
        Err(_) => None,
    }
}

fn in_nanoseconds(seconds: i64) -> i128
    ensures value { result ≡ nanos_of_seconds seconds }
    ensures bound { IsWithin 10_000_000_000_000_000_000_000_000_000 result }
{
    i128::from(seconds) * 1_000_000_000
}

impl DateTime {
    /// Returns the date time that a text writes.
    ///
    /// `now` and `today` are the moment, in any case and between whitespace. An integer is the seconds since 1970
    /// at offset 0. Any other text is one of `YYYY-MM-DD HH:MM:SS off`, `YYYY-MM-DD HH:MM:SS.fraction off`,
    /// `DD Month YYYY HH:MM:SS off`, `DD Mon YYYY HH:MM:SS off`, `MM/DD/YYYY HH:MM:SS off` and
    /// `Www Mon D HH:MM:SS YYYY off`, and ` +0000` is added to a text that ends in no offset below 20 hours.
    #[allow(clippy::should_implement_trait)]
    pub fn from_str(text: &str, moment: DateTime) -> Option<DateTime>
        ensures fits { IfSome result (λ dt. IsDateTimeText text.now moment dt) }

        // If the text writes a date time, that date time is returned.
        ensures only { (dt : DateTime) → IsDateTimeText text.now moment dt
            → IsSomeAnd result (λ r. SameDateTime r dt) }
    {
        if text.is_empty() {
            return None;
        }
        if is_now(text) {
            return Some(moment);
        }
        match text.parse::<i64>() {
            Ok(seconds) => at_unix_seconds(seconds),
            Err(_) => {
                let bytes = text.as_bytes();
                first_date_time(ends_in_offset(bytes), bytes)
            }
        }
    }
}
