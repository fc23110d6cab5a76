//! Readers of dates with a time.
ghost use Rattle.std.specs.Prelude.{◌≡◌, ◌-◌, ◌*◌, ◌^◌, ◌<◌, pos, neg_ℤ, option_map, IfSome};
ghost use Rattle.std.specs.Int.{IsInRange};
ghost use Rattle.liquid_dates.specs.steps.DateReader as Reader;
ghost use Rattle.liquid_dates.specs.steps.DateReader.{read_of, by_clock, stamp_by_year, stamp_by_fraction};
ghost use Rattle.liquid_dates.specs.steps.DateReader.{stamp_by_day, stamp_by_month, stamp_by_weekday};

use crate::flags::is_digit;
use crate::reading::{
    Ymd, after_byte, read_iso_date, read_long_date, read_short_date, read_short_month,
    read_two_digits, read_us_date, read_weekday, read_year,
};

/// A time of day that a text writes, to the second.
#[derive(Clone, Copy)]
pub(crate) struct Clock {
    pub hour: u8,
    pub minute: u8,
    pub second: u8,
}

/// A date and a time of day that a text writes. The calendar may not have the day.
#[derive(Clone, Copy)]
pub(crate) struct Stamp {
    pub date: Ymd,
    pub clock: Clock,
    pub nanosecond: u32,
}

// Reads `HH:MM:SS`.
#[tactic(auto, unfolding(crate::specs::steps::DateReader::read_clock))]
fn read_clock(text: &[u8]) -> Option<(Clock, &[u8])>
    ensures value { option_map by_clock (read_of result) ≡ Reader.read_clock text.now }
{
    let (hour, rest) = read_two_digits(24, text)?;
    let rest = after_byte(b':', rest)?;
    let (minute, rest) = read_two_digits(60, rest)?;
    let rest = after_byte(b':', rest)?;
    let (second, rest) = read_two_digits(60, rest)?;
    Some((
        Clock {
            hour,
            minute,
            second,
        },
        rest,
    ))
}

// Reads an offset after its sign, in seconds.
#[tactic(auto, unfolding(crate::specs::steps::DateReader::read_hours))]
fn read_hours(text: &[u8]) -> Option<(u32, &[u8])>
    ensures value { read_of result ≡ Reader.read_hours text.now }
    ensures bound { IfSome result (λ p. p.0 < 400000) }
{
    let (hours, rest) = read_two_digits(100, text)?;
    let (minutes, rest) = read_two_digits(60, rest)?;
    Some((u32::from(hours) * 3600 + u32::from(minutes) * 60, rest))
}

/// Reads an offset, in seconds.
#[tactic(auto, unfolding(crate::specs::steps::DateReader::read_offset))]
pub(crate) fn read_offset(text: &[u8]) -> Option<(i32, &[u8])>
    ensures value { read_of result ≡ Reader.read_offset text.now }
{
    match after_byte(b'+', text) {
        Some(following) => {
            let (seconds, rest) = read_hours(following)?;
            Some((ahead(seconds), rest))
        }
        None => {
            let following = after_byte(b'-', text)?;
            let (seconds, rest) = read_hours(following)?;
            Some((after_utc(seconds), rest))
        }
    }
}

fn ahead(seconds: u32) -> i32
    requires { seconds < 400000 }
    ensures { result ≡ pos seconds }
{
    seconds as i32
}

fn after_utc(seconds: u32) -> i32
    requires { seconds < 400000 }
    ensures { result ≡ neg_ℤ (pos seconds) }
{
    -(seconds as i32)
}

// Reads a day of one or two digits.
#[tactic(auto, unfolding(crate::specs::steps::DateReader::read_short_day))]
fn read_short_day(text: &[u8]) -> Option<(u8, &[u8])>
    ensures value { read_of result ≡ Reader.read_short_day text.now }
{
    match read_two_digits(100, text) {
        Some((day, rest)) => Some((day, rest)),
        None => read_one_digit(text),
    }
}

fn read_one_digit(text: &[u8]) -> Option<(u8, &[u8])>
    ensures value { read_of result ≡ Reader.read_one_digit text.now }
{
    let [digit, rest @ ..] = text else {
        return None;
    };
    if !is_digit(char::from(*digit)) {
        return None;
    }
    Some((*digit - b'0', rest))
}

/// Reads `YYYY-MM-DD HH:MM:SS`.
#[tactic(auto, unfolding(crate::specs::steps::DateReader::read_iso_stamp))]
pub(crate) fn read_iso_stamp(text: &[u8]) -> Option<(Stamp, &[u8])>
    ensures value { option_map stamp_by_year (read_of result) ≡ Reader.read_iso_stamp text.now }
    ensures whole { IfSome result (λ p. p.0.nanosecond ≡ 0) }
{
    let (date, rest) = read_iso_date(text)?;
    let rest = after_byte(b' ', rest)?;
    let (clock, rest) = read_clock(rest)?;
    Some((whole_second(date, clock), rest))
}

fn whole_second(date: Ymd, clock: Clock) -> Stamp
    ensures date { result.date ≡ date }
    ensures clock { result.clock ≡ clock }
    ensures nanosecond { result.nanosecond ≡ 0 }
{
    Stamp {
        date,
        clock,
        nanosecond: 0,
    }
}

/// Reads `DD Month YYYY HH:MM:SS`.
#[tactic(auto, unfolding(crate::specs::steps::DateReader::read_long_stamp))]
pub(crate) fn read_long_stamp(text: &[u8]) -> Option<(Stamp, &[u8])>
    ensures value { option_map stamp_by_day (read_of result) ≡ Reader.read_long_stamp text.now }
    ensures whole { IfSome result (λ p. p.0.nanosecond ≡ 0) }
{
    let (date, rest) = read_long_date(text)?;
    let rest = after_byte(b' ', rest)?;
    let (clock, rest) = read_clock(rest)?;
    Some((whole_second(date, clock), rest))
}

/// Reads `DD Mon YYYY HH:MM:SS`.
#[tactic(auto, unfolding(crate::specs::steps::DateReader::read_short_stamp))]
pub(crate) fn read_short_stamp(text: &[u8]) -> Option<(Stamp, &[u8])>
    ensures value { option_map stamp_by_day (read_of result) ≡ Reader.read_short_stamp text.now }
    ensures whole { IfSome result (λ p. p.0.nanosecond ≡ 0) }
{
    let (date, rest) = read_short_date(text)?;
    let rest = after_byte(b' ', rest)?;
    let (clock, rest) = read_clock(rest)?;
    Some((whole_second(date, clock), rest))
}

/// Reads `MM/DD/YYYY HH:MM:SS`.
#[tactic(auto, unfolding(crate::specs::steps::DateReader::read_us_stamp))]
pub(crate) fn read_us_stamp(text: &[u8]) -> Option<(Stamp, &[u8])>
    ensures value { option_map stamp_by_month (read_of result) ≡ Reader.read_us_stamp text.now }
    ensures whole { IfSome result (λ p. p.0.nanosecond ≡ 0) }
{
    let (date, rest) = read_us_date(text)?;
    let rest = after_byte(b' ', rest)?;
    let (clock, rest) = read_clock(rest)?;
    Some((whole_second(date, clock), rest))
}

/// Reads `YYYY-MM-DD HH:MM:SS.fraction`.
#[tactic(auto, unfolding(crate::specs::steps::DateReader::read_fraction_stamp))]
pub(crate) fn read_fraction_stamp(text: &[u8]) -> Option<(Stamp, &[u8])>
    ensures value { option_map stamp_by_fraction (read_of result)
        ≡ Reader.read_fraction_stamp text.now }
{
    let (date, rest) = read_iso_date(text)?;
    let rest = after_byte(b' ', rest)?;
    let (clock, rest) = read_clock(rest)?;
    let rest = after_byte(b'.', rest)?;
    let (nanosecond, rest) = read_fraction(rest)?;
    let stamp = Stamp {
        date,
        clock,
        nanosecond,
    };
    Some((stamp, rest))
}

/// Reads `Www Mon D HH:MM:SS YYYY`, with the weekday.
#[tactic(auto, unfolding(crate::specs::steps::DateReader::read_weekday_stamp))]
pub(crate) fn read_weekday_stamp(text: &[u8]) -> Option<((u8, Stamp), &[u8])>
    ensures value { option_map stamp_by_weekday (read_of result)
        ≡ Reader.read_weekday_stamp text.now }
    ensures whole { IfSome result (λ p. p.0.1.nanosecond ≡ 0) }
{
    let (weekday, rest) = read_weekday(text)?;
    let rest = after_byte(b' ', rest)?;
    let (month, rest) = read_short_month(rest)?;
    let rest = after_byte(b' ', rest)?;
    let (day, rest) = read_short_day(rest)?;
    let rest = after_byte(b' ', rest)?;
    let (clock, rest) = read_clock(rest)?;
    let rest = after_byte(b' ', rest)?;
    let (year, rest) = read_year(rest)?;
    let stamp = whole_second(Ymd { year, month, day }, clock);
    Some(((weekday, stamp), rest))
}

// Returns the number of digits at the front, up to ten, the number that they write, and the rest after them.
fn digits_from(text: &[u8]) -> (usize, u64, &[u8])
    ensures count { result.0 ≡ (Reader.digits_from 0 0 text.now).0.0 }
    ensures number { result.1 ≡ (Reader.digits_from 0 0 text.now).0.1 }
    ensures rest { result.2.now ≡ (Reader.digits_from 0 0 text.now).1 }
    ensures small { result.1 < 10 ^ result.0 }
{
    let mut count = 0;
    let mut number = 0u64;
    let mut rest = text;
    'digits: while let [first, following @ ..] = rest {
        if !is_digit(char::from(*first)) || count >= 10 {
            break;
        }
        number = number * 10 + u64::from(*first - b'0');
        count += 1;
        rest = following;
    }
    (count, number, rest)
}

// Reads one to nine digits of a fraction, in nanoseconds.
#[tactic(auto, unfolding(crate::specs::steps::DateReader::read_fraction))]
fn read_fraction(text: &[u8]) -> Option<(u32, &[u8])>
    ensures value { read_of result ≡ Reader.read_fraction text.now }
{
    let (count, number, rest) = digits_from(text);
    if count < 1 || count > 9 {
        return None;
    }
    Some((nanoseconds(count, number), rest))
}

fn nanoseconds(count: usize, number: u64) -> u32
    requires within { IsInRange 1 9 count }
    requires small { number < 10 ^ count }
    ensures { result ≡ number * 10 ^ (9 - count) }
{
    let unit = match count {
        1 => 100_000_000,
        2 => 10_000_000,
        3 => 1_000_000,
        4 => 100_000,
        5 => 10_000,
        6 => 1_000,
        7 => 100,
        8 => 10,
        _ => 1,
    };
    (number * unit) as u32
}
