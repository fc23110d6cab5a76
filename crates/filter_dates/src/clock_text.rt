//! Times of day and offsets in texts.
ghost use Rattle.std.specs.Prelude.{◌≡◌, ◌<◌, ◌≤◌, length, map, IfSome};
ghost use Rattle.filter_dates.specs.meaning.ClockText as Spec;

use crate::digits::{is_digit, ninths_place, sixtieths, two_digits};
use crate::fields::Clock;

/// Reads the words after a date: none, a time, or a time and an offset.
pub(crate) fn time_in_words(words: &[&str]) -> Option<(Clock, i32)>
    ensures { result ≡ Spec.time_in_words (map (λ w. w.now) words.now) }
{
    match words {
        [] => Some((MIDNIGHT, 0)),
        [time] => time_in_one(time.as_bytes()),
        [clock, offset] => time_of(clock.as_bytes(), offset.as_bytes()),
        _ => None,
    }
}

/// Reads a time that follows a `T`, and the words after it: none, or an offset.
pub(crate) fn time_after_mark(time: &[u8], words: &[&str]) -> Option<(Clock, i32)>
    ensures { result ≡ Spec.time_after_mark time.now (map (λ w. w.now) words.now) }
{
    match words {
        [] => time_in_one(time),
        [offset] => time_of(time, offset.as_bytes()),
        _ => None,
    }
}

const MIDNIGHT: Clock = Clock {
    hour: 0,
    minute: 0,
    second: 0,
    nanosecond: 0,
};

/// Reads a time of day and an offset right after it.
fn time_in_one(text: &[u8]) -> Option<(Clock, i32)>
    ensures { result ≡ Spec.time_in_one text.now }
{
    let (clock, offset) = text.split_at(clock_length(text));
    time_of(clock, offset)
}

/// Reads a time of day and an offset.
fn time_of(clock: &[u8], offset: &[u8]) -> Option<(Clock, i32)>
    ensures { result ≡ Spec.time_of clock.now offset.now }
{
    let time = clock_of(clock)?;
    let seconds = offset_of(offset)?;
    Some((time, seconds))
}

/// Returns the number of bytes of the time of day with which a string begins.
fn clock_length(text: &[u8]) -> usize
    ensures value { result ≡ Spec.clock_length text.now }
    ensures within { result ≤ length text.now }
{
    text.iter().take_while(|byte| is_clock_byte(**byte)).count()
}

fn is_clock_byte(byte: u8) -> bool
    ensures { result ≡ Spec.is_clock_byte byte }
{
    is_digit(byte) || byte == b':' || byte == b'.'
}

/// Reads `HH:MM`, `HH:MM:SS` or `HH:MM:SS.fraction`, where the hour may have one digit.
fn clock_of(text: &[u8]) -> Option<Clock>
    ensures { result ≡ Spec.clock_of text.now }
{
    match text {
        [ones, b':', ..] => {
            let hour = two_digits(b'0', *ones)?;
            minutes_after(hour, &text[1..])
        }
        [tens, ones, rest @ ..] => {
            let hour = two_digits(*tens, *ones)?;
            minutes_after(hour, rest)
        }
        _ => None,
    }
}

/// Reads `:MM` and what follows it.
fn minutes_after(hour: u8, text: &[u8]) -> Option<Clock>
    ensures { result ≡ Spec.minutes_after hour text.now }
{
    match text {
        [b':', tens, ones, rest @ ..] => {
            let minute = two_digits(*tens, *ones)?;
            seconds_after(hour, minute, rest)
        }
        _ => None,
    }
}

/// Reads `:SS` and perhaps a fraction. Nothing is the whole minute.
fn seconds_after(hour: u8, minute: u8, text: &[u8]) -> Option<Clock>
    ensures { result ≡ Spec.seconds_after hour minute text.now }
{
    match text {
        [] => Some(Clock {
            hour,
            minute,
            second: 0,
            nanosecond: 0,
        }),
        [b':', tens, ones, rest @ ..] => {
            let second = two_digits(*tens, *ones)?;
            let nanosecond = fraction(rest)?;
            Some(Clock {
                hour,
                minute,
                second,
                nanosecond,
            })
        }
        _ => None,
    }
}

/// Reads a fraction of a second after a dot, in nanoseconds. Nothing is no fraction.
fn fraction(text: &[u8]) -> Option<u32>
    ensures { result ≡ Spec.fraction text.now }
{
    match text {
        [] => Some(0),
        [b'.', digits @ ..] => ninths_place(digits),
        _ => None,
    }
}

/// Reads `Z`, `UTC`, `GMT`, `+hh`, `+hhmm` or `+hh:mm`, in seconds. Nothing is the offset 0.
fn offset_of(text: &[u8]) -> Option<i32>
    ensures { result ≡ Spec.offset_of text.now }
{
    if text.is_empty() || is_utc(text) {
        return Some(0);
    }
    signed_offset(text)
}

fn is_utc(text: &[u8]) -> bool
    ensures { result ≡ Spec.is_utc text.now }
{
    text.eq_ignore_ascii_case(b"z")
        || text.eq_ignore_ascii_case(b"utc")
        || text.eq_ignore_ascii_case(b"gmt")
}

fn signed_offset(text: &[u8]) -> Option<i32>
    ensures { result ≡ Spec.signed_offset text.now }
{
    match text {
        [b'+', rest @ ..] => {
            let size = offset_size(rest)?;
            Some(size as i32)
        }
        [b'-', rest @ ..] => {
            let size = offset_size(rest)?;
            Some(-(size as i32))
        }
        _ => None,
    }
}

/// Reads hours and minutes of an offset, in seconds.
fn offset_size(text: &[u8]) -> Option<u32>
    ensures value { result ≡ Spec.offset_size text.now }
    ensures bound { IfSome result (λ n. n < 363_600) }
{
    match text {
        [tens, ones, rest @ ..] => {
            let hours = two_digits(*tens, *ones)?;
            let minutes = offset_minutes(rest)?;
            Some(u32::from(hours) * 3600 + u32::from(minutes) * 60)
        }
        _ => None,
    }
}

/// Reads the minutes of an offset, perhaps after a colon. Nothing is none.
fn offset_minutes(text: &[u8]) -> Option<u8>
    ensures value { result ≡ Spec.offset_minutes text.now }
    ensures bound { IfSome result (λ n. n < 60) }
{
    match text {
        [] => Some(0),
        [tens, ones] => sixtieths(*tens, *ones),
        [b':', tens, ones] => sixtieths(*tens, *ones),
        _ => None,
    }
}
