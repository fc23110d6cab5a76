//! Date times in texts that other programs and people write.
ghost use Rattle.std.specs.Prelude.{◌≡◌, map, IfOk};
ghost use Rattle.filter_dates.specs.meaning.MomentText as Spec;

use crate::clock_text::{time_after_mark, time_in_words};
use crate::day_text::{day_in_numbers, day_in_words};
use crate::fields::{Clock, Fields};
use crate::names::weekday_named;
use liquid_strings::{replace, words};
use std::alloc::{AllocError, Global};

/// Returns the numbers of the date time that a string writes: perhaps a weekday, a date, and perhaps a time of day and an
/// offset.
pub(crate) fn fields_of(alloc: Global, text: &str) -> Result<Option<Fields>, AllocError>
    ensures { IfOk result (λ fields. fields ≡ Spec.fields_of text.now) }
{
    let spaced = replace(alloc, text, ",", " ")?;
    let words = words(alloc, spaced.as_str())?;
    Ok(fields_in(without_weekday(words.as_slice())))
}

fn fields_in(words: &[&str]) -> Option<Fields>
    ensures { result ≡ Spec.fields_in (map (λ w. w.now) words.now) }
{
    match in_numbers(words) {
        Some(fields) => Some(fields),
        None => in_words(words),
    }
}

fn without_weekday<'w, 't>(words: &'w [&'t str]) -> &'w [&'t str]
    ensures { map (λ w. w.now) result.now ≡ Spec.without_weekday (map (λ w. w.now) words.now) }
{
    match words {
        [first, rest @ ..] => if weekday_named(first.as_bytes()).is_some() {
            rest
        } else {
            words
        },
        [] => words,
    }
}

/// Reads a date in numbers, and perhaps a time.
fn in_numbers(words: &[&str]) -> Option<Fields>
    ensures { result ≡ Spec.in_numbers (map (λ w. w.now) words.now) }
{
    let [first, others @ ..] = words else {
        return None;
    };
    let bytes = first.as_bytes();
    let (front, back) = bytes.split_at(bytes.len().min(10));
    let day = day_in_numbers(front)?;
    let (clock, offset) = time_after_day(back, others)?;
    Some(Fields { day, clock, offset })
}

/// Reads what follows a date in numbers: words, or a `T` and a time.
fn time_after_day(text: &[u8], words: &[&str]) -> Option<(Clock, i32)>
    ensures { result ≡ Spec.time_after_day text.now (map (λ w. w.now) words.now) }
{
    match text {
        [] => time_in_words(words),
        [b'T', time @ ..] => time_after_mark(time, words),
        _ => None,
    }
}

/// Reads a date in words, and perhaps a time.
fn in_words(words: &[&str]) -> Option<Fields>
    ensures { result ≡ Spec.in_words (map (λ w. w.now) words.now) }
{
    let [first, second, last, others @ ..] = words else {
        return None;
    };
    let day = day_in_words(first.as_bytes(), second.as_bytes(), last.as_bytes())?;
    let (clock, offset) = time_in_words(others)?;
    Some(Fields { day, clock, offset })
}
