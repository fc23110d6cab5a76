//! Dates in texts.
ghost use Rattle.std.specs.Prelude.{◌≡◌};
ghost use Rattle.filter_dates.specs.meaning.DayText as Spec;

use crate::digits::{four_digits, short_number, two_digits};
use crate::fields::Day;
use crate::names::month_named;

/// Reads `YYYY-MM-DD` or `YYYY/MM/DD`.
pub(crate) fn day_in_numbers(text: &[u8]) -> Option<Day>
    ensures { result ≡ Spec.day_in_numbers text.now }
{
    match text {
        [a, b, c, d, mark, e, f, other, g, h] => {
            if (*mark != b'-' && *mark != b'/') || *other != *mark {
                return None;
            }
            let year = four_digits(&[*a, *b, *c, *d])?;
            let month = two_digits(*e, *f)?;
            let day = two_digits(*g, *h)?;
            Some(Day { year, month, day })
        }
        _ => None,
    }
}

/// Reads a day and a month in either order, and a year.
pub(crate) fn day_in_words(first: &[u8], second: &[u8], last: &[u8]) -> Option<Day>
    ensures { result ≡ Spec.day_in_words first.now second.now last.now }
{
    let year = four_digits(last)?;
    match day_and_month(first, second, year) {
        Some(day) => Some(day),
        None => day_and_month(second, first, year),
    }
}

/// Reads a day of the month, and the name of the month.
fn day_and_month(number: &[u8], name: &[u8], year: u16) -> Option<Day>
    ensures { result ≡ Spec.day_and_month number.now name.now year }
{
    let day = short_number(number)?;
    let month = month_named(name)?;
    Some(Day { year, month, day })
}
