//! Readers of the parts of dates.
ghost use Rattle.std.specs.Prelude.{◌≡◌, ◌<◌, pos, neg_ℤ, option_map, IfSome};
ghost use Rattle.std.specs.Int.{IsInRange};
ghost use Rattle.std.specs.Option.{option_copied};
ghost use Rattle.std.specs.Str.{bytes_eq};
ghost use Rattle.liquid_dates.specs.steps.DateReader as Reader;
ghost use Rattle.liquid_dates.specs.steps.DateReader.{read_of, by_year, by_day, by_month};
ghost use Rattle.liquid_dates.specs.meaning.Names.{short_month_name, short_weekday_name};

use crate::flags::is_digit;
use crate::names::{month_name, short_month_name, short_weekday_name};

/// The parts of a date that a text writes. The calendar may not have the day.
#[derive(Clone, Copy)]
pub(crate) struct Ymd {
    pub year: i16,
    pub month: u8,
    pub day: u8,
}

/// Returns the rest after a byte at the front.
pub(crate) fn after_byte(byte: u8, text: &[u8]) -> Option<&[u8]>
    ensures { option_copied result ≡ Reader.after_byte byte text.now }
{
    match text {
        [first, rest @ ..] => { if *first == byte { Some(rest) } else { None } }
        [] => None,
    }
}

/// Reads two digits of a number below a limit.
#[tactic(auto, unfolding(crate::specs::steps::DateReader::read_two_digits))]
pub(crate) fn read_two_digits(limit: u8, text: &[u8]) -> Option<(u8, &[u8])>
    ensures value { read_of result ≡ Reader.read_two_digits limit text.now }
    ensures bound { IfSome result (λ p. p.0 < limit) }
{
    let [tens, ones, rest @ ..] = text else {
        return None;
    };
    if !is_digit(char::from(*tens)) || !is_digit(char::from(*ones)) {
        return None;
    }
    let number = 10 * (*tens - b'0') + (*ones - b'0');
    if number >= limit {
        return None;
    }
    Some((number, rest))
}

// Reads four digits.
#[tactic(auto, unfolding(crate::specs::steps::DateReader::read_four_digits))]
fn read_four_digits(text: &[u8]) -> Option<(u16, &[u8])>
    ensures value { read_of result ≡ Reader.read_four_digits text.now }
    ensures bound { IfSome result (λ p. p.0 < 10000) }
{
    let (century, rest) = read_two_digits(100, text)?;
    let (year, rest) = read_two_digits(100, rest)?;
    Some((100 * u16::from(century) + u16::from(year), rest))
}

// Reads a year, which may follow a `-`.
#[tactic(auto, unfolding(crate::specs::steps::DateReader::read_year))]
pub(crate) fn read_year(text: &[u8]) -> Option<(i16, &[u8])>
    ensures value { read_of result ≡ Reader.read_year text.now }
{
    match after_byte(b'-', text) {
        Some(following) => {
            let (number, rest) = read_four_digits(following)?;
            Some((negative(number), rest))
        }
        None => {
            let (number, rest) = read_four_digits(text)?;
            Some((not_negative(number), rest))
        }
    }
}

fn negative(number: u16) -> i16
    requires { number < 10000 }
    ensures { result ≡ neg_ℤ (pos number) }
{
    -(number as i16)
}

fn not_negative(number: u16) -> i16
    requires { number < 10000 }
    ensures { result ≡ pos number }
{
    number as i16
}

// Returns `true` if two texts are the same.
fn is_same(left: &[u8], right: &[u8]) -> bool
    ensures { result ≡ bytes_eq left.now right.now }
{
    left == right
}

// Returns the month with that short name.
fn find_month(name: &[u8]) -> Option<u8>
    ensures value { result ≡ Reader.find_name short_month_name name.now 12 1 }
    ensures bound { IfSome result (λ m. IsInRange 1 12 m) }
{
    'months: for month in 1..13u8 {
        if is_same(short_month_name(month).as_bytes(), name) {
            return Some(month);
        }
    }
    None
}

// Returns the weekday with that short name, from 0 for Monday.
fn find_weekday(name: &[u8]) -> Option<u8>
    ensures { result ≡ Reader.find_name short_weekday_name name.now 7 0 }
{
    'weekdays: for weekday in 0..7u8 {
        if is_same(short_weekday_name(weekday).as_bytes(), name) {
            return Some(weekday);
        }
    }
    None
}

// Reads the short name of a month.
#[tactic(auto, unfolding(crate::specs::steps::DateReader::read_short_name))]
pub(crate) fn read_short_month(text: &[u8]) -> Option<(u8, &[u8])>
    ensures value { read_of result ≡ Reader.read_short_month text.now }
    ensures bound { IfSome result (λ p. IsInRange 1 12 p.0) }
{
    let [a, b, c, rest @ ..] = text else {
        return None;
    };
    let month = find_month(&[*a, *b, *c])?;
    Some((month, rest))
}

/// Reads the short name of a weekday.
#[tactic(auto, unfolding(crate::specs::steps::DateReader::read_short_name))]
pub(crate) fn read_weekday(text: &[u8]) -> Option<(u8, &[u8])>
    ensures value { read_of result ≡ Reader.read_weekday text.now }
{
    let [a, b, c, rest @ ..] = text else {
        return None;
    };
    let weekday = find_weekday(&[*a, *b, *c])?;
    Some((weekday, rest))
}

// Returns the rest after a text at the front.
#[tactic(auto, unfolding(crate::specs::steps::DateReader::following_text))]
fn following_text<'a>(front: &[u8], text: &'a [u8]) -> Option<&'a [u8]>
    ensures { option_copied result ≡ Reader.following_text front.now text.now }
{
    if text.len() < front.len() || &text[..front.len()] != front {
        return None;
    }
    Some(&text[front.len()..])
}

// Reads the name of a month.
#[tactic(auto, unfolding(crate::specs::steps::DateReader::read_month))]
fn read_month(text: &[u8]) -> Option<(u8, &[u8])>
    ensures value { read_of result ≡ Reader.read_month text.now }
{
    let (month, rest) = read_short_month(text)?;
    let name = month_name(month).as_bytes();
    let following = following_text(&name[3..], rest)?;
    Some((month, following))
}

/// Reads `YYYY-MM-DD`.
#[tactic(auto, unfolding(crate::specs::steps::DateReader::read_iso_date))]
pub(crate) fn read_iso_date(text: &[u8]) -> Option<(Ymd, &[u8])>
    ensures value { option_map by_year (read_of result) ≡ Reader.read_iso_date text.now }
{
    let (year, rest) = read_year(text)?;
    let rest = after_byte(b'-', rest)?;
    let (month, rest) = read_two_digits(100, rest)?;
    let rest = after_byte(b'-', rest)?;
    let (day, rest) = read_two_digits(100, rest)?;
    Some((Ymd { year, month, day }, rest))
}

/// Reads `DD Month YYYY`.
#[tactic(auto, unfolding(crate::specs::steps::DateReader::read_long_date))]
pub(crate) fn read_long_date(text: &[u8]) -> Option<(Ymd, &[u8])>
    ensures value { option_map by_day (read_of result) ≡ Reader.read_long_date text.now }
{
    let (day, rest) = read_two_digits(100, text)?;
    let rest = after_byte(b' ', rest)?;
    let (month, rest) = read_month(rest)?;
    let rest = after_byte(b' ', rest)?;
    let (year, rest) = read_year(rest)?;
    Some((Ymd { year, month, day }, rest))
}

/// Reads `DD Mon YYYY`.
#[tactic(auto, unfolding(crate::specs::steps::DateReader::read_short_date))]
pub(crate) fn read_short_date(text: &[u8]) -> Option<(Ymd, &[u8])>
    ensures value { option_map by_day (read_of result) ≡ Reader.read_short_date text.now }
{
    let (day, rest) = read_two_digits(100, text)?;
    let rest = after_byte(b' ', rest)?;
    let (month, rest) = read_short_month(rest)?;
    let rest = after_byte(b' ', rest)?;
    let (year, rest) = read_year(rest)?;
    Some((Ymd { year, month, day }, rest))
}

/// Reads `MM/DD/YYYY`.
#[tactic(auto, unfolding(crate::specs::steps::DateReader::read_us_date))]
pub(crate) fn read_us_date(text: &[u8]) -> Option<(Ymd, &[u8])>
    ensures value { option_map by_month (read_of result) ≡ Reader.read_us_date text.now }
{
    let (month, rest) = read_two_digits(100, text)?;
    let rest = after_byte(b'/', rest)?;
    let (day, rest) = read_two_digits(100, rest)?;
    let rest = after_byte(b'/', rest)?;
    let (year, rest) = read_year(rest)?;
    Some((Ymd { year, month, day }, rest))
}
