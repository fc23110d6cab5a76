//! Decimals from texts.
ghost use Rattle.std.specs.Prelude.{◌≡◌, ◌≤◌, ◌<◌, length, option_map};
ghost use Rattle.std.specs.Option.{option_and_then};
ghost use Rattle.liquid_decimals.specs.meaning.Dec.{dec, limited, signed};
ghost use Rattle.liquid_decimals.specs.meaning.Text.{decimal_around, decimal_of_parts, decimal_of_text, decimal_of_whole, point};
ghost use Rattle.liquid_decimals.specs.steps.Digits.{digits_after, with_digit};

use crate::decimal::Decimal;
use crate::parts::decimal_from;

impl Decimal {
    /// Returns the decimal that a string writes: a minus or none, digits, and, if there is a point, 1 to 18 digits after it.
    /// Returns `None` for any other string, and if the digits without the point are no `i64`.
    pub fn from_text(text: &str) -> Option<Decimal>
        ensures { option_map dec result ≡ decimal_of_text text.now }
    {
        Decimal::from_bytes(text.as_bytes())
    }

    /// Returns the decimal that the bytes of a string write, as [`Decimal::from_text`] does.
    pub fn from_bytes(bytes: &[u8]) -> Option<Decimal>
        ensures { option_map dec result ≡ decimal_of_text bytes.now }
    {
        if !bytes.is_empty() && bytes[0] == b'-' {
            unsigned(true, &bytes[1..])
        } else {
            unsigned(false, bytes)
        }
    }
}

/// Returns the decimal of a sign and an unsigned text.
#[tactic(auto, using(crate::proofs::DigitsRead::point_within))]
fn unsigned(minus: bool, bytes: &[u8]) -> Option<Decimal>
    ensures { option_map dec result ≡ decimal_around minus bytes.now (point bytes.now) }
{
    match point(bytes) {
        Some(point) => of_parts(minus, &bytes[..point], &bytes[point + 1..]),
        None => of_whole(minus, bytes),
    }
}

/// Returns the position of the first point, if there is one.
fn point(bytes: &[u8]) -> Option<usize>
    ensures { result ≡ point bytes.now }
{
    bytes.iter().position(|byte| *byte == b'.')
}

/// Returns the decimal of the digits before the point and those after it.
#[tactic(auto, using(crate::proofs::DigitsRead::parts_none, crate::proofs::DigitsRead::parts_some, crate::proofs::DigitsRead::parts_long))]
fn of_parts(minus: bool, whole: &[u8], fraction: &[u8]) -> Option<Decimal>
    ensures { option_map dec result ≡ decimal_of_parts minus whole.now fraction.now }
{
    if whole.is_empty() || fraction.is_empty() || fraction.len() > 18 {
        return None;
    }
    match digits_after(0, whole) {
        Some(number) => with_digits(minus, number, fraction, fraction.len() as u32),
        None => None,
    }
}

/// Returns the decimal of digits without a point.
#[tactic(auto, using(crate::proofs::DigitsRead::whole_is))]
fn of_whole(minus: bool, whole: &[u8]) -> Option<Decimal>
    ensures { option_map dec result ≡ decimal_of_whole minus whole.now }
{
    if whole.is_empty() {
        return None;
    }
    with_digits(minus, 0, whole, 0)
}

/// Returns the decimal of a number with more digits at its end.
fn with_digits(minus: bool, number: u64, digits: &[u8], scale: u32) -> Option<Decimal>
    requires { scale ≤ 18 }
    ensures { option_map dec result ≡ option_and_then (λ n. limited (signed minus n) scale) (digits_after number digits.now) }
{
    match digits_after(number, digits) {
        Some(magnitude) => decimal_from(minus, magnitude, scale),
        None => None,
    }
}

/// Returns a number with more digits at its end. Returns `None` if one is no digit, or if the number is no `u64`.
#[tactic(auto, using(crate::proofs::DigitsRead::step_some, crate::proofs::DigitsRead::step_none))]
fn digits_after(number: u64, digits: &[u8]) -> Option<u64>
    ensures { result ≡ digits_after number digits.now }
{
    let mut number = number;
    for digit in digits {
        match with_digit(number, *digit) {
            Some(longer) => number = longer,
            None => return None,
        }
    }
    Some(number)
}

/// Returns a number with one more digit at its end.
fn with_digit(number: u64, digit: u8) -> Option<u64>
    ensures { result ≡ with_digit number digit }
{
    if !digit.is_ascii_digit() {
        return None;
    }
    let tenfold = number.checked_mul(10)?;
    tenfold.checked_add(u64::from(digit - b'0'))
}
