//! Reading a directive of a pattern.
ghost use Rattle.std.specs.Prelude.{◌≡◌, ℕ, List, ◌+◌, ◌*◌, ◌<◌, ◌==◌, if◌then◌else◌, true, [], ◌∷◌, length, IfSome, MatchOption};
ghost use Rattle.std.specs.Str.{chars, IsUtf8};
ghost use Rattle.liquid_dates.specs.meaning.Flags.{is_flag, is_digit, is_modifier, no_flags, flags_of, width_of};
ghost use Rattle.liquid_dates.specs.meaning.Letters.{directive_of};
ghost use Rattle.liquid_dates.specs.steps.PatternReader as Reader;
ghost use Rattle.liquid_dates.specs.steps.PatternReader.{IsReadAs};

use crate::DateFormatError;
use crate::directive::{Directive, Offset, letter_directive};
use crate::flags::{Flags, is_digit, is_flag};

/// The width of a directive.
#[derive(Clone, Copy)]
pub(crate) enum Width {
    /// No digit is given.
    Unset,
    Given(usize),
    /// The number is too great for a `usize`.
    TooGreat,
}

/// A directive with its flags and its width. There is no directive for a letter that means nothing.
#[derive(Clone, Copy)]
pub(crate) struct Conversion {
    pub flags: Flags,
    pub width: Option<usize>,
    pub directive: Option<Directive>,
}

/// Returns the first character of a text, and the rest after it.
pub(crate) fn split_first(text: &str) -> Option<(char, &str)>
    ensures cases { MatchOption result (chars text.now ≡ [])
        (λ p. chars text.now ≡ p.0 ∷ chars p.1.now) }
    ensures shorter { IfSome result (λ p. length p.1.now < length text.now) }
    ensures utf8 { IfSome result (λ p. IsUtf8 p.1.now) }
{
    let mut characters = text.chars();
    match characters.next() {
        Some(first) => Some((first, characters.as_str())),
        None => None,
    }
}

// Returns the flags at the front, and the rest after them.
fn read_flags(text: &str) -> (Flags, &str)
    ensures flags { result.0 ≡ Reader.flags_from no_flags (chars text.now) }
    ensures rest { chars result.1.now ≡ Reader.following is_flag (chars text.now) }
    ensures utf8 { IsUtf8 result.1.now }
{
    let mut flags = Flags::NONE;
    let mut rest = text;
    'flags: while let Some((c, after)) = split_first(rest) {
        if !is_flag(c) {
            break;
        }
        flags = flags.with(c);
        rest = after;
    }
    (flags, rest)
}

impl Width {
    // Returns the width with one more digit.
    fn with(self, digit: char) -> Width
        requires { is_digit digit ≡ true }
        ensures { result ≡ Reader.with_digit self digit }
    {
        let value = digit as usize - 48;
        match self {
            Width::Unset => Width::Given(value),
            Width::Given(number) => with_value(number, value),
            Width::TooGreat => Width::TooGreat,
        }
    }
}

fn with_value(number: usize, value: usize) -> Width
    requires { value < 10 }
    ensures { result ≡ Reader.bounded_width (number * 10 + value) }
{
    match number.checked_mul(10) {
        Some(tenfold) => match tenfold.checked_add(value) {
            Some(sum) => Width::Given(sum),
            None => Width::TooGreat,
        },
        None => Width::TooGreat,
    }
}

// Returns the width that the digits at the front write, and the rest after them.
fn read_width(text: &str) -> (Width, &str)
    ensures width { result.0 ≡ Reader.width_from Width.Unset (chars text.now) }
    ensures rest { chars result.1.now ≡ Reader.following is_digit (chars text.now) }
    ensures utf8 { IsUtf8 result.1.now }
{
    let mut width = Width::Unset;
    let mut rest = text;
    'digits: while let Some((c, after)) = split_first(rest) {
        if !is_digit(c) {
            break;
        }
        width = width.with(c);
        rest = after;
    }
    (width, rest)
}

// Returns the directive that a letter means, and the rest after it. A `:` takes the next character, and a second one
// takes one more.
#[tactic(auto, unfolding(crate::specs::meaning::Letters::directive_of), using(crate::proofs::CharLemmas::colon_letter))]
#[inline(always)]
fn read_letter(first: char, text: &str) -> (Option<Directive>, &str)
    ensures directive { result.0 ≡ directive_of (Reader.letter_front first (chars text.now)) }
    ensures rest { chars result.1.now ≡ Reader.letter_after first (chars text.now) }
    ensures utf8 { IsUtf8 result.1.now }
{
    if first != ':' {
        return (letter_directive(first), text);
    }
    let Some((second, after)) = split_first(text) else {
        return (None, text);
    };
    if second != ':' {
        return (offset_if_z(second, Offset::Minutes), after);
    }
    match split_first(after) {
        Some((third, rest)) => (offset_if_z(third, Offset::Seconds), rest),
        None => (None, after),
    }
}

fn offset_if_z(letter: char, offset: Offset) -> Option<Directive>
    ensures { result ≡ if letter == 122 then Some (Directive.OfOffset offset) else None }
{
    if letter == 'z' {
        return Some(Directive::OfOffset(offset));
    }
    None
}

fn is_modifier(c: char) -> bool
    ensures { result ≡ is_modifier c }
{
    c == 'E' || c == 'O'
}

// Returns a directive read from its letter on, and the rest after it.
#[inline(always)]
fn with_letter(flags: Flags, width: Option<usize>, letter: char, text: &str) -> (Conversion, &str)
    ensures flags { result.0.flags ≡ flags }
    ensures width { result.0.width ≡ width }
    ensures directive { result.0.directive
        ≡ directive_of (Reader.letter_front letter (chars text.now)) }
    ensures rest { chars result.1.now ≡ Reader.letter_after letter (chars text.now) }
    ensures utf8 { IsUtf8 result.1.now }
{
    let (directive, rest) = read_letter(letter, text);
    let conversion = Conversion {
        flags,
        width,
        directive,
    };
    (conversion, rest)
}

// Returns a directive read from after its width on, with its first character already taken.
#[inline(always)]
fn from_modifier(
    flags: Flags,
    width: Option<usize>,
    first: char,
    text: &str,
) -> Result<(Conversion, &str), DateFormatError>
    ensures { (fs ds : List ℕ) → flags ≡ flags_of fs → width ≡ width_of ds
        → IsReadAs result (Reader.modifier_at fs ds first (chars text.now)) }
{
    if !is_modifier(first) {
        return Ok(with_letter(flags, width, first, text));
    }
    let Some((letter, after)) = split_first(text) else {
        return Err(DateFormatError::NoFormatSpecifierAfterModifier);
    };
    Ok(with_letter(flags, width, letter, after))
}

/// Reads a directive that begins after its per cent. Returns it and the rest after it.
pub(crate) fn read_conversion(text: &str) -> Result<(Conversion, &str), DateFormatError>
    ensures { IsReadAs result (Reader.directive_at (chars text.now)) }
{
    let (flags, after_flags) = read_flags(text);
    let (width, after_width) = read_width(after_flags);
    let Some((first, after)) = split_first(after_width) else {
        return Err(DateFormatError::NoFormatSpecifier);
    };
    match width {
        Width::Unset => from_modifier(flags, None, first, after),
        Width::Given(number) => from_modifier(flags, Some(number), first, after),
        Width::TooGreat => Err(DateFormatError::InvalidWidth),
    }
}
