//! Quotes: which open and which close, by what stands around them.
ghost use Rattle.std.specs.Prelude.{◌≡◌, ◌≤◌};
ghost use Rattle.liquid_jekyll.specs.meaning.text.Quotes as Spec;

use crate::text::character_sets::{is_space, is_word};

/// What stands at a place of a string.
#[derive(Debug, Clone, Copy, PartialEq, Eq)]
pub(crate) enum Mark {
    /// A character that stays.
    Plain,
    /// An opening quote.
    Opening,
    /// A closing quote.
    Closing,
    /// A character that stays, and an opening quote.
    ThenOpening,
    /// A character that stays, and a closing quote.
    ThenClosing,
    /// Two opening quotes.
    BothOpening,
    /// A character that stays, and two opening quotes.
    ThenBothOpening,
    /// A long dash.
    EmDash,
    /// A dash.
    EnDash,
    /// An ellipsis.
    Ellipsis,
    /// A guillemet.
    Guillemet,
    /// A guillemet after a space.
    SpacedGuillemet,
}

/// Returns how many characters the mark takes beside the first.
pub(crate) fn more(mark: Mark) -> usize
    ensures value { result ≡ Spec.more mark }
    ensures within { result ≤ 2 }
{
    match mark {
        Mark::Plain | Mark::Opening | Mark::Closing => 0,
        Mark::ThenOpening
        | Mark::ThenClosing
        | Mark::BothOpening
        | Mark::EnDash
        | Mark::Guillemet => 1,
        Mark::ThenBothOpening | Mark::EmDash | Mark::Ellipsis | Mark::SpacedGuillemet => 2,
    }
}

/// Returns the character at a place, or a line feed past the end.
pub(crate) fn at(text: &[char], place: usize) -> char
    ensures { result ≡ Spec.at text.now place }
{
    match text.get(place) {
        Some(character) => *character,
        None => '\n',
    }
}

pub(crate) fn is_quote(character: char) -> bool
    ensures { result ≡ Spec.is_quote character }
{
    character == '"' || character == '\''
}

/// Returns the mark of a string in which one of the first two characters is a quote.
pub(crate) fn quote_mark(text: &[char]) -> Mark
    ensures { result ≡ Spec.quote_mark text.now }
{
    if opens_emphasis(text) {
        Mark::Opening
    } else if is_before_mark(text) {
        Mark::Closing
    } else if is_space(at(text, 0)) && opens_pair(at(text, 1), at(text, 2), at(text, 3)) {
        Mark::ThenBothOpening
    } else if opens_pair(at(text, 0), at(text, 1), at(text, 2)) {
        Mark::BothOpening
    } else {
        single_mark(text)
    }
}

/// Returns the same where no two quotes open together.
fn single_mark(text: &[char]) -> Mark
    ensures { result ≡ Spec.single_mark text.now }
{
    let (first, second) = (at(text, 0), at(text, 1));
    if is_space(first) && is_decade(second, at(text, 2), at(text, 3), at(text, 4)) {
        Mark::ThenClosing
    } else if is_decade(first, second, at(text, 2), at(text, 3)) {
        Mark::Closing
    } else if is_space(first) && is_quote(second) && is_ascii_word(at(text, 2)) {
        Mark::ThenOpening
    } else if closes_after(first) && is_quote(second) {
        Mark::ThenClosing
    } else if is_quote(first) && ends_word(second, at(text, 2)) {
        Mark::Closing
    } else if is_quote(second) {
        Mark::ThenOpening
    } else {
        Mark::Opening
    }
}

fn is_ascii_word(character: char) -> bool
    ensures { result ≡ Spec.is_ascii_word character }
{
    character.is_ascii_alphanumeric() || character == '_'
}

/// Returns `true` for a quote before emphasis: `_` or `*`, and no whitespace behind.
fn opens_emphasis(text: &[char]) -> bool
    ensures { result ≡ Spec.opens_emphasis text.now }
{
    is_quote(at(text, 0)) && matches!(at(text, 1), '_' | '*') && !is_space(at(text, 2))
}

/// Returns `true` for a quote before a mark of ASCII, behind which neither `..` nor the edge of a word is.
fn is_before_mark(text: &[char]) -> bool
    ensures { result ≡ Spec.is_before_mark text.now }
{
    let mark = at(text, 1);
    is_quote(at(text, 0))
        && mark.is_ascii_punctuation()
        && !(at(text, 2) == '.' && at(text, 3) == '.')
        && is_word(mark) == is_word(at(text, 2))
}

/// Returns `true` for two different quotes before a letter, digit or `_` of ASCII.
fn opens_pair(first: char, second: char, third: char) -> bool
    ensures { result ≡ Spec.opens_pair first second third }
{
    is_quote(first) && is_quote(second) && first != second && is_ascii_word(third)
}

/// Returns `true` for the short name of a decade, such as `'80s`.
fn is_decade(first: char, second: char, third: char, fourth: char) -> bool
    ensures { result ≡ Spec.is_decade first second third fourth }
{
    first == '\'' && second.is_ascii_digit() && third.is_ascii_digit() && fourth == 's'
}

/// Returns `true` if a quote after the character closes.
fn closes_after(character: char) -> bool
    ensures { result ≡ Spec.closes_after character }
{
    !matches!(
        character,
        ' ' | '\\' | '\t' | '\r' | '\n' | '[' | '{' | '(' | '-'
    )
}

/// Returns `true` if what follows a quote ends the word before it: whitespace, or `s` as a whole word.
fn ends_word(first: char, second: char) -> bool
    ensures { result ≡ Spec.ends_word first second }
{
    is_space(first) || (first == 's' && !is_word(second))
}
