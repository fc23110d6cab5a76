//! Whitespace and words.
ghost use Rattle.std.specs.Prelude.{◌≡◌, ◌≤◌, length, chars, count_by, string_bytes, IfOk};
ghost use Rattle.liquid_jekyll.specs.meaning.text.Words as Spec;

use crate::text::character_sets::{CharacterSet, is_east_asian};
use crate::text::runs::{run_count, with_runs_as, without_ends};
use std::alloc::{AllocError, Global};

/// What counts as a word.
#[derive(Debug, Clone, Copy, PartialEq, Eq)]
pub enum WordMode {
    /// A run without whitespace.
    Spaced,
    /// A character of the scripts Han, Katakana, Hiragana and Hangul, and a run between these and whitespace.
    Mixed,
    /// The second if there is such a character, otherwise the first.
    Auto,
}

/// Returns the text with one space in place of each run of whitespace, and none at the ends.
pub fn normalize_whitespace(alloc: Global, text: &str) -> Result<String, AllocError>
    ensures { IfOk result (λ t. string_bytes t ≡ Spec.normalized text.now) }
{
    let spaced = with_runs_as(alloc, text, CharacterSet::WhiteSpace, ' ')?;
    String::from_str(alloc, without_ends(spaced.as_str(), b' '))
}

/// Returns the number of words.
pub fn number_of_words(text: &str, mode: WordMode) -> usize
    ensures { result ≡ Spec.word_count mode text.now }
{
    match mode {
        WordMode::Spaced => run_count(text, CharacterSet::Printed),
        WordMode::Mixed => mixed_count(text, east_asian_count(text)),
        WordMode::Auto => match east_asian_count(text) {
            0 => run_count(text, CharacterSet::Printed),
            count => mixed_count(text, count),
        },
    }
}

/// Returns the number of words of which that many are characters of the scripts Han, Katakana, Hiragana and Hangul.
fn mixed_count(text: &str, east_asian: usize) -> usize
    requires is { east_asian ≡ Spec.east_asian_count text.now }
    requires within { east_asian ≤ length text.now }
    ensures { result ≡ Spec.mixed_words text.now }
{
    east_asian + run_count(text, CharacterSet::Western)
}

fn east_asian_count(text: &str) -> usize
    ensures value { result ≡ Spec.east_asian_count text.now }
    ensures within { result ≤ length text.now }
{
    text.chars().filter(|c| is_east_asian(*c)).count()
}
