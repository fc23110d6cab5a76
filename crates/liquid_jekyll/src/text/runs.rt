//! The runs of characters of a set, each as long as it can be.
ghost use Rattle.std.specs.Prelude.{◌≡◌, ◌<◌, ◌≤◌, length, chars, encode_utf8_all, string_bytes, IfOk};
ghost use Rattle.std.specs.Str.{byte};
ghost use Rattle.liquid_jekyll.specs.meaning.text.CharacterSets.{contains};
ghost use Rattle.liquid_jekyll.specs.meaning.text.Runs as Spec;

use crate::text::character_sets::CharacterSet;
use std::alloc::{AllocError, Global};

/// Returns the text with each run of characters of the set as that one character.
pub(crate) fn with_runs_as(
    alloc: Global,
    text: &str,
    set: CharacterSet,
    by: char,
) -> Result<String, AllocError>
    ensures { IfOk result (λ t. string_bytes t ≡ encode_utf8_all (Spec.with_runs_as (contains set) by (chars text.now))) }
{
    let mut replaced = String::with_capacity(alloc, text.len())?;
    let mut in_run = false;
    for character in text.chars() {
        if set.contains(character) {
            in_run = true;
        } else {
            if in_run {
                replaced.push(by)?;
                in_run = false;
            }
            replaced.push(character)?;
        }
    }
    if in_run {
        replaced.push(by)?;
    }
    Ok(replaced)
}

/// Returns the number of runs of characters of the set.
pub(crate) fn run_count(text: &str, set: CharacterSet) -> usize
    ensures value { result ≡ Spec.run_count (contains set) (chars text.now) }
    ensures within { result ≤ length text.now }
{
    let mut count = 0;
    let mut in_run = false;
    for character in text.chars() {
        let contained = set.contains(character);
        if contained && !in_run {
            count += 1;
        }
        in_run = contained;
    }
    count
}

/// Returns the text without one such ASCII character at its start and one at its end.
pub(crate) fn without_ends(text: &str, by: u8) -> &str
    requires { by < 128 }
    ensures { result.now ≡ Spec.without_ends by text.now }
{
    without_last(without_first(text, by), by)
}

fn without_first(text: &str, by: u8) -> &str
    requires { by < 128 }
    ensures { result.now ≡ Spec.without_first by text.now }
{
    match text.as_bytes() {
        [first, ..] if *first == by => &text[1..],
        _ => text,
    }
}

/// Returns the text without one slash at its end.
pub fn without_slash(text: &str) -> &str
    ensures { result.now ≡ Spec.without_last (byte "/") text.now }
{
    without_last(text, b'/')
}

/// Returns the text without one such ASCII character at its end.
pub(crate) fn without_last(text: &str, by: u8) -> &str
    requires { by < 128 }
    ensures { result.now ≡ Spec.without_last by text.now }
{
    match text.as_bytes() {
        [.., last] if *last == by => &text[..text.len() - 1],
        _ => text,
    }
}
