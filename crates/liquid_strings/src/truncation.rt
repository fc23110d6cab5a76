//! Parts of a string by counts of characters or words.
ghost use Rattle.std.specs.Prelude.{◌≡◌, ◌==◌, ◌&&◌, ◌||◌, not, nat_lt, chars, drop, encode_utf8_all, length, string_bytes, take, IfOk};
ghost use Rattle.std.specs.Str.{trim_end};
ghost use Rattle.liquid_strings.specs.meaning.Truncation.{truncated, truncated_at, truncated_words};

use crate::parts::words;
use std::alloc::{AllocError, Global};

/// Splits the string after that many characters, or at its end if it has fewer.
pub fn cut(text: &str, count: usize) -> (&str, &str)
    ensures front { result.0.now ≡ encode_utf8_all (take count (chars text.now)) }
    ensures back { result.1.now ≡ encode_utf8_all (drop count (chars text.now)) }
{
    let back = rest_after(text, count);
    let front = text.split_at(text.len() - back.len()).0;
    (front, back)
}

/// Returns the string without that many characters at its start.
fn rest_after(text: &str, count: usize) -> &str
    ensures { result.now ≡ encode_utf8_all (drop count (chars text.now)) }
{
    let mut rest = text.chars();
    for _ in 0..count {
        let Some(_) = rest.next() else {
            return "";
        };
    }
    rest.as_str()
}

/// Returns the string if it has at most `count` characters. Otherwise returns its first ones and the ending, with `count`
/// characters in all if the ending has no more.
pub fn truncate(alloc: Global, text: &str, count: i64, ending: &str) -> Result<String, AllocError>
    ensures { IfOk result (λ t. string_bytes t ≡ truncated count ending.now text.now) }
{
    let Ok(count) = usize::try_from(count) else {
        return String::from_str(alloc, ending);
    };
    if character_count(text) <= count {
        return String::from_str(alloc, text);
    }
    let front = cut(text, count.saturating_sub(character_count(ending))).0;
    format!(in alloc; "{front}{ending}")
}

/// Returns the string if nothing follows its word at `count`, counted from 1. Otherwise returns the words up to that one,
/// with a space between them, and the ending.
pub fn truncate_words(
    alloc: Global,
    text: &str,
    count: i64,
    ending: &str,
) -> Result<String, AllocError>
    ensures { IfOk result (λ t. string_bytes t ≡ truncated_words count ending.now text.now) }
{
    match usize::try_from(count) {
        Ok(count) => truncate_words_after(alloc, text, count.max(1), ending),
        Err(_) => truncate_words_after(alloc, text, 1, ending),
    }
}

/// Returns the string if nothing follows its word at `count`, otherwise the words up to that one and the ending.
fn truncate_words_after(
    alloc: Global,
    text: &str,
    count: usize,
    ending: &str,
) -> Result<String, AllocError>
    ensures { IfOk result (λ t. string_bytes t ≡ truncated_at count ending.now text.now) }
{
    let words = words(alloc, text)?;
    if goes_on(text, words.len(), count) {
        let mut front = words[..count].join(alloc, " ")?;
        front.push_str(ending)?;
        Ok(front)
    } else {
        String::from_str(alloc, text)
    }
}

/// Returns `true` if anything follows the word at `count` of a string with that many words.
fn goes_on(text: &str, words: usize, count: usize) -> bool
    ensures { result ≡ (nat_lt count words || (words == count && not (length (trim_end text.now) == length text.now))) }
{
    count < words || (words == count && text.trim_end().len() != text.len())
}

#[tactic(auto, using(std::proofs::lemmas::Str::chars_from_encodes))]
pub(crate) fn character_count(text: &str) -> usize
    ensures { result ≡ length (chars text.now) }
{
    text.chars().count()
}
