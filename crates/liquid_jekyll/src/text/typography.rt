//! Typography: quotes, dashes and other signs in place of how they are typed.
ghost use Rattle.std.specs.Prelude.{◌≡◌, ◌++◌, chars, encode_utf8_all, option_map, string_bytes, IfOk, OnOk};
ghost use Rattle.liquid_jekyll.specs.meaning.text.Typography as Spec;

use crate::text::quotes::{Mark, at, is_quote, more, quote_mark};
use crate::text::runs::without_last;
use std::alloc::{AllocError, Global};

/// Returns the text with signs in place of how they are typed: opening and closing quotes, dashes for `---` and `--`, an
/// ellipsis for `...`, a guillemet for `>>`, and `&gt;` for another `>`. A line feed at its end goes.
///
/// Returns `None` for a string with `<`, `&`, a backslash or a carriage return, which needs a reader of HTML.
pub fn smartify(alloc: Global, text: &str) -> Result<Option<String>, AllocError>
    ensures { IfOk result (λ t. option_map string_bytes t ≡ Spec.smartened text.now) }
{
    if has_markup(text.as_bytes()) {
        return Ok(None);
    }
    let characters = characters_of(alloc, without_last(text, b'\n'))?;
    Ok(Some(smart_text(alloc, characters.as_slice())?))
}

fn has_markup(text: &[u8]) -> bool
    ensures { result ≡ Spec.has_markup text.now }
{
    text.iter()
        .any(|byte| matches!(*byte, b'<' | b'&' | b'\\' | b'\r'))
}

fn characters_of(alloc: Global, text: &str) -> Result<Vec<char>, AllocError>
    ensures { IfOk result (λ v. v.items ≡ chars text.now) }
{
    let mut characters = Vec::with_capacity(alloc, text.len())?;
    for character in text.chars() {
        characters.push(character)?;
    }
    Ok(characters)
}

/// Returns the characters as a string, with signs in place of how they are typed.
fn smart_text(alloc: Global, characters: &[char]) -> Result<String, AllocError>
    ensures { IfOk result (λ t. string_bytes t ≡ encode_utf8_all (Spec.smart 0 characters.now)) }
{
    let mut smart = String::with_capacity(alloc, characters.len())?;
    let mut taken = 0;
    for at in 0..characters.len() {
        taken = push_next(&mut smart, taken, &characters[at..])?;
    }
    Ok(smart)
}

/// Adds the mark at the start of a string, unless that character is taken already. Returns how many characters after it are
/// taken then.
fn push_next(smart: &mut String, taken: usize, text: &[char]) -> Result<usize, AllocError>
    ensures taken { IfOk result (λ n. n ≡ Spec.taken_after taken text.now) }
    ensures text { OnOk result (string_bytes smart.new ≡ string_bytes smart.old ++ encode_utf8_all (Spec.written_at taken text.now)) }
{
    if taken > 0 {
        return Ok(taken - 1);
    }
    let mark = mark_at(text);
    push_mark(smart, mark, text)?;
    Ok(more(mark))
}

/// Returns what stands at the start of a string.
fn mark_at(text: &[char]) -> Mark
    ensures { result ≡ Spec.mark_at text.now }
{
    if is_quote(at(text, 0)) || is_quote(at(text, 1)) {
        quote_mark(text)
    } else if begins(text, '-', '-') {
        if at(text, 2) == '-' {
            Mark::EmDash
        } else {
            Mark::EnDash
        }
    } else if begins(text, '.', '.') && at(text, 2) == '.' {
        Mark::Ellipsis
    } else if begins(text, ' ', '>') && at(text, 2) == '>' {
        Mark::SpacedGuillemet
    } else if begins(text, '>', '>') {
        Mark::Guillemet
    } else {
        Mark::Plain
    }
}

fn begins(text: &[char], first: char, second: char) -> bool
    ensures { result ≡ Spec.begins text.now first second }
{
    at(text, 0) == first && at(text, 1) == second
}

/// Adds what a mark at the start of a string is written as.
fn push_mark(smart: &mut String, mark: Mark, text: &[char]) -> Result<(), AllocError>
    ensures { OnOk result (string_bytes smart.new ≡ string_bytes smart.old ++ encode_utf8_all (Spec.mark_text mark text.now)) }
{
    match mark {
        Mark::Plain => push_plain(smart, at(text, 0)),
        Mark::Opening => smart.push(opening(at(text, 0))),
        Mark::Closing => smart.push(closing(at(text, 0))),
        Mark::ThenOpening => {
            push_plain(smart, at(text, 0))?;
            smart.push(opening(at(text, 1)))
        }
        Mark::ThenClosing => {
            push_plain(smart, at(text, 0))?;
            smart.push(closing(at(text, 1)))
        }
        Mark::BothOpening => push_both(smart, at(text, 0), at(text, 1)),
        Mark::ThenBothOpening => {
            push_plain(smart, at(text, 0))?;
            push_both(smart, at(text, 1), at(text, 2))
        }
        Mark::EmDash => smart.push('—'),
        Mark::EnDash => smart.push('–'),
        Mark::Ellipsis => smart.push('…'),
        Mark::Guillemet => smart.push('»'),
        Mark::SpacedGuillemet => {
            smart.push('\u{a0}')?;
            smart.push('»')
        }
    }
}

/// Adds two opening quotes.
fn push_both(smart: &mut String, first: char, second: char) -> Result<(), AllocError>
    ensures { OnOk result (string_bytes smart.new ≡ string_bytes smart.old ++ encode_utf8_all (Spec.both_opening first second)) }
{
    smart.push(opening(first))?;
    smart.push(opening(second))
}

/// Adds a character that stays, escaped for HTML.
fn push_plain(smart: &mut String, character: char) -> Result<(), AllocError>
    ensures { OnOk result (string_bytes smart.new ≡ string_bytes smart.old ++ encode_utf8_all (Spec.plain character)) }
{
    if character == '>' {
        smart.push_str("&gt;")
    } else {
        smart.push(character)
    }
}

fn opening(quote: char) -> char
    ensures { result ≡ Spec.opening quote }
{
    if quote == '"' { '“' } else { '‘' }
}

fn closing(quote: char) -> char
    ensures { result ≡ Spec.closing quote }
{
    if quote == '"' { '”' } else { '’' }
}
