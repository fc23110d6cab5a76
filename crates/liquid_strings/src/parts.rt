//! The pieces of a string.
ghost use Rattle.std.specs.Prelude.{◌≡◌, ◌++◌, ◌<◌, chars, encode_utf8, length, map, IfOk, OnOk};
ghost use Rattle.liquid_strings.specs.meaning.Pieces.{pieces, pieces_between};
ghost use Rattle.liquid_strings.specs.meaning.Split.{split, without_empty_end, words};
ghost use Rattle.memchr.specs.Find.{matches};

use memchr::memmem;
use std::alloc::{AllocError, Global};

/// Returns the pieces of the string between the places of `search`, which are taken from left to right without overlap.
///
/// An empty `search` has a place before each character and at the end.
pub fn pieces<'t>(alloc: Global, text: &'t str, search: &str) -> Result<Vec<&'t str>, AllocError>
    ensures { IfOk result (λ v. map (λ p. p.now) v.items ≡ pieces search.now text.now) }
{
    let mut pieces = Vec::new(alloc);
    if search.is_empty() {
        pieces.push("")?;
        push_characters(&mut pieces, text)?;
        pieces.push("")?;
    } else {
        push_pieces(&mut pieces, text, search)?;
    }
    Ok(pieces)
}

/// Returns the characters of the string, each as a string.
pub fn characters(alloc: Global, text: &str) -> Result<Vec<&str>, AllocError>
    ensures { IfOk result (λ v. map (λ p. p.now) v.items ≡ map encode_utf8 (chars text.now)) }
{
    let mut characters = Vec::new(alloc);
    push_characters(&mut characters, text)?;
    Ok(characters)
}

/// Returns the words of the string: its longest runs without whitespace.
pub fn words(alloc: Global, text: &str) -> Result<Vec<&str>, AllocError>
    ensures { IfOk result (λ v. map (λ p. p.now) v.items ≡ words text.now) }
{
    let mut words = Vec::new(alloc);
    for word in text.split_whitespace() {
        words.push(word)?;
    }
    Ok(words)
}

/// Returns the words of the string if `separator` is a space, its characters if it is empty, and otherwise the pieces
/// between its places, without empty ones at the end.
pub fn split<'t>(alloc: Global, text: &'t str, separator: &str) -> Result<Vec<&'t str>, AllocError>
    ensures { IfOk result (λ v. map (λ p. p.now) v.items ≡ split separator.now text.now) }
{
    if separator == " " {
        return words(alloc, text);
    }
    if separator.is_empty() {
        return characters(alloc, text);
    }
    let mut pieces = pieces(alloc, text, separator)?;
    drop_empty_end(&mut pieces);
    Ok(pieces)
}

/// Drops the empty pieces at the end.
fn drop_empty_end(pieces: &mut Vec<&str>)
    ensures { map (λ p. p.now) pieces.new.items ≡ without_empty_end (map (λ p. p.now) pieces.old.items) }
{
    let mut kept = 0;
    for (at, piece) in pieces.iter().enumerate() {
        if !piece.is_empty() {
            kept = at + 1;
        }
    }
    pieces.truncate(kept);
}

/// Appends the pieces between the places of a search string that is not empty.
fn push_pieces<'t>(pieces: &mut Vec<&'t str>, text: &'t str, search: &str) -> Result<(), AllocError>
    requires { 0 < length search.now }
    ensures { OnOk result (map (λ p. p.now) pieces.new.items
        ≡ map (λ p. p.now) pieces.old.items ++ pieces_between (length search.now) text.now 0 (matches text.now search.now 0)) }
{
    let mut from = 0;
    for at in memmem::find_iter(text.as_bytes(), search.as_bytes()) {
        pieces.push(&text[from..at])?;
        from = at + search.len();
    }
    pieces.push(&text[from..])?;
    Ok(())
}

/// Appends the characters of the string.
fn push_characters<'t>(pieces: &mut Vec<&'t str>, text: &'t str) -> Result<(), AllocError>
    ensures { OnOk result (map (λ p. p.now) pieces.new.items ≡ map (λ p. p.now) pieces.old.items ++ map encode_utf8 (chars text.now)) }
{
    let mut rest = text;
    for character in text.chars() {
        let (first, others) = rest.split_at(character.len_utf8());
        pieces.push(first)?;
        rest = others;
    }
    Ok(())
}
