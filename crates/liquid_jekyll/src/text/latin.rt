//! Latin letters as letters of ASCII.
ghost use Rattle.std.specs.Prelude.{◌≡◌, ◌++◌, chars, encode_utf8_all, flat_map, get_or, string_bytes, IfOk, OnOk};
ghost use Rattle.liquid_jekyll.specs.meaning.text.Latin as Spec;

use std::alloc::{AllocError, Global};

/// The first letter in ASCII of each character from U+00C0 to U+017E.
const LATIN: [char; 191] = [
    'A', 'A', 'A', 'A', 'A', 'A', 'A', 'C', 'E', 'E', 'E', 'E', 'I', 'I', 'I', 'I', 'D', 'N', 'O',
    'O', 'O', 'O', 'O', 'x', 'O', 'U', 'U', 'U', 'U', 'Y', 'T', 's', 'a', 'a', 'a', 'a', 'a', 'a',
    'a', 'c', 'e', 'e', 'e', 'e', 'i', 'i', 'i', 'i', 'd', 'n', 'o', 'o', 'o', 'o', 'o', '?', 'o',
    'u', 'u', 'u', 'u', 'y', 't', 'y', 'A', 'a', 'A', 'a', 'A', 'a', 'C', 'c', 'C', 'c', 'C', 'c',
    'C', 'c', 'D', 'd', 'D', 'd', 'E', 'e', 'E', 'e', 'E', 'e', 'E', 'e', 'E', 'e', 'G', 'g', 'G',
    'g', 'G', 'g', 'G', 'g', 'H', 'h', 'H', 'h', 'I', 'i', 'I', 'i', 'I', 'i', 'I', 'i', 'I', 'i',
    'I', 'i', 'J', 'j', 'K', 'k', 'k', 'L', 'l', 'L', 'l', 'L', 'l', 'L', 'l', 'L', 'l', 'N', 'n',
    'N', 'n', 'N', 'n', '\'', 'N', 'n', 'O', 'o', 'O', 'o', 'O', 'o', 'O', 'o', 'R', 'r', 'R', 'r',
    'R', 'r', 'S', 's', 'S', 's', 'S', 's', 'S', 's', 'T', 't', 'T', 't', 'T', 't', 'U', 'u', 'U',
    'u', 'U', 'u', 'U', 'u', 'U', 'u', 'U', 'u', 'W', 'w', 'Y', 'y', 'Y', 'Z', 'z', 'Z', 'z', 'Z',
    'z',
];

/// Returns the text with letters of ASCII in place of Latin letters, and a question mark in place of any other character
/// past ASCII.
pub(crate) fn in_ascii(alloc: Global, text: &str) -> Result<String, AllocError>
    ensures { IfOk result (λ t. string_bytes t ≡ encode_utf8_all (flat_map Spec.ascii_of (chars text.now))) }
{
    let mut ascii = String::with_capacity(alloc, text.len())?;
    for character in text.chars() {
        push_ascii(&mut ascii, character)?;
    }
    Ok(ascii)
}

/// Adds a character in ASCII.
fn push_ascii(ascii: &mut String, character: char) -> Result<(), AllocError>
    ensures { OnOk result (string_bytes ascii.new ≡ string_bytes ascii.old ++ encode_utf8_all (Spec.ascii_of character)) }
{
    if character.is_ascii() {
        return ascii.push(character);
    }
    if character < 'À' {
        return ascii.push('?');
    }
    ascii.push(letter_at((character as u32 - 192) as usize))?;
    match second_letter(character) {
        Some(letter) => ascii.push(letter),
        None => Ok(()),
    }
}

/// Returns the letter at a place of the table, or a question mark past its end.
fn letter_at(place: usize) -> char
    ensures { result ≡ get_or Spec.latin place 63 }
{
    at_or(&LATIN, place, '?')
}

/// Returns the character at a place, or another one past the end.
fn at_or(characters: &[char], place: usize, other: char) -> char
    ensures { result ≡ get_or characters.now place other }
{
    match characters.get(place) {
        Some(character) => *character,
        None => other,
    }
}

/// Returns the second letter in ASCII of a character that has two.
fn second_letter(character: char) -> Option<char>
    ensures { result ≡ Spec.second_letter character }
{
    match character {
        'Æ' | 'Œ' => Some('E'),
        'Þ' | 'þ' => Some('h'),
        'ß' => Some('s'),
        'æ' | 'œ' => Some('e'),
        'Ĳ' => Some('J'),
        'ĳ' => Some('j'),
        'ŉ' => Some('n'),
        'Ŋ' => Some('G'),
        'ŋ' => Some('g'),
        _ => None,
    }
}
