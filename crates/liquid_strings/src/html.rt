//! Characters that mean something in HTML, escaped.
ghost use Rattle.std.specs.Prelude.{◌≡◌, length, IfOk, option_map, string_bytes};
ghost use Rattle.std.specs.Char.{is_ascii_alphabetic, is_ascii_digit};
ghost use Rattle.std.specs.List.{take_while};
ghost use Rattle.liquid_strings.specs.meaning.Escape.{entity, escaped, escaped_once, goes_on_as_entity, needed_entity, run_to_semicolon};

use std::alloc::{AllocError, Global};

/// Returns the string with each of `&`, `<`, `>`, `"` and `'` as its entity.
pub fn escape(alloc: Global, text: &str) -> Result<String, AllocError>
    ensures { IfOk result (λ t. string_bytes t ≡ escaped text.now) }
{
    let mut escaped = String::with_capacity(alloc, text.len())?;
    let mut kept = 0;
    for (at, byte) in text.as_bytes().iter().enumerate() {
        if let Some(entity) = entity(*byte) {
            escaped.push_str(&text[kept..at])?;
            escaped.push_str(entity)?;
            kept = at + 1;
        }
    }
    escaped.push_str(&text[kept..])?;
    Ok(escaped)
}

/// Returns the string with each of `&`, `<`, `>`, `"` and `'` as its entity, except for an `&` that begins an entity: one
/// that is followed by ASCII letters and `;`, or by `#`, digits and `;`.
pub fn escape_once(alloc: Global, text: &str) -> Result<String, AllocError>
    ensures { IfOk result (λ t. string_bytes t ≡ escaped_once text.now) }
{
    let mut escaped = String::with_capacity(alloc, text.len())?;
    let mut kept = 0;
    for (at, byte) in text.as_bytes().iter().enumerate() {
        if let Some(entity) = needed_entity(*byte, &text.as_bytes()[at + 1..]) {
            escaped.push_str(&text[kept..at])?;
            escaped.push_str(entity)?;
            kept = at + 1;
        }
    }
    escaped.push_str(&text[kept..])?;
    Ok(escaped)
}

/// Returns the entity of the byte before those others, if it has to be escaped and begins no entity.
fn needed_entity(byte: u8, others: &[u8]) -> Option<&'static str>
    ensures { option_map (λ e. e.now) result ≡ needed_entity byte others.now }
{
    if byte == b'&' && goes_on_as_entity(others) {
        return None;
    }
    entity(byte)
}

/// Returns `true` if the bytes are what follows the `&` of an entity.
fn goes_on_as_entity(bytes: &[u8]) -> bool
    ensures { result ≡ goes_on_as_entity bytes.now }
{
    match bytes {
        [b'#', others @ ..] => ends_in_semicolon(others, digit_count(others)),
        others => ends_in_semicolon(others, letter_count(others)),
    }
}

fn ends_in_semicolon(bytes: &[u8], run: usize) -> bool
    ensures { result ≡ run_to_semicolon run bytes.now }
{
    0 < run && run < bytes.len() && bytes[run] == b';'
}

fn letter_count(bytes: &[u8]) -> usize
    ensures { result ≡ length (take_while is_ascii_alphabetic bytes.now) }
{
    bytes
        .iter()
        .take_while(|byte| byte.is_ascii_alphabetic())
        .count()
}

fn digit_count(bytes: &[u8]) -> usize
    ensures { result ≡ length (take_while is_ascii_digit bytes.now) }
{
    bytes
        .iter()
        .take_while(|byte| byte.is_ascii_digit())
        .count()
}

/// Returns the entity of the byte in HTML, if it has to be escaped.
fn entity(byte: u8) -> Option<&'static str>
    ensures { option_map (λ e. e.now) result ≡ entity byte }
{
    match byte {
        b'&' => Some("&amp;"),
        b'<' => Some("&lt;"),
        b'>' => Some("&gt;"),
        b'"' => Some("&quot;"),
        b'\'' => Some("&#39;"),
        _ => None,
    }
}
