//! Texts in the parameters of an inclusion, in which a backslash escapes the quote after it.
ghost use Rattle.std.specs.Prelude.{◌≡◌, ◌==◌, ◌<◌, ◌≤◌, ◌&&◌, ◌∷◌, ◌++◌, [], false, length, not};
ghost use Rattle.std.specs.Prelude.{option_map, slice_index, string_bytes, IfNone, IfOk, IfSome, MatchOption, OnOk};
ghost use Rattle.std.specs.List.{prefix_len};
ghost use Rattle.jekyll_source.specs.meaning.Parameters as Spec;
ghost use Rattle.jekyll_source.specs.meaning.Splits.{is_quote};
ghost use Rattle.jekyll_source.specs.steps.Parts.{quote_byte};

use crate::literals::{Quote, push_between, push_literal};
use liquid_strings::replace;
use std::alloc::{AllocError, Global};

/// A text in quotes, with what is before and after it.
#[derive(Debug, Clone, Copy)]
struct QuotedText<'t> {
    front: &'t str,
    quote: Quote,
    text: &'t str,
    rest: &'t str,
}

/// Appends the parameters, with the texts in them as literals.
pub(crate) fn push_unescaped(
    alloc: Global,
    out: &mut String,
    parameters: &str,
) -> Result<(), AllocError>
    ensures { OnOk result (string_bytes out.new ≡ string_bytes out.old ++ Spec.unescaped parameters.now) }
{
    let mut rest = parameters;
    while let Some(next) = next_text(rest) {
        out.push_str(next.front)?;
        push_text(alloc, out, next.quote, next.text)?;
        rest = next.rest;
    }
    out.push_str(rest)?;
    Ok(())
}

/// Returns the first text in quotes that has an end.
fn next_text(parameters: &str) -> Option<QuotedText<'_>>
    ensures value { MatchOption result (Spec.unescaped parameters.now ≡ parameters.now) (λ t. Spec.unescaped parameters.now
        ≡ t.front.now ++ (Spec.unescaped_text (quote_byte t.quote) t.text.now ++ Spec.unescaped t.rest.now)) }
    ensures shorter { IfSome result (λ t. length t.rest.now < length parameters.now) }
{
    let (front, back) = split_at_quote(parameters);
    let (quote, after) = first_quote(back)?;
    let (text, rest) = split_quoted(quote, after)?;
    Some(QuotedText {
        front,
        quote,
        text,
        rest,
    })
}

/// Returns what is before the first quote, and from there on.
fn split_at_quote(text: &str) -> (&str, &str)
    ensures { (result.0.now, result.1.now) ≡ Spec.split_at_quote text.now }
{
    text.split_at(unquoted_len(text.as_bytes()))
}

/// Returns the number of bytes before the first quote.
fn unquoted_len(bytes: &[u8]) -> usize
    ensures value { result ≡ prefix_len (λ b. not (is_quote b)) bytes.now }
    ensures within { result ≤ length bytes.now }
{
    bytes
        .iter()
        .take_while(|byte| !(**byte == b'"' || **byte == b'\''))
        .count()
}

/// Returns the quote with which a text begins, and what follows it.
fn first_quote(text: &str) -> Option<(Quote, &str)>
    ensures found { IfSome result (λ p. text.now ≡ quote_byte p.0 ∷ p.1.now) }
    ensures none { IfNone result (is_quote (slice_index text.now 0) ≡ false) }
{
    let bytes = text.as_bytes();
    if bytes.len() == 0 {
        return None;
    }
    match bytes[0] {
        b'"' => Some((Quote::Double, &text[1..])),
        b'\'' => Some((Quote::Single, &text[1..])),
        _ => None,
    }
}

/// Returns what is before the quote that ends a text, and after it. A byte after a backslash doesn't end it.
fn split_quoted(quote: Quote, text: &str) -> Option<(&str, &str)>
    ensures value { option_map (λ p. (p.0.now, p.1.now)) result ≡ Spec.split_quoted (quote_byte quote) text.now }
    ensures shorter { IfSome result (λ p. length p.1.now < length text.now) }
{
    let mut escaped = false;
    for (at, byte) in text.as_bytes().iter().enumerate() {
        if ends_text(escaped, quote, *byte) {
            return Some((&text[..at], &text[at + 1..]));
        }
        escaped = escapes_next(escaped, *byte);
    }
    None
}

/// Returns `true` if the byte is the quote that ends a text.
fn ends_text(escaped: bool, quote: Quote, byte: u8) -> bool
    ensures { result ≡ (not escaped && byte == quote_byte quote) }
{
    !escaped && byte == quote.byte()
}

/// Returns `true` if the byte after this one doesn't end a text.
fn escapes_next(escaped: bool, byte: u8) -> bool
    ensures { result ≡ (not escaped && byte == 92) }
{
    !escaped && byte == b'\\'
}

/// Appends the text without its escapes as a literal, or as it is if it has none.
fn push_text(alloc: Global, out: &mut String, quote: Quote, text: &str) -> Result<(), AllocError>
    ensures { OnOk result (string_bytes out.new ≡ string_bytes out.old ++ Spec.unescaped_text (quote_byte quote) text.now) }
{
    let unescaped = without_escapes(alloc, quote, text)?;
    if !push_literal(out, quote, unescaped.as_str())? {
        push_between(out, quote, text)?;
    }
    Ok(())
}

/// Returns the text without the backslashes before this quote.
fn without_escapes(alloc: Global, quote: Quote, text: &str) -> Result<String, AllocError>
    ensures { IfOk result (λ t. string_bytes t ≡ Spec.without_escapes (quote_byte quote) text.now) }
{
    match quote {
        Quote::Double => replace(alloc, text, "\\\"", "\""),
        Quote::Single => replace(alloc, text, "\\'", "'"),
    }
}
