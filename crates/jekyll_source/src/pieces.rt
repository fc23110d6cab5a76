//! The pieces of a text.
ghost use Rattle.std.specs.Prelude.{◌≡◌, ◌≢◌, ◌<◌, ◌≤◌, [], ◌++◌, length, map, string_bytes, IfOk, OnOk};
ghost use Rattle.jekyll_source.specs.meaning.Blank.{widened, written};
ghost use Rattle.jekyll_source.specs.meaning.Pieces as Spec;
ghost use Rattle.jekyll_source.specs.meaning.Splits.{split_at};
ghost use Rattle.jekyll_source.specs.steps.Parts.{piece_view};

use crate::blank::is_white_text;
use crate::bodies::split_body;
use crate::rewriting::push_rewritten;
use crate::splits::{after_opener, split_around, split_end_dash};
use crate::tags::split_name;
use memchr::memchr;
use std::alloc::{AllocError, Global};

/// A piece of a text.
#[derive(Debug, Clone, Copy)]
pub(crate) enum Piece<'t> {
    /// Text.
    Plain(&'t str),
    /// What is between `{{` and `}}`.
    Value(&'t str),
    /// What is between `{%` and `%}`, and the body after it if no tag is read there.
    Tag(&'t str, &'t str),
}

/// Returns the piece with which a text begins, and the rest of the text.
pub(crate) fn first_piece(text: &str) -> (Piece<'_>, &str)
    requires { text.now ≢ [] }
    ensures value { (piece_view result.0, result.1.now) ≡ Spec.first_piece text.now }
    ensures shorter { length result.1.now < length text.now }
{
    match after_opener(text, b'%') {
        Some(rest) => tag_or_plain(text, rest),
        None => value_or_plain(text),
    }
}

/// Returns the tag whose `{%` is before `rest`, or all of the text if it has no end.
fn tag_or_plain<'t>(text: &'t str, rest: &'t str) -> (Piece<'t>, &'t str)
    ensures { (piece_view result.0, result.1.now) ≡ Spec.tag_or_plain text.now rest.now }
{
    match split_around(rest, "%}") {
        Some((inner, after)) => tag_piece(inner, after),
        None => (Piece::Plain(text), ""),
    }
}

/// Returns a tag with the body after it, and what follows that.
fn tag_piece<'t>(inner: &'t str, after: &'t str) -> (Piece<'t>, &'t str)
    ensures { (piece_view result.0, result.1.now) ≡ Spec.tag_taken (inner.now, after.now) }
{
    let (body, rest) = split_body(split_name(inner).0, after);
    (Piece::Tag(inner, body), rest)
}

/// Returns the value with which a text begins, or else text up to a brace.
fn value_or_plain(text: &str) -> (Piece<'_>, &str)
    requires { text.now ≢ [] }
    ensures { (piece_view result.0, result.1.now) ≡ Spec.value_or_plain text.now }
{
    match after_opener(text, b'{') {
        Some(rest) => whole_value(text, rest),
        None => plain_piece(text),
    }
}

/// Returns the value whose `{{` is before `rest`, or all of the text if it has no end.
fn whole_value<'t>(text: &'t str, rest: &'t str) -> (Piece<'t>, &'t str)
    ensures { (piece_view result.0, result.1.now) ≡ Spec.whole_value text.now rest.now }
{
    match split_around(rest, "}}") {
        Some((inner, after)) => (Piece::Value(inner), after),
        None => (Piece::Plain(text), ""),
    }
}

/// Returns the first byte and what follows it up to a brace, and the rest.
fn plain_piece(text: &str) -> (Piece<'_>, &str)
    requires { text.now ≢ [] }
    ensures { (piece_view result.0, result.1.now) ≡ Spec.plain_taken (split_at (Spec.plain_len text.now) text.now) }
{
    let (plain, rest) = text.split_at(plain_len(text.as_bytes()));
    (Piece::Plain(plain), rest)
}

/// Returns the number of bytes up to the first brace that is not the first byte.
fn plain_len(text: &[u8]) -> usize
    requires { text.now ≢ [] }
    ensures value { result ≡ Spec.plain_len text.now }
    ensures within { result ≤ length text.now }
{
    let later = &text[1..];
    match memchr(b'{', later) {
        Some(at) => 1 + at,
        None => text.len(),
    }
}

/// Returns the pieces of a text.
pub(crate) fn split_pieces(alloc: Global, text: &str) -> Result<Vec<Piece<'_>>, AllocError>
    ensures { IfOk result (λ ps. map piece_view ps.items ≡ Spec.pieces text.now) }
{
    let mut pieces = Vec::new(alloc);
    let mut rest = text;
    while !rest.is_empty() {
        let (piece, after) = first_piece(rest);
        pieces.push(piece)?;
        rest = after;
    }
    Ok(pieces)
}

/// Appends what is written for a piece, after which comes whitespace that it takes. Whitespace isn't written where it is
/// left out.
pub(crate) fn push_piece(
    alloc: Global,
    out: &mut String,
    piece: Piece<'_>,
    is_left_out: bool,
    white: &str,
) -> Result<(), AllocError>
    ensures { OnOk result (string_bytes out.new ≡ string_bytes out.old ++ written is_left_out white.now (piece_view piece.entry)) }
{
    match piece {
        Piece::Plain(text) => {
            if !(is_left_out && is_white_text(text)) {
                out.push_str(text)?;
            }
        }
        Piece::Value(inner) => {
            out.push_str("{{")?;
            out.push_str(inner)?;
            out.push_str("}}")?;
        }
        Piece::Tag(inner, body) => {
            out.push_str("{%")?;
            push_widened(alloc, out, white, inner)?;
            out.push_str("%}")?;
            out.push_str(body)?;
        }
    }
    Ok(())
}

/// Appends a tag, given what is between `{%` and `%}`, with whitespace at its end.
fn push_widened(alloc: Global, out: &mut String, white: &str, inner: &str) -> Result<(), AllocError>
    ensures { OnOk result (string_bytes out.new ≡ string_bytes out.old ++ widened white.now inner.now) }
{
    if white.is_empty() {
        return push_rewritten(alloc, out, inner);
    }
    let (before_dash, dash) = split_end_dash(inner);
    out.push_str(before_dash)?;
    out.push_str(white)?;
    out.push_str(dash)?;
    Ok(())
}
