//! Blank blocks: those that write nothing. The whitespace in such an `if`, `unless`, `for` or `case` is not written.
ghost use Rattle.std.specs.Prelude.{◌≡◌, map, reverse, IfOk, OnOk};
ghost use Rattle.jekyll_source.specs.meaning.Blank as Spec;
ghost use Rattle.jekyll_source.specs.steps.Parts.{marked_view, piece_view};

use crate::pieces::Piece;
use crate::splits::ByteSet;
use crate::tags::split_name;
use std::alloc::{AllocError, Global};

/// Returns the pieces, the last one first, each with whether it begins a block whose whitespace is left out.
pub(crate) fn mark_blank<'t>(
    alloc: Global,
    pieces: Vec<Piece<'t>>,
) -> Result<Vec<(Piece<'t>, bool)>, AllocError>
    ensures { IfOk result (λ m. map marked_view (reverse m.items) ≡ Spec.marked (map piece_view pieces.entry.items)) }
{
    let mut pieces = pieces;
    let mut marked = Vec::with_capacity(alloc, pieces.len())?;
    let mut ends = Vec::new(alloc);
    while let Some(piece) = pieces.pop() {
        let is_left_out = is_branching(name_of(piece)) && innermost(&ends);
        marked.push((piece, is_left_out))?;
        go_before(&mut ends, piece)?;
    }
    Ok(marked)
}

/// Changes what is known of the blocks that end after a piece, the innermost last, to what is known before it.
fn go_before(ends: &mut Vec<bool>, piece: Piece<'_>) -> Result<(), AllocError>
    ensures { OnOk result (reverse ends.new.items ≡ Spec.blank_before (piece_view piece.entry) (reverse ends.old.items)) }
{
    let name = name_of(piece);
    if is_end(name) {
        ends.push(true)?;
    } else if is_start(name) {
        if let Some(is_blank) = ends.pop() {
            blank_if(ends, name == "capture" || is_blank)?;
        }
    } else {
        blank_if(ends, writes_nothing(piece))?;
    }
    Ok(())
}

/// Leaves the innermost block blank only if this is so.
fn blank_if(ends: &mut Vec<bool>, so: bool) -> Result<(), AllocError>
    ensures { OnOk result (reverse ends.new.items ≡ Spec.blank_if so (reverse ends.old.items)) }
{
    if let Some(is_blank) = ends.pop() {
        ends.push(so && is_blank)?;
    }
    Ok(())
}

/// Returns what is known of the innermost block, and `false` outside of all.
pub(crate) fn innermost(blocks: &Vec<bool>) -> bool
    ensures { result ≡ Spec.innermost (reverse blocks.now.items) }
{
    match blocks.last() {
        Some(block) => *block,
        None => false,
    }
}

/// Changes the blocks that are open before a piece, the innermost last, to those that are open after it.
pub(crate) fn go_after(
    blocks: &mut Vec<bool>,
    piece: Piece<'_>,
    is_left_out: bool,
) -> Result<(), AllocError>
    ensures { OnOk result (reverse blocks.new.items ≡ Spec.open_after (piece_view piece.entry, is_left_out) (reverse blocks.old.items)) }
{
    let name = name_of(piece);
    if is_end(name) {
        let _ended = blocks.pop();
    } else if is_start(name) {
        blocks.push(is_left_out)?;
    }
    Ok(())
}

/// Returns the whitespace that a tag takes from the rest of the pieces, the last one first.
pub(crate) fn take_white<'t>(is_left_out: bool, rest: &[(Piece<'t>, bool)]) -> &'t str
    ensures { result.now ≡ Spec.taken_white is_left_out (map marked_view (reverse rest.now)) }
{
    match rest.last() {
        Some(next) if is_left_out => white_of(next.0),
        _ => "",
    }
}

/// Returns the piece if it is whitespace, and `""` otherwise.
fn white_of(piece: Piece<'_>) -> &str
    ensures { result.now ≡ Spec.white_of (piece_view piece.entry) }
{
    match piece {
        Piece::Plain(text) if is_white_text(text) => text,
        _ => "",
    }
}

pub(crate) fn is_white_text(text: &str) -> bool
    ensures { result ≡ Spec.is_white_text text.now }
{
    text.as_bytes()
        .iter()
        .all(|byte| ByteSet::White.contains(*byte))
}

/// Returns the name of a tag, and `""` for the other pieces.
fn name_of(piece: Piece<'_>) -> &str
    ensures { result.now ≡ Spec.name_of (piece_view piece.entry) }
{
    match piece {
        Piece::Plain(_) | Piece::Value(_) => "",
        Piece::Tag(inner, _) => split_name(inner).0,
    }
}

/// Returns `true` if a piece that begins and ends no block writes nothing.
fn writes_nothing(piece: Piece<'_>) -> bool
    ensures { result ≡ Spec.writes_nothing (piece_view piece.entry) }
{
    match piece {
        Piece::Plain(text) => is_white_text(text),
        Piece::Value(_) => false,
        Piece::Tag(inner, body) => {
            let name = split_name(inner).0;
            is_silent(name) || (name == "raw" && body.is_empty())
        }
    }
}

/// Returns `true` for the blocks whose whitespace is left out if they are blank.
fn is_branching(name: &str) -> bool
    ensures { result ≡ Spec.is_branching name.now }
{
    name == "if" || name == "unless" || name == "for" || name == "case"
}

/// Returns `true` for the blocks whose parts have tags.
fn is_start(name: &str) -> bool
    ensures { result ≡ Spec.is_start name.now }
{
    is_branching(name)
        || name == "capture"
        || name == "tablerow"
        || name == "ifchanged"
        || name == "highlight"
}

fn is_end(name: &str) -> bool
    ensures { result ≡ Spec.is_end name.now }
{
    match name.strip_prefix("end") {
        Some(start) => is_start(start),
        None => false,
    }
}

/// Returns `true` for the other tags that write nothing.
fn is_silent(name: &str) -> bool
    ensures { result ≡ Spec.is_silent name.now }
{
    name == "assign"
        || name == "comment"
        || name == "endcomment"
        || name == "endraw"
        || name == "else"
        || name == "elsif"
        || name == "when"
}
