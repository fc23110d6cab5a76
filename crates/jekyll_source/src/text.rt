//! Texts as Jekyll's authors write them.
ghost use Rattle.std.specs.Prelude.{◌≡◌, [], map, reverse, string_bytes, IfOk};
ghost use Rattle.jekyll_source.specs.meaning.Blank.{written_in};
ghost use Rattle.jekyll_source.specs.meaning.Pieces as Spec;
ghost use Rattle.jekyll_source.specs.steps.Parts.{marked_view};

use crate::blank::{go_after, innermost, mark_blank, take_white};
use crate::pieces::{Piece, push_piece, split_pieces};
use std::alloc::{AllocError, Global};

/// Returns the text with its tags in this engine's grammar.
///
/// Jekyll's authors write the names in the tags `include`, `include_relative`, `include_cached`, `link`, `post_url` and
/// `highlight` without quotes. Each becomes a text literal, as `{% include "a/b.html" %}`, or if it has values in it, a list
/// of parts, as `{% include < "a/" page.kind ".html" > %}`. A name is what is up to whitespace outside of `{{ }}`, and for
/// `link` all that the tag says. After the name of an inclusion, a backslash before the quote that a text is in is left out,
/// and the text becomes a literal in the other quote. What is in quotes or begins with `<` stays, and so does what no literal
/// can hold. The bodies of `raw` and `comment` stay too.
///
/// A tag that becomes longer takes the blanks before its `%}` and after its `{%`, and one that becomes shorter gets spaces.
/// So each line stays where it is.
///
/// An `if`, `unless`, `for` or `case` that writes nothing doesn't write its whitespace either: in each, the whitespace
/// that follows a tag moves to before the `%}` of that tag. An `Err` means out of memory.
pub fn jekyll_text(alloc: Global, text: &str) -> Result<String, AllocError>
    ensures { IfOk result (λ t. string_bytes t ≡ Spec.jekyll_text text.now) }
{
    let pieces = split_pieces(alloc, text)?;
    let marked = mark_blank(alloc, pieces)?;
    write_marked(alloc, text.len(), marked)
}

/// Returns what is written for pieces, of which the last one is first, with that much room.
fn write_marked(
    alloc: Global,
    room: usize,
    marked: Vec<(Piece<'_>, bool)>,
) -> Result<String, AllocError>
    ensures { IfOk result (λ t. string_bytes t ≡ written_in [] (map marked_view (reverse marked.entry.items))) }
{
    let mut marked = marked;
    let mut blocks = Vec::new(alloc);
    let mut out = String::with_capacity(alloc, room)?;
    while let Some((piece, begins_blank)) = marked.pop() {
        let is_left_out = innermost(&blocks);
        go_after(&mut blocks, piece, begins_blank)?;
        let white = take_white(innermost(&blocks), marked.as_slice());
        push_piece(alloc, &mut out, piece, is_left_out, white)?;
    }
    Ok(out)
}
