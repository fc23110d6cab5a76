//! Parts of a string replaced.
ghost use Rattle.std.specs.Prelude.{◌≡◌, ◌+◌, ◌≤◌, IfOk, Some, string_bytes, length};
ghost use Rattle.std.specs.Str.{IsCharBoundary};
ghost use Rattle.liquid_strings.specs.meaning.Replace.{replaced, replaced_first, replaced_last, replaced_at, with_line_ends};

use crate::parts::pieces;
use memchr::memmem;
use std::alloc::{AllocError, Global};

/// Returns the string with `by` in each place of `search`, which are taken from left to right without overlap.
///
/// An empty `search` has a place before each character and at the end.
pub fn replace(alloc: Global, text: &str, search: &str, by: &str) -> Result<String, AllocError>
    ensures { IfOk result (λ t. string_bytes t ≡ replaced search.now by.now text.now) }
{
    let pieces = pieces(alloc, text, search)?;
    pieces.join(alloc, by)
}

/// Returns the string with `by` in the first place of `search`.
pub fn replace_first(
    alloc: Global,
    text: &str,
    search: &str,
    by: &str,
) -> Result<String, AllocError>
    ensures { IfOk result (λ t. string_bytes t ≡ replaced_first search.now by.now text.now) }
{
    match memmem::find(text.as_bytes(), search.as_bytes()) {
        Some(at) => replace_at(alloc, text, at, search.len(), by),
        None => String::from_str(alloc, text),
    }
}

/// Returns the string with `by` in the last place of `search`.
pub fn replace_last(alloc: Global, text: &str, search: &str, by: &str) -> Result<String, AllocError>
    ensures { IfOk result (λ t. string_bytes t ≡ replaced_last search.now by.now text.now) }
{
    match memmem::rfind(text.as_bytes(), search.as_bytes()) {
        Some(at) => replace_at(alloc, text, at, search.len(), by),
        None => String::from_str(alloc, text),
    }
}

/// Returns the string with `by` in place of each line feed and a carriage return right before it.
pub fn replace_line_ends(alloc: Global, text: &str, by: &str) -> Result<String, AllocError>
    ensures { IfOk result (λ t. string_bytes t ≡ with_line_ends by.now text.now) }
{
    let lines = replace(alloc, text, "\r\n", "\n")?;
    replace(alloc, lines.as_str(), "\n", by)
}

/// Returns the string with `by` in place of the bytes from `at` on.
fn replace_at(
    alloc: Global,
    text: &str,
    at: usize,
    len: usize,
    by: &str,
) -> Result<String, AllocError>
    requires start { IsCharBoundary text.now at }
    requires end { IsCharBoundary text.now (at + len) }
    ensures { IfOk result (λ t. string_bytes t ≡ replaced_at len by.now text.now (Some at)) }
{
    let front = text.split_at(at).0;
    let back = text.split_at(at + len).1;
    format!(in alloc; "{front}{by}{back}")
}
