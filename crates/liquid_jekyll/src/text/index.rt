//! Paths of index pages.
ghost use Rattle.std.specs.Prelude.{◌≡◌, ◌≤◌, ◌++◌, ◌∷◌, drop, length, take, string_bytes, IfNone, IfOk, IfSome};
ghost use Rattle.std.specs.Str.{byte, IsCharBoundary};
ghost use Rattle.liquid_jekyll.specs.meaning.text.Index as Spec;

use std::alloc::{AllocError, Global};

/// Returns the text with a slash in place of the first `/index.html` or `/index.htm` that ends a line.
pub fn strip_index(alloc: Global, text: &str) -> Result<String, AllocError>
    ensures { IfOk result (λ t. string_bytes t ≡ Spec.index_stripped text.now) }
{
    match index_range(text) {
        Some((start, end)) => {
            let mut stripped = String::with_capacity(alloc, text.len())?;
            stripped.push_str(&text[..start])?;
            stripped.push_str("/")?;
            stripped.push_str(&text[end..])?;
            Ok(stripped)
        }
        None => String::from_str(alloc, text),
    }
}

/// Returns where the first name of an index page that ends a line starts and ends.
fn index_range(text: &str) -> Option<(usize, usize)>
    ensures found { IfSome result (λ r. Spec.index_stripped text.now ≡ take r.0 text.now ++ byte "/" ∷ drop r.1 text.now) }
    ensures start { IfSome result (λ r. IsCharBoundary text.now r.0) }
    ensures end { IfSome result (λ r. IsCharBoundary text.now r.1) }
    ensures none { IfNone result (Spec.index_stripped text.now ≡ text.now) }
{
    let bytes = text.as_bytes();
    for at in 0..bytes.len() {
        if let Some(length) = index_length(&bytes[at..]) {
            return Some((at, at + length));
        }
    }
    None
}

/// Returns the length of the name of an index page with which a string begins, if it ends a line.
fn index_length(text: &[u8]) -> Option<usize>
    ensures value { result ≡ Spec.index_length text.now }
    ensures within { IfSome result (λ n. n ≤ length text.now) }
{
    if text.starts_with(b"/index.html") && ends_line(&text[11..]) {
        return Some(11);
    }
    if text.starts_with(b"/index.htm") && ends_line(&text[10..]) {
        return Some(10);
    }
    None
}

fn ends_line(text: &[u8]) -> bool
    ensures { result ≡ Spec.ends_line text.now }
{
    match text {
        [] => true,
        [first, ..] => *first == b'\n',
    }
}
