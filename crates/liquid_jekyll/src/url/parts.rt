//! Parts of URLs, in which each byte is written in one way.
ghost use Rattle.std.specs.Prelude.{◌≡◌, string_bytes, IfOk};
ghost use Rattle.percent_encoding.specs.Percent.{percent_encode};
ghost use Rattle.liquid_jekyll.specs.meaning.url.Parts as Spec;

use percent_encoding::{AsciiSet, NON_ALPHANUMERIC, ascii_set, percent_decode, percent_encode};
use std::alloc::{AllocError, Global};
use unicode_normalization::to_nfkc;

/// A part of a URL, by which characters mean themselves there.
#[derive(Debug, Clone, Copy, PartialEq, Eq)]
pub enum UrlPart {
    /// All of a URL: letters and digits of ASCII, and `-._~!$&'()*+,;=:@/?#[]`.
    Whole,
    /// A segment of a path: the same but `/?#[]`.
    Segment,
    /// A field of a query: those of a segment but `&;`, and `/?`.
    Field,
    /// A fragment: those of a segment, and `/?`.
    Fragment,
}

/// What is escaped in a segment of a path.
const OUTSIDE_SEGMENTS: AsciiSet = ascii_set!(
    NON_ALPHANUMERIC
        .remove(b'-')
        .remove(b'.')
        .remove(b'_')
        .remove(b'~')
        .remove(b'!')
        .remove(b'$')
        .remove(b'&')
        .remove(b'\'')
        .remove(b'(')
        .remove(b')')
        .remove(b'*')
        .remove(b'+')
        .remove(b',')
        .remove(b';')
        .remove(b'=')
        .remove(b':')
        .remove(b'@')
);

/// What is escaped in a fragment.
const OUTSIDE_FRAGMENTS: AsciiSet = ascii_set!(OUTSIDE_SEGMENTS.remove(b'/').remove(b'?'));

/// What is escaped in a field of a query.
const OUTSIDE_FIELDS: AsciiSet = ascii_set!(OUTSIDE_FRAGMENTS.add(b'&').add(b';'));

/// What is escaped in a URL.
const OUTSIDE_URLS: AsciiSet = ascii_set!(OUTSIDE_FRAGMENTS.remove(b'#').remove(b'[').remove(b']'));

/// Returns the text as that part of a URL, in one spelling: each escape is read as its byte, the text that the bytes are
/// is put into the normal form NFKC, and each byte that doesn't mean itself in the part is escaped, by `%` and two
/// hexadecimal digits in upper case.
///
/// Bytes that are not a string stay as they are, except for those that don't mean themselves in any part of a URL.
pub fn clean(alloc: Global, text: &str, part: UrlPart) -> Result<String, AllocError>
    ensures { IfOk result (λ t. string_bytes t ≡ Spec.cleaned part text.now) }
{
    let mut bytes = Vec::with_capacity(alloc, text.len())?;
    percent_decode(text.as_bytes()).append_to(&mut bytes)?;
    clean_bytes(alloc, bytes.as_slice(), part)
}

fn clean_bytes(alloc: Global, bytes: &[u8], part: UrlPart) -> Result<String, AllocError>
    ensures { IfOk result (λ t. string_bytes t ≡ Spec.cleaned_bytes part bytes.now) }
{
    match str::from_utf8(bytes) {
        Ok(text) => {
            let normal = to_nfkc(alloc, text)?;
            escape(alloc, normal.as_bytes(), part)
        }
        Err(_) => escape(alloc, bytes, UrlPart::Whole),
    }
}

/// Returns the bytes with an escape of each one that doesn't mean itself in the part.
fn escape(alloc: Global, bytes: &[u8], part: UrlPart) -> Result<String, AllocError>
    ensures { IfOk result (λ t. string_bytes t ≡ Spec.escaped part bytes.now) }
{
    match part {
        UrlPart::Whole => escape_set(alloc, bytes, OUTSIDE_URLS),
        UrlPart::Segment => escape_set(alloc, bytes, OUTSIDE_SEGMENTS),
        UrlPart::Field => escape_set(alloc, bytes, OUTSIDE_FIELDS),
        UrlPart::Fragment => escape_set(alloc, bytes, OUTSIDE_FRAGMENTS),
    }
}

fn escape_set(alloc: Global, bytes: &[u8], set: AsciiSet) -> Result<String, AllocError>
    ensures { IfOk result (λ t. string_bytes t ≡ percent_encode set bytes.now) }
{
    let mut escaped = String::with_capacity(alloc, bytes.len())?;
    percent_encode(bytes, set).append_to(&mut escaped)?;
    Ok(escaped)
}
