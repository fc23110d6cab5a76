//! Strings in URLs.
ghost use Rattle.std.specs.Prelude.{◌≡◌, option_map, string_bytes, IfOk};
ghost use Rattle.liquid_strings.specs.meaning.Url.{url_decoded, url_encoded};

use crate::replacement::replace;
use crate::utf8::text_of_bytes;
use percent_encoding::{AsciiSet, NON_ALPHANUMERIC, ascii_set, percent_decode, percent_encode};
use std::alloc::{AllocError, Global};

/// All ASCII except letters, digits, `_`, `.`, `-`, `~` and the space.
pub const ESCAPED: AsciiSet = ascii_set!(
    NON_ALPHANUMERIC
        .remove(b'_')
        .remove(b'.')
        .remove(b'-')
        .remove(b'~')
        .remove(b' ')
);

/// Returns the string as a part of a URL: ASCII letters, digits and `_.-~` are kept, a space is `+`, and each other byte
/// is `%` and two hexadecimal digits.
pub fn url_encode(alloc: Global, text: &str) -> Result<String, AllocError>
    ensures { IfOk result (λ t. string_bytes t ≡ url_encoded text.now) }
{
    let mut encoded = String::with_capacity(alloc, text.len())?;
    percent_encode(text.as_bytes(), ESCAPED).append_to(&mut encoded)?;
    replace(alloc, encoded.as_str(), " ", "+")
}

/// Returns the string of a part of a URL, or `None` if its bytes are not UTF-8. A `%` without two hexadecimal digits is
/// kept.
pub fn url_decode(alloc: Global, text: &str) -> Result<Option<String>, AllocError>
    ensures { IfOk result (λ o. option_map string_bytes o ≡ url_decoded text.now) }
{
    let spaced = replace(alloc, text, "+", " ")?;
    let mut bytes = Vec::with_capacity(alloc, spaced.len())?;
    percent_decode(spaced.as_bytes()).append_to(&mut bytes)?;
    Ok(text_of_bytes(bytes))
}
