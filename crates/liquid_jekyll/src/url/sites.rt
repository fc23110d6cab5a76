//! URLs of a site: a path after the site's own URL and the path that the site begins at.
ghost use Rattle.std.specs.Prelude.{◌≡◌, string_bytes, IfOk};
ghost use Rattle.std.specs.List.{list_all};
ghost use Rattle.liquid_jekyll.specs.meaning.url.Sites as Spec;

use crate::text::without_slash;
use crate::url::cuts::cut;
use crate::url::normal::normal_url;
use std::alloc::{AllocError, Global};

/// Returns the normal form of a string as a path of a site, after the path that the site begins at. A string with a scheme is
/// kept.
pub fn relative_url(alloc: Global, base: &str, text: &str) -> Result<String, AllocError>
    ensures { IfOk result (λ t. string_bytes t ≡ Spec.relative_url base.now text.now) }
{
    if has_scheme(text) {
        return String::from_str(alloc, text);
    }
    let base = with_slash(alloc, without_slash(base))?;
    let path = with_slash(alloc, text)?;
    let url = format!(in alloc; "{base}{path}")?;
    normal_url(alloc, url.as_str())
}

/// Returns the normal form of a string as a path of a site, after the site's own URL and the path that the site begins at.
/// A string with a scheme is kept. Without a URL of the site it is as by [`relative_url`].
pub fn absolute_url(alloc: Global, site: &str, base: &str, text: &str) -> Result<String, AllocError>
    ensures { IfOk result (λ t. string_bytes t ≡ Spec.absolute_url site.now base.now text.now) }
{
    let path = relative_url(alloc, base, text)?;
    if has_scheme(text) || site.is_empty() {
        return Ok(path);
    }
    let url = format!(in alloc; "{site}{path}")?;
    normal_url(alloc, url.as_str())
}

/// Returns `true` if the text begins with a scheme and a colon.
fn has_scheme(text: &str) -> bool
    ensures { result ≡ Spec.has_scheme text.now }
{
    match cut(text, ":") {
        (scheme, Some(_)) => names_scheme(scheme.as_bytes()),
        (_, None) => false,
    }
}

/// Returns `true` if the text is a letter, and then letters, digits and `+-.`.
fn names_scheme(text: &[u8]) -> bool
    ensures { result ≡ Spec.names_scheme text.now }
{
    match text {
        [first, rest @ ..] => first.is_ascii_alphabetic() && are_in_schemes(rest),
        [] => false,
    }
}

fn are_in_schemes(text: &[u8]) -> bool
    ensures { result ≡ list_all Spec.is_in_schemes text.now }
{
    text.iter().all(|byte| byte.is_ascii_alphanumeric() || matches!(*byte, b'+' | b'-' | b'.'))
}

/// Returns the text after a slash, unless it is empty or begins with one.
fn with_slash(alloc: Global, text: &str) -> Result<String, AllocError>
    ensures { IfOk result (λ t. string_bytes t ≡ Spec.slashed text.now) }
{
    match text.as_bytes() {
        [] | [b'/', ..] => String::from_str(alloc, text),
        _ => format!(in alloc; "/{text}"),
    }
}
