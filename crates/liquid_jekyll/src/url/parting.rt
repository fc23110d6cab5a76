//! A URL in its parts.
ghost use Rattle.std.specs.Prelude.{◌≡◌, ◌≤◌, drop, length, option_map, take};
ghost use Rattle.std.specs.List.{list_all};
ghost use Rattle.liquid_jekyll.specs.meaning.url.Parting as Spec;
ghost use Rattle.liquid_jekyll.specs.meaning.url.PartsOf.{parts_of};

use crate::url::cuts::cut;

/// The parts of a URL, without the marks that part them.
#[derive(Debug, Clone, Copy)]
pub(crate) struct UrlParts<'t> {
    pub scheme: Option<&'t str>,
    pub authority: Option<&'t str>,
    pub path: &'t str,
    pub query: Option<&'t str>,
    pub fragment: Option<&'t str>,
}

/// Returns the parts of a URL by the syntax of RFC 3986, section 3.
pub(crate) fn parts_of_url(text: &str) -> UrlParts<'_>
    ensures { parts_of result ≡ Spec.parted text.now }
{
    let (text, fragment) = cut(text, "#");
    let (text, query) = cut(text, "?");
    let (scheme, text) = cut_scheme(text);
    let (authority, path) = cut_authority(text);
    UrlParts {
        scheme,
        authority,
        path,
        query,
        fragment,
    }
}

/// Returns the scheme with which a URL begins, if it has one, and what follows its colon.
fn cut_scheme(text: &str) -> (Option<&str>, &str)
    ensures { (option_map (λ t. t.now) result.0, result.1.now) ≡ Spec.cut_scheme text.now }
{
    match cut(text, ":") {
        (scheme, Some(rest)) => if is_scheme(scheme.as_bytes()) {
            (Some(scheme), rest)
        } else {
            (None, text)
        },
        (_, None) => (None, text),
    }
}

fn is_scheme(text: &[u8]) -> bool
    ensures { result ≡ Spec.is_scheme text.now }
{
    !text.is_empty() && has_no_slash(text)
}

fn has_no_slash(text: &[u8]) -> bool
    ensures { result ≡ list_all Spec.is_inside text.now }
{
    text.iter().all(|byte| *byte != b'/')
}

/// Returns the authority, if the text begins with two slashes, and the path after it.
fn cut_authority(text: &str) -> (Option<&str>, &str)
    ensures { (option_map (λ t. t.now) result.0, result.1.now) ≡ Spec.cut_authority text.now }
{
    match cut(text, "//") {
        (before, Some(rest)) => if before.is_empty() {
            let (authority, path) = split_authority(rest);
            (Some(authority), path)
        } else {
            (None, text)
        },
        (_, None) => (None, text),
    }
}

/// Splits the text before its first slash.
fn split_authority(text: &str) -> (&str, &str)
    ensures authority { result.0.now ≡ take (Spec.authority_length text.now) text.now }
    ensures path { result.1.now ≡ drop (Spec.authority_length text.now) text.now }
{
    text.split_at(authority_length(text.as_bytes()))
}

/// Returns the number of bytes before the first slash.
fn authority_length(text: &[u8]) -> usize
    ensures value { result ≡ Spec.authority_length text.now }
    ensures within { result ≤ length text.now }
{
    text.iter().take_while(|byte| **byte != b'/').count()
}
