//! Slugs: texts as parts of a URL that people read.
ghost use Rattle.std.specs.Prelude.{◌≡◌, string_bytes, IfOk};
ghost use Rattle.liquid_jekyll.specs.meaning.text.Slugs as Spec;

use crate::text::character_sets::CharacterSet;
use crate::text::latin::in_ascii;
use crate::text::runs::{with_runs_as, without_ends};
use liquid_strings::to_lowercase;
use std::alloc::{AllocError, Global};

/// Which characters a slug keeps.
#[derive(Debug, Clone, Copy, PartialEq, Eq)]
pub enum SlugMode {
    /// All but whitespace.
    Raw,
    /// Letters, marks and decimal digits.
    Default,
    /// These, and `._~!$&'()+,;=@`.
    Pretty,
    /// Letters and digits of ASCII.
    Ascii,
    /// Letters and digits of ASCII, after Latin letters have become letters of ASCII.
    Latin,
}

/// Returns the slug of a string: a hyphen in place of each run of other characters, none at the ends, in lower case.
///
/// Of hyphens that the text has at its ends itself, and that the mode keeps, one goes at each end.
pub fn slugify(alloc: Global, text: &str, mode: SlugMode) -> Result<String, AllocError>
    ensures { IfOk result (λ t. string_bytes t ≡ Spec.slug mode text.now) }
{
    match mode {
        SlugMode::Latin => {
            let text = in_ascii(alloc, text)?;
            slug_of(alloc, text.as_str(), mode)
        }
        _ => slug_of(alloc, text, mode),
    }
}

fn slug_of(alloc: Global, text: &str, mode: SlugMode) -> Result<String, AllocError>
    ensures { IfOk result (λ t. string_bytes t ≡ Spec.slug_of mode text.now) }
{
    let hyphened = with_runs_as(alloc, text, separators(mode), '-')?;
    to_lowercase(alloc, without_ends(hyphened.as_str(), b'-'))
}

fn separators(mode: SlugMode) -> CharacterSet
    ensures { result ≡ Spec.separators mode }
{
    match mode {
        SlugMode::Raw => CharacterSet::WhiteSpace,
        SlugMode::Default => CharacterSet::BetweenWords,
        SlugMode::Pretty => CharacterSet::BetweenPretty,
        SlugMode::Ascii | SlugMode::Latin => CharacterSet::BetweenAscii,
    }
}
