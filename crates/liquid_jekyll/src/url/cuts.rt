//! A string before and after a mark.
ghost use Rattle.std.specs.Prelude.{◌≡◌, option_map};
ghost use Rattle.liquid_jekyll.specs.meaning.url.Cuts as Spec;

use memchr::memmem;

/// Returns the text before the first place of the mark, and what follows it, if there is one.
pub(crate) fn cut<'t>(text: &'t str, mark: &str) -> (&'t str, Option<&'t str>)
    ensures { (result.0.now, option_map (λ t. t.now) result.1) ≡ Spec.cut mark.now text.now }
{
    match memmem::find(text.as_bytes(), mark.as_bytes()) {
        Some(at) => (&text[..at], Some(&text[at + mark.len()..])),
        None => (text, None),
    }
}

/// Returns the text before the last place of the mark, and what follows it, if there is one.
pub(crate) fn cut_last<'t>(text: &'t str, mark: &str) -> Option<(&'t str, &'t str)>
    ensures { option_map (λ p. (p.0.now, p.1.now)) result ≡ Spec.cut_last mark.now text.now }
{
    match memmem::rfind(text.as_bytes(), mark.as_bytes()) {
        Some(at) => Some((&text[..at], &text[at + mark.len()..])),
        None => None,
    }
}
