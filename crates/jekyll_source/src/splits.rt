//! Splitting texts.
ghost use Rattle.std.specs.Prelude.{◌≡◌, ◌<◌, ◌≤◌, ◌+◌, length, option_map, IfSome};
ghost use Rattle.memchr.specs.Find.{first_of, matches};
ghost use Rattle.std.specs.List.{prefix_len, suffix_len};
ghost use Rattle.std.specs.Str.{IsCharBoundary};
ghost use Rattle.jekyll_source.specs.meaning.Splits as Spec;
ghost use Rattle.jekyll_source.specs.steps.Parts.{contains};

use memchr::memmem;

/// A set of bytes. All are ASCII.
#[derive(Debug, Clone, Copy, PartialEq, Eq)]
pub(crate) enum ByteSet {
    /// Space, tab, line feed, vertical tab, form feed and carriage return.
    White,
    /// Space and tab.
    Blank,
    /// Letters, digits and `_`.
    Word,
}

impl ByteSet {
    pub(crate) fn contains(self, byte: u8) -> bool
        ensures { result ≡ contains self byte }
    {
        match self {
            ByteSet::White => byte == b' ' || (9 <= byte && byte < 14),
            ByteSet::Blank => byte == b' ' || byte == b'\t',
            ByteSet::Word => byte.is_ascii_alphabetic() || byte.is_ascii_digit() || byte == b'_',
        }
    }
}

/// Returns what is at the start, as far as it is of the set, and the rest.
pub(crate) fn split_run(text: &str, set: ByteSet) -> (&str, &str)
    ensures { (result.0.now, result.1.now) ≡ Spec.split_run (contains set) text.now }
{
    text.split_at(run_len(text, set))
}

/// Returns the number of bytes of the set at the start.
pub(crate) fn run_len(text: &str, set: ByteSet) -> usize
    ensures value { result ≡ prefix_len (contains set) text.now }
    ensures within { result ≤ length text.now }
{
    text.as_bytes()
        .iter()
        .take_while(|byte| set.contains(**byte))
        .count()
}

/// Returns the text without what is at its end, as far as that is of the set, and that.
pub(crate) fn split_end_run(text: &str, set: ByteSet) -> (&str, &str)
    ensures { (result.0.now, result.1.now) ≡ Spec.split_end_run (contains set) text.now }
{
    text.split_at(text.len() - end_run_len(text, set))
}

/// Returns the number of bytes of the set at the end.
pub(crate) fn end_run_len(text: &str, set: ByteSet) -> usize
    ensures value { result ≡ suffix_len (contains set) text.now }
    ensures within { result ≤ length text.now }
{
    text.as_bytes()
        .iter()
        .rev()
        .take_while(|byte| set.contains(**byte))
        .count()
}

/// Returns a dash at the start, if there is one, and the rest.
pub(crate) fn split_dash(text: &str) -> (&str, &str)
    ensures { (result.0.now, result.1.now) ≡ Spec.split_dash text.now }
{
    text.split_at(dash_len(text.as_bytes()))
}

/// Returns the text without a dash at its end, if there is one, and that dash.
pub(crate) fn split_end_dash(text: &str) -> (&str, &str)
    ensures { (result.0.now, result.1.now) ≡ Spec.split_end_dash text.now }
{
    text.split_at(text.len() - end_dash_len(text.as_bytes()))
}

fn dash_len(bytes: &[u8]) -> usize
    ensures value { result ≡ Spec.dash_len bytes.now }
    ensures within { result ≤ length bytes.now }
{
    if !bytes.is_empty() && bytes[0] == b'-' {
        1
    } else {
        0
    }
}

fn end_dash_len(bytes: &[u8]) -> usize
    ensures value { result ≡ Spec.end_dash_len bytes.now }
    ensures within { result ≤ length bytes.now }
{
    if !bytes.is_empty() && bytes[bytes.len() - 1] == b'-' {
        1
    } else {
        0
    }
}

/// Returns what follows `{` and that byte, if the text begins with them.
pub(crate) fn after_opener(text: &str, kind: u8) -> Option<&str>
    requires { kind < 128 }
    ensures value { option_map (λ rest. rest.now) result ≡ Spec.after_opener kind text.now }
    ensures shorter { IfSome result (λ rest. length rest.now + 2 ≡ length text.now) }
{
    match text.as_bytes() {
        [b'{', second, ..] if *second == kind => Some(&text[2..]),
        _ => None,
    }
}

/// Returns the text before the first place of `search`, and after it.
pub(crate) fn split_around<'t>(text: &'t str, search: &str) -> Option<(&'t str, &'t str)>
    requires { 0 < length search.now }
    ensures value { option_map (λ p. (p.0.now, p.1.now)) result ≡ Spec.split_around search.now text.now }
    ensures shorter { IfSome result (λ p. length p.1.now < length text.now) }
{
    let at = first_place(text, search)?;
    Some((&text[..at], &text[at + search.len()..]))
}

/// Returns the first place of `search`.
pub(crate) fn first_place(text: &str, search: &str) -> Option<usize>
    requires { 0 < length search.now }
    ensures value { result ≡ first_of (matches text.now search.now 0) }
    ensures within { IfSome result (λ at. at + length search.now ≤ length text.now) }
    ensures start { IfSome result (λ at. IsCharBoundary text.now at) }
    ensures end { IfSome result (λ at. IsCharBoundary text.now (at + length search.now)) }
{
    memmem::find(text.as_bytes(), search.as_bytes())
}
