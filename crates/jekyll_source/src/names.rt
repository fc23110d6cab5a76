//! The names in tags.
ghost use Rattle.std.specs.Prelude.{◌≡◌, ◌≢◌, ◌<◌, ◌≤◌, ◌&&◌, ◌++◌, if◌then◌else◌, [], false, not};
ghost use Rattle.std.specs.Prelude.{codes, length, nat_eq, option_map, slice_index, string_bytes, IfOk};
ghost use Rattle.std.specs.List.{starts_with};
ghost use Rattle.std.specs.Str.{byte};
ghost use Rattle.jekyll_source.specs.meaning.Names as Spec;
ghost use Rattle.jekyll_source.specs.meaning.Splits.{Parts, is_white, split_at};
ghost use Rattle.jekyll_source.specs.steps.Parts.{when};

use crate::literals::{Quote, push_literal};
use crate::splits::{
    ByteSet, after_opener, first_place, split_around, split_dash, split_end_dash, split_end_run,
    split_run,
};
use memchr::memmem;
use std::alloc::{AllocError, Global};

/// Returns the name with which a text begins, up to whitespace outside of `{{ }}`, and what follows it. Returns `None` if
/// a `}}` is missing.
pub(crate) fn split_name(text: &str) -> Option<(&str, &str)>
    ensures { option_map (λ p. (p.0.now, p.1.now)) result ≡ option_map (λ n. split_at n text.now) (Spec.name_len false text.now) }
{
    let bytes = text.as_bytes();
    let mut inside = false;
    for (at, byte) in bytes.iter().enumerate() {
        if ends_name(inside, *byte) {
            return Some(text.split_at(at));
        }
        inside = stays_inside(inside, &bytes[at..]);
    }
    if inside {
        None
    } else {
        Some(text.split_at(text.len()))
    }
}

/// Returns `true` if the byte is not in a name.
fn ends_name(inside: bool, byte: u8) -> bool
    ensures { result ≡ (not inside && is_white byte) }
{
    !inside && ByteSet::White.contains(byte)
}

/// Returns `true` if what is after the first of the bytes is inside of `{{ }}`.
fn stays_inside(inside: bool, bytes: &[u8]) -> bool
    ensures { result ≡ (if inside then not (starts_with nat_eq bytes.now (codes "}}")) else starts_with nat_eq bytes.now (codes "{{")) }
{
    if inside {
        !bytes.starts_with(b"}}")
    } else {
        bytes.starts_with(b"{{")
    }
}

/// Returns the name as a text literal, or if it has `{{`, its parts between `<` and `>`. Returns `None` if the name can't be
/// written so.
pub(crate) fn write_name(alloc: Global, name: &str) -> Result<Option<String>, AllocError>
    ensures { IfOk result (λ w. option_map (λ s. string_bytes s) w ≡ Spec.written_name name.now) }
{
    let mut written = String::with_capacity(alloc, name.len())?;
    let is_written = match first_place(name, "{{") {
        Some(_) => push_parts(&mut written, name)?,
        None => push_literal(&mut written, Quote::Double, name)?,
    };
    if is_written {
        Ok(Some(written))
    } else {
        Ok(None)
    }
}

/// Appends the parts of a name between `<` and `>`. Returns `false` if a part can't be written.
fn push_parts(out: &mut String, name: &str) -> Result<bool, AllocError>
    ensures { IfOk result (λ pushed. when pushed (string_bytes out.new)
        ≡ option_map (λ ps. string_bytes out.old ++ Spec.enclosed ps) (Spec.parts name.now)) }
{
    out.push_str("<")?;
    let mut rest = name;
    while !rest.is_empty() {
        match push_part(out, rest)? {
            Some(after) => rest = after,
            None => return Ok(false),
        }
    }
    out.push_str(" >")?;
    Ok(true)
}

/// Appends the first part of a name after a space: a text as a literal, or what is between `{{` and `}}`. Returns the rest
/// of the name, or `None` if the part can't be written.
fn push_part<'t>(out: &mut String, name: &'t str) -> Result<Option<&'t str>, AllocError>
    requires { name.now ≢ [] }
    ensures value { IfOk result (λ rest. option_map {U = Parts} (λ r. (string_bytes out.new, r.now)) rest
        ≡ option_map {U = Parts} (λ p. (string_bytes out.old ++ p.0, p.1)) (Spec.next_part name.now)) }
{
    out.push_str(" ")?;
    match after_opener(name, b'{') {
        Some(rest) => match split_around(rest, "}}") {
            Some((inner, after)) => {
                out.push_str(chain_of(inner))?;
                Ok(Some(after))
            }
            None => Ok(None),
        },
        None => {
            let (text, after) = split_at_open(name);
            if push_literal(out, Quote::Double, text)? {
                Ok(Some(after))
            } else {
                Ok(None)
            }
        }
    }
}

/// Returns the text before the next `{{`, and from there on.
fn split_at_open(name: &str) -> (&str, &str)
    requires { name.now ≢ [] }
    ensures { (result.0.now, result.1.now) ≡ Spec.until_open name.now }
{
    name.split_at(text_len(name.as_bytes()))
}

/// Returns the number of bytes up to the first `{{` that doesn't begin with the first byte.
fn text_len(name: &[u8]) -> usize
    requires { name.now ≢ [] }
    ensures value { result ≡ Spec.text_len name.now }
    ensures within { result ≤ length name.now }
    ensures stops { result < length name.now → slice_index name.now result ≡ byte "{" }
{
    let later = &name[1..];
    match memmem::find(later, b"{{") {
        Some(at) => 1 + at,
        None => name.len(),
    }
}

/// Returns what is between `{{` and `}}`, without a dash and blanks at its ends.
fn chain_of(inner: &str) -> &str
    ensures { result.now ≡ Spec.chain_of inner.now }
{
    let (_, after_dash) = split_dash(inner);
    let (before_dash, _) = split_end_dash(after_dash);
    let (_, after_blanks) = split_run(before_dash, ByteSet::Blank);
    split_end_run(after_blanks, ByteSet::Blank).0
}
