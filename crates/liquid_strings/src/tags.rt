//! HTML without its tags.
ghost use Rattle.std.specs.Prelude.{◌≡◌, ℕ, ◌+◌, ◌<◌, ◌≤◌, nat_le, None};
ghost use Rattle.std.specs.Prelude.{if◌then◌else◌, drop, length, map, option_map, string_bytes, IfOk, IfSome};
ghost use Rattle.std.specs.List.{All};
ghost use Rattle.std.specs.Str.{IsCharBoundary};
ghost use Rattle.memchr.specs.Find.{OccursAt};
ghost use Rattle.liquid_strings.specs.meaning.Tags.{first_part, part_len, stripped, without};
ghost use Rattle.liquid_strings.specs.steps.Kinds.{FitsText, kind_of};

use memchr::memmem;
use std::alloc::{AllocError, Global};

/// Parts of a string that are left out: each from an opener to the first closer after it.
#[derive(Clone, Copy)]
struct Kind<'k> {
    opener: &'k str,
    closer: &'k str,
    /// The place after the last one at which the closer begins, or 0 if there is none.
    end: usize,
}

/// Returns the string without scripts, comments and styles, and then without tags.
pub fn strip_tags(alloc: Global, text: &str) -> Result<String, AllocError>
    ensures { IfOk result (λ t. string_bytes t ≡ stripped text.now) }
{
    let script = parts_of(text, "<script", "</script>");
    let comment = parts_of(text, "<!--", "-->");
    let style = parts_of(text, "<style", "</style>");
    let without_blocks = leave_out(alloc, text, &[script, comment, style])?;
    let rest = without_blocks.as_str();
    let tag = parts_of(rest, "<", ">");
    leave_out(alloc, rest, &[tag])
}

/// Returns the parts between these strings, of a string.
fn parts_of<'k>(text: &str, opener: &'k str, closer: &'k str) -> Kind<'k>
    ensures opener { result.opener.now ≡ opener.now }
    ensures closer { result.closer.now ≡ closer.now }
    ensures end { (place : ℕ) → OccursAt text.now closer.now place → place < result.end }
{
    let end = match memmem::rfind(text.as_bytes(), closer.as_bytes()) {
        Some(last) => last + 1,
        None => 0,
    };
    Kind {
        opener,
        closer,
        end,
    }
}

/// Returns the string without its parts of these kinds, which are taken from left to right.
fn leave_out(alloc: Global, text: &str, kinds: &[Kind<'_>]) -> Result<String, AllocError>
    requires { All (FitsText text.now) kinds.now }
    ensures { IfOk result (λ t. string_bytes t ≡ without (map kind_of kinds.now) text.now) }
{
    let mut rest = String::with_capacity(alloc, text.len())?;
    let mut kept = 0;
    for at in 0..text.len() {
        if let Some(end) = end_from(text, kept, at, kinds) {
            rest.push_str(&text[kept..at])?;
            kept = end;
        }
    }
    rest.push_str(&text[kept..])?;
    Ok(rest)
}

/// Returns where the part ends that begins at this place, unless the place is in a part that is left out.
fn end_from(text: &str, kept: usize, at: usize, kinds: &[Kind<'_>]) -> Option<usize>
    requires within { at ≤ length text.now }
    requires kinds { All (FitsText text.now) kinds.now }
    ensures value { result ≡ (if nat_le kept at
        then option_map (λ n. at + n) (first_part (map kind_of kinds.now) (drop at text.now)) else None) }
    ensures start { IfSome result (λ end. IsCharBoundary text.now at) }
    ensures after { IfSome result (λ end. at < end) }
    ensures cut { IfSome result (λ end. IsCharBoundary text.now end) }
{
    if kept <= at {
        first_end(text, at, kinds)
    } else {
        None
    }
}

/// Returns where the part ends that begins at this place, by the first kind of which there is one.
fn first_end(text: &str, at: usize, kinds: &[Kind<'_>]) -> Option<usize>
    requires within { at ≤ length text.now }
    requires kinds { All (FitsText text.now) kinds.now }
    ensures value { result ≡ option_map (λ n. at + n) (first_part (map kind_of kinds.now) (drop at text.now)) }
    ensures start { IfSome result (λ end. IsCharBoundary text.now at) }
    ensures after { IfSome result (λ end. at < end) }
    ensures cut { IfSome result (λ end. IsCharBoundary text.now end) }
{
    for kind in kinds {
        if let Some(end) = part_end(text, at, kind) {
            return Some(end);
        }
    }
    None
}

/// Returns where the part of this kind ends that begins at this place.
fn part_end(text: &str, at: usize, kind: &Kind<'_>) -> Option<usize>
    requires within { at ≤ length text.now }
    requires kind { FitsText text.now kind.now }
    ensures value { result ≡ option_map (λ n. at + n) (part_len kind.now.opener.now kind.now.closer.now (drop at text.now)) }
    ensures start { IfSome result (λ end. IsCharBoundary text.now at) }
    ensures after { IfSome result (λ end. at < end) }
    ensures cut { IfSome result (λ end. IsCharBoundary text.now end) }
{
    let bytes = text.as_bytes();
    let opener = kind.opener.as_bytes();
    let closer = kind.closer.as_bytes();
    if !bytes[at..].starts_with(opener) {
        return None;
    }
    let body = at + opener.len();
    if kind.end <= body {
        return None;
    }
    let Some(place) = memmem::find(&bytes[body..], closer) else {
        return None;
    };
    Some(body + place + closer.len())
}
