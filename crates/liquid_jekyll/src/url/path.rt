//! Paths of URLs in their normal form.
ghost use Rattle.std.specs.Prelude.{◌≡◌, ◌||◌, [], fold, map, string_bytes, IfOk, OnOk};
ghost use Rattle.liquid_jekyll.specs.meaning.url.Parts.{cleaned};
ghost use Rattle.liquid_jekyll.specs.meaning.url.Path as Spec;

use crate::text::strip_spaces;
use crate::url::parts::{UrlPart, clean};
use liquid_strings::pieces;
use std::alloc::{AllocError, Global};

/// Returns the path in its normal form: without whitespace at its ends, with clean segments, and, if it begins with a
/// slash, without the segments `.` and `..`. The second one takes the segment before it along.
pub(crate) fn normal_path(alloc: Global, path: &str) -> Result<String, AllocError>
    ensures { IfOk result (λ t. string_bytes t ≡ Spec.normal_path path.now) }
{
    let segments = pieces(alloc, strip_spaces(path), "/")?;
    let segments = clean_all(alloc, segments.as_slice(), UrlPart::Segment)?;
    path_of(alloc, segments.as_slice())
}

/// Returns each piece as a clean part of a URL.
pub(crate) fn clean_all(
    alloc: Global,
    pieces: &[&str],
    part: UrlPart,
) -> Result<Vec<String>, AllocError>
    ensures { IfOk result (λ v. map (λ s. string_bytes s) v.items ≡ map (cleaned part) (map (λ p. p.now) pieces.now)) }
{
    let mut all = Vec::with_capacity(alloc, pieces.len())?;
    for piece in pieces {
        all.push(clean(alloc, *piece, part)?)?;
    }
    Ok(all)
}

/// Returns the path of these segments. If the first one is empty, the path begins at the root.
fn path_of(alloc: Global, segments: &[String]) -> Result<String, AllocError>
    ensures { IfOk result (λ t. string_bytes t ≡ Spec.path_of (map (λ s. string_bytes s) segments.now)) }
{
    match segments {
        [first, rest @ ..] => if first.as_str().is_empty() {
            join_segments(alloc, rest)
        } else {
            segments.join(alloc, "/")
        },
        [] => Ok(String::new(alloc)),
    }
}

/// Returns the path of these segments after the root, without dots.
fn join_segments(alloc: Global, segments: &[String]) -> Result<String, AllocError>
    ensures { IfOk result (λ t. string_bytes t ≡ Spec.rooted (map (λ s. string_bytes s) segments.now)) }
{
    let mut path = String::new(alloc);
    let kept = without_dots(alloc, segments)?;
    for segment in kept.as_slice() {
        path.push_str("/")?;
        path.push_str(*segment)?;
    }
    if ends_in_dots(segments) {
        path.push_str("/")?;
    }
    Ok(path)
}

/// Returns the segments that stay when each `.` goes, and each `..` with the segment before it.
fn without_dots<'s>(alloc: Global, segments: &'s [String]) -> Result<Vec<&'s str>, AllocError>
    ensures { IfOk result (λ v. map (λ s. s.now) v.items ≡ fold Spec.step [] (map (λ s. string_bytes s) segments.now)) }
{
    let mut kept = Vec::new(alloc);
    for segment in segments {
        step(&mut kept, segment.as_str())?;
    }
    Ok(kept)
}

/// Adds a segment, unless it is `.`, or takes the last one away, if it is `..`.
fn step<'s>(kept: &mut Vec<&'s str>, segment: &'s str) -> Result<(), AllocError>
    ensures { OnOk result (map (λ s. s.now) kept.new.items ≡ Spec.step (map (λ s. s.now) kept.old.items) segment.now) }
{
    if segment == "." {
        return Ok(());
    }
    if segment == ".." {
        kept.pop();
        return Ok(());
    }
    Ok(kept.push(segment)?)
}

/// Returns `true` if the last segment is `.` or `..`.
fn ends_in_dots(segments: &[String]) -> bool
    ensures { result ≡ Spec.ends_in_dots (map (λ s. string_bytes s) segments.now) }
{
    match segments.last() {
        Some(last) => is_dots(last.as_str()),
        None => false,
    }
}

fn is_dots(segment: &str) -> bool
    ensures { result ≡ (Spec.is_dot segment.now || Spec.is_parent segment.now) }
{
    segment == "." || segment == ".."
}
