//! Tags whose names are written without quotes.
ghost use Rattle.std.specs.Prelude.{◌≡◌, ◌++◌, option_map, string_bytes, IfOk, OnOk};
ghost use Rattle.jekyll_source.specs.meaning.Rewriting as Spec;
ghost use Rattle.jekyll_source.specs.meaning.Splits.{split_at};

use crate::names::{split_name, write_name};
use crate::parameters::push_unescaped;
use crate::tags::{push_fitted, split_tag};
use std::alloc::{AllocError, Global};

/// Appends a tag, given what is between `{%` and `%}`.
pub(crate) fn push_rewritten(alloc: Global, out: &mut String, inner: &str) -> Result<(), AllocError>
    ensures { OnOk result (string_bytes out.new ≡ string_bytes out.old ++ Spec.rewritten inner.now) }
{
    let tag = split_tag(inner);
    match new_body(alloc, tag.name, tag.body)? {
        Some(new) => push_fitted(out, &tag, new.as_str()),
        None => {
            out.push_str(inner)?;
            Ok(())
        }
    }
}

/// Returns what a tag says with the name in this engine's grammar, or `None` if nothing is to be done or can be.
fn new_body(alloc: Global, tag: &str, body: &str) -> Result<Option<String>, AllocError>
    ensures { IfOk result (λ new. option_map (λ s. string_bytes s) new ≡ Spec.new_body tag.now body.now) }
{
    if !has_name(tag, body) {
        return Ok(None);
    }
    let Some((name, rest)) = name_and_rest(tag, body) else {
        return Ok(None);
    };
    match write_name(alloc, name)? {
        Some(mut written) => {
            push_rest(alloc, &mut written, tag, rest)?;
            Ok(Some(written))
        }
        None => Ok(None),
    }
}

/// Returns the name in what a tag says, which is all of it for `link`, and what follows it.
fn name_and_rest<'t>(tag: &str, body: &'t str) -> Option<(&'t str, &'t str)>
    ensures { option_map (λ p. (p.0.now, p.1.now)) result ≡ option_map (λ n. split_at n body.now) (Spec.name_len_of tag.now body.now) }
{
    if tag == "link" {
        Some(body.split_at(body.len()))
    } else {
        split_name(body)
    }
}

/// Appends what follows the name.
fn push_rest(alloc: Global, out: &mut String, tag: &str, rest: &str) -> Result<(), AllocError>
    ensures { OnOk result (string_bytes out.new ≡ string_bytes out.old ++ Spec.written_rest tag.now rest.now) }
{
    if is_inclusion(tag) {
        push_unescaped(alloc, out, rest)?;
    } else {
        out.push_str(rest)?;
    }
    Ok(())
}

fn is_inclusion(tag: &str) -> bool
    ensures { result ≡ Spec.is_inclusion tag.now }
{
    tag == "include" || tag == "include_relative" || tag == "include_cached"
}

/// Returns `true` if the tag begins with a name that is neither a text literal nor a list of parts.
fn has_name(tag: &str, body: &str) -> bool
    ensures { result ≡ Spec.has_name tag.now body.now }
{
    takes_name(tag) && begins_name(body)
}

/// Returns `true` for the tags that begin with a name.
fn takes_name(tag: &str) -> bool
    ensures { result ≡ Spec.takes_name tag.now }
{
    is_inclusion(tag) || tag == "link" || tag == "post_url" || tag == "highlight"
}

/// Returns `true` if a name is there that is neither a text literal nor a list of parts.
fn begins_name(body: &str) -> bool
    ensures { result ≡ Spec.begins_name body.now }
{
    match body.as_bytes() {
        [] => false,
        [first, ..] => !(*first == b'"' || *first == b'\'' || *first == b'<'),
    }
}
