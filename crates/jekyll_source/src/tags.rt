//! The parts of a tag.
ghost use Rattle.std.specs.Prelude.{◌≡◌, ◌++◌, ◌-◌, ◌≤◌, length, min, replicate, string_bytes, OnOk};
ghost use Rattle.std.specs.Str.{byte};
ghost use Rattle.jekyll_source.specs.meaning.Tags as Spec;
ghost use Rattle.jekyll_source.specs.steps.Parts.{tag_view};

use crate::splits::{
    ByteSet, end_run_len, run_len, split_dash, split_end_dash, split_end_run, split_run,
};
use std::alloc::AllocError;

/// The parts of what is between `{%` and `%}`.
#[derive(Debug, Clone, Copy)]
pub(crate) struct TagParts<'t> {
    pub(crate) dash: &'t str,
    pub(crate) lead: &'t str,
    pub(crate) name: &'t str,
    pub(crate) gap: &'t str,
    pub(crate) body: &'t str,
    pub(crate) tail: &'t str,
    pub(crate) end_dash: &'t str,
}

/// Returns the name of the tag that begins here, and what follows it, in what follows `{%`.
pub(crate) fn split_name(text: &str) -> (&str, &str)
    ensures { (result.0.now, result.1.now) ≡ Spec.named text.now }
{
    let (_, after_dash) = split_dash(text);
    let (_, after_lead) = split_run(after_dash, ByteSet::White);
    split_run(after_lead, ByteSet::Word)
}

/// Returns the parts of what is between `{%` and `%}`.
pub(crate) fn split_tag(inner: &str) -> TagParts<'_>
    ensures { tag_view result ≡ Spec.tag_of inner.now }
{
    let (dash, after_dash) = split_dash(inner);
    let (lead, after_lead) = split_run(after_dash, ByteSet::White);
    let (name, after_name) = split_run(after_lead, ByteSet::Word);
    let (gap, from_body) = split_run(after_name, ByteSet::White);
    let (before_dash, end_dash) = split_end_dash(from_body);
    let (body, tail) = split_end_run(before_dash, ByteSet::White);
    TagParts {
        dash,
        lead,
        name,
        gap,
        body,
        tail,
        end_dash,
    }
}

/// Appends the tag with something else for what it says. Blanks before `%}` and behind `{%` make room for what is longer.
pub(crate) fn push_fitted(out: &mut String, tag: &TagParts<'_>, new: &str) -> Result<(), AllocError>
    ensures { OnOk result (string_bytes out.new ≡ string_bytes out.old ++ Spec.fitted (tag_view tag.now) new.now) }
{
    let grown = new.len().saturating_sub(tag.body.len());
    let tail = shorten_end(tag.tail, grown);
    let lead = shorten_start(tag.lead, grown.saturating_sub(tag.tail.len() - tail.len()));
    out.push_str(tag.dash)?;
    out.push_str(lead)?;
    out.push_str(tag.name)?;
    out.push_str(tag.gap)?;
    out.push_str(new)?;
    out.push_str(tail)?;
    push_spaces(out, tag.body.len().saturating_sub(new.len()))?;
    out.push_str(tag.end_dash)?;
    Ok(())
}

/// Returns the text without that many blanks at its start, if it has so many.
fn shorten_start(text: &str, count: usize) -> &str
    ensures { result.now ≡ Spec.shorter_start count text.now }
{
    let kept = count.min(run_len(text, ByteSet::Blank));
    text.split_at(kept).1
}

/// Returns the text without that many blanks at its end, if it has so many.
fn shorten_end(text: &str, count: usize) -> &str
    ensures value { result.now ≡ Spec.shorter_end count text.now }
    ensures within { length result.now ≤ length text.now }
{
    let dropped = count.min(end_run_len(text, ByteSet::Blank));
    text.split_at(text.len() - dropped).0
}

fn push_spaces(out: &mut String, count: usize) -> Result<(), AllocError>
    ensures { OnOk result (string_bytes out.new ≡ string_bytes out.old ++ replicate count (byte " ")) }
{
    for _index in 0..count {
        out.push_str(" ")?;
    }
    Ok(())
}
