//! The bodies of `raw` and `comment`, in which no tag is read.
ghost use Rattle.std.specs.Prelude.{◌≡◌, ◌<◌, ◌≤◌, ◌+◌, ◌^◌, bytes_eq, false, length, IfSome};
ghost use Rattle.std.specs.Option.{option_map_or};
ghost use Rattle.jekyll_source.specs.meaning.Bodies as Spec;
ghost use Rattle.jekyll_source.specs.meaning.Splits.{split_at};
ghost use Rattle.jekyll_source.specs.steps.Parts.{shown};

use crate::splits::{ByteSet, after_opener, split_dash, split_run};
use crate::tags::split_name;

/// Returns the body that follows a tag of this name, and what follows that.
pub(crate) fn split_body<'t>(name: &str, text: &'t str) -> (&'t str, &'t str)
    ensures { (result.0.now, result.1.now) ≡ Spec.split_body name.now text.now }
{
    match name {
        "raw" => split_at_end(None, "endraw", text),
        "comment" => split_at_end(Some("comment"), "endcomment", text),
        _ => ("", text),
    }
}

/// Returns the text up to the tag that ends it, and from there on. A start inside, if starts nest, has its own end.
fn split_at_end<'t>(start: Option<&str>, end: &str, text: &'t str) -> (&'t str, &'t str)
    ensures { (result.0.now, result.1.now) ≡ split_at (Spec.body_len (shown start.entry) end.now 0 text.now) text.now }
{
    let mut level = 0;
    for at in 0..text.len() {
        if text.as_bytes()[at] == b'{' {
            match level_after(start, end, level, &text[at..]) {
                Some(next) => level = next,
                None => return text.split_at(at),
            }
        }
    }
    text.split_at(text.len())
}

/// Returns how many starts are without their ends after a tag or a brace, or `None` where the body ends.
fn level_after(start: Option<&str>, end: &str, level: usize, text: &str) -> Option<usize>
    requires { level < 2 ^ 63 }
    ensures value { result ≡ Spec.level_after (shown start.entry) end.now level text.now }
    ensures within { IfSome result (λ next. next ≤ level + 1) }
{
    let Some(rest) = after_opener(text, b'%') else {
        return Some(level);
    };
    let (name, after) = split_name(rest);
    if name == end && closes(after) {
        level.checked_sub(1)
    } else if is_start(start, name) {
        Some(level + 1)
    } else {
        Some(level)
    }
}

fn is_start(start: Option<&str>, name: &str) -> bool
    ensures { result ≡ option_map_or (λ s. bytes_eq name.now s) (shown start.entry) false }
{
    match start {
        Some(start) => name == start,
        None => false,
    }
}

/// Returns `true` if nothing but whitespace and perhaps a dash is before `%}`.
fn closes(text: &str) -> bool
    ensures { result ≡ Spec.closes text.now }
{
    let (_, after_white) = split_run(text, ByteSet::White);
    split_dash(after_white).1.as_bytes().starts_with(b"%}")
}
