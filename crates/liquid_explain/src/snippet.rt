//! The line of a place, with a mark under it.

use crate::narrow::Span;
use std::alloc::{AllocError, Global};

/// How many characters of a line are shown before the place.
const BEFORE: usize = 60;
/// How many characters of a line are shown.
const WIDTH: usize = 100;

/// A part of a text that is marked, and the number of its line.
#[derive(Clone, Copy, Debug, PartialEq, Eq)]
pub struct Mark {
    pub span: Span,
    pub line: usize,
}

/// The part of a line that is shown.
#[derive(Drop)]
struct Shown {
    line: String,
    /// Blanks and marks, one for each character of the line.
    under: String,
    width: usize,
    is_cut: bool,
}

/// Writes the line of a mark, and a line that marks it, with a label. A tab stays one in both lines, another control
/// character is written as `?`, and a long line is cut.
pub fn write_snippet(
    alloc: Global,
    out: &mut String,
    text: &str,
    mark: Mark,
    label: &str,
) -> Result<(), AllocError> {
    let (front, rest) = text.split_at_checked(mark.span.place).unwrap_or((text, ""));
    let front = last_line(front);
    let rest = first_line(rest);
    let (marked, rest) = rest
        .split_at_checked(mark.span.length)
        .unwrap_or((rest, ""));
    let hidden = front.chars().count().saturating_sub(BEFORE);
    let gutter = format!(in alloc; "{} | ", mark.line)?;
    let mut shown = Shown {
        line: String::new(alloc),
        under: String::new(alloc),
        width: 0,
        is_cut: false,
    };
    if hidden > 0 {
        shown.line.push_str("..")?;
        shown.under.push_str("  ")?;
    }
    for character in front.chars().skip(hidden) {
        shown.push(character, ' ')?;
    }
    for character in marked.chars() {
        shown.push(character, '^')?;
    }
    let has_marks = !marked.is_empty();
    for character in rest.chars() {
        shown.push_unmarked(character)?;
    }
    if !has_marks {
        shown.under.push('^')?;
    }
    write_lines(out, gutter.as_str(), &shown, label)
}

fn write_lines(
    out: &mut String,
    gutter: &str,
    shown: &Shown,
    label: &str,
) -> Result<(), AllocError> {
    out.push_str(gutter)?;
    out.push_str(shown.line.as_str())?;
    out.push_str(if shown.is_cut { "..\n" } else { "\n" })?;
    for character in gutter.chars() {
        out.push(if character == '|' { '|' } else { ' ' })?;
    }
    out.push_str(shown.under.as_str())?;
    if !label.is_empty() {
        out.push(' ')?;
        out.push_str(label)?;
    }
    out.push('\n')
}

impl Shown {
    /// Adds a character with what is under it, if there is room.
    fn push(&mut self, character: char, under: char) -> Result<(), AllocError> {
        if self.width < WIDTH {
            self.under
                .push(if character == '\t' { '\t' } else { under })?;
        }
        self.push_unmarked(character)
    }

    fn push_unmarked(&mut self, character: char) -> Result<(), AllocError> {
        if self.width < WIDTH {
            self.width += 1;
            self.line.push(visible(character))
        } else {
            self.is_cut = true;
            Ok(())
        }
    }
}

/// Returns the character, or `?` for a control character that is not a tab.
fn visible(character: char) -> char {
    if character != '\t' && character.is_control() {
        '?'
    } else {
        character
    }
}

/// Returns what comes after the last line feed.
fn last_line(text: &str) -> &str {
    match text.rsplit_once("\n") {
        Some((_, line)) => line,
        None => text,
    }
}

/// Returns what comes before the first line feed, without a carriage return before that.
fn first_line(text: &str) -> &str {
    let line = match text.split_once("\n") {
        Some((line, _)) => line,
        None => text,
    };
    line.strip_suffix("\r").unwrap_or(line)
}
