//! Front matter: what a text may begin with, between two lines that are the same mark.
ghost use Rattle.std.specs.Prelude.{◌≡◌, ◌<◌, ℕ, IfOk, IfSome, drop, length, option_map};
ghost use Rattle.liquid_value.specs.meaning.View.{members_view};
ghost use Rattle.page_site.specs.meaning.Front.{Splits};

use crate::data_files::{DataFault, Format, read_data};
use crate::yaml::read_lines;
use liquid_value::Object;
use std::alloc::{AllocError, AllocFailed, Global};

/// Why front matter can't be read.
#[derive(Debug, Drop, thiserror::Error)]
pub enum FrontFault {
    #[error("out of memory")]
    Memory,
    /// A line, from 1, is not of the form.
    #[error("line {0}: {1}")]
    Line(usize, &'static str),
    /// The text between lines `+++` is not TOML. Its lines are counted from the second of the file.
    #[error("front matter: {0}")]
    Toml(DataFault),
}

impl From<AllocError> for FrontFault {
    fn from(_refused: AllocError) -> FrontFault {
        FrontFault::Memory
    }
}

impl<T: Drop> From<AllocFailed<T>> for FrontFault {
    fn from(_refused: AllocFailed<T>) -> FrontFault {
        FrontFault::Memory
    }
}

/// A text without its front matter, and what that says.
#[derive(Drop)]
pub struct Front<'t> {
    /// The names, if the text begins with front matter.
    pub matter: Option<Object>,
    pub body: &'t str,
    /// How many lines come before the body.
    pub lines: usize,
}

/// What front matter is written in.
#[derive(Clone, Copy, Debug, Drop, PartialEq, Eq)]
enum Style {
    /// A small part of YAML, between lines `---`.
    Yaml,
    /// TOML, between lines `+++`.
    Toml,
}

/// Takes the front matter off a text that begins with a line `---` or `+++`, up to the next such line. A byte order mark is
/// skipped.
pub fn split_front_matter(alloc: Global, text: &str) -> Result<Front<'_>, FrontFault>
    ensures { IfOk result (λ front. Splits text.now (option_map (λ m. members_view m.entries) front.matter) front.body.now) }
{
    let text = without_mark(text);
    match first_line(text) {
        Some((line, rest)) => match style_of(line) {
            Some(style) => split_at_mark(alloc, style, rest),
            None => Ok(no_front(text)),
        },
        None => Ok(no_front(text)),
    }
}

fn no_front(text: &str) -> Front<'_>
    ensures { result.body.now ≡ text.now }
{
    Front {
        matter: None,
        body: text,
        lines: 0,
    }
}

/// Returns a text without a byte order mark at its start.
fn without_mark(text: &str) -> &str
    ensures { (count : ℕ) × (result.now ≡ drop count text.now) }
{
    match text.strip_prefix("\u{feff}") {
        Some(rest) => rest,
        None => text,
    }
}

/// Returns the first line of a text, and what follows it, if it has a line.
fn first_line(text: &str) -> Option<(&str, &str)>
    ensures follows { IfSome result (λ parts. (count : ℕ) × (parts.1.now ≡ drop count text.now)) }
    ensures shorter { IfSome result (λ parts. length parts.1.now < length text.now) }
{
    if text.is_empty() {
        return None;
    }
    match text.split_once('\n') {
        Some((line, rest)) => Some((line, rest)),
        None => Some((text, "")),
    }
}

/// Returns the style whose mark a line is, but for whitespace at its end.
fn style_of(line: &str) -> Option<Style> {
    match line.trim_end() {
        "---" => Some(Style::Yaml),
        "+++" => Some(Style::Toml),
        _ => None,
    }
}

/// Reads the lines up to the next mark, of which the first is the second of its file.
fn split_at_mark<'t>(alloc: Global, style: Style, text: &'t str) -> Result<Front<'t>, FrontFault>
    ensures { IfOk result (λ front. (count : ℕ) × (front.body.now ≡ drop count text.now)) }
{
    let mut lines: Vec<&'t str> = Vec::new(alloc);
    let mut left = text;
    while let Some((line, rest)) = first_line(left) {
        if style_of(line) == Some(style) {
            let matter = read_matter(alloc, style, lines.as_slice())?;
            return Ok(Front {
                matter: Some(matter),
                body: rest,
                lines: lines.len().saturating_add(2),
            });
        }
        lines.push(line)?;
        left = rest;
    }
    Err(FrontFault::Line(1, "no line ends this front matter"))
}

/// Returns the names that lines give.
fn read_matter(alloc: Global, style: Style, lines: &[&str]) -> Result<Object, FrontFault> {
    match style {
        Style::Yaml => read_lines(alloc, lines),
        Style::Toml => {
            let mut text = String::new(alloc);
            for line in lines {
                text.push_str(*line)?;
                text.push('\n')?;
            }
            match read_data(alloc, Format::Toml, "", text.as_str()) {
                Ok(names) => Ok(names),
                Err(DataFault::Memory) => Err(FrontFault::Memory),
                Err(fault) => Err(FrontFault::Toml(fault)),
            }
        }
    }
}
