//! What templates use: names, partials and dates, as they are found in their texts without rendering.
mod dates;
mod names;
mod tags;

ghost use Rattle.std.specs.Prelude.{◌≤◌, length};

use crate::uses::dates::add_date;
use crate::uses::names::add_names;
use crate::uses::tags::add_tag;
use liquid_grammar::{Element, line_and_column, next_element};
use liquid_value::Object;
use std::alloc::{AllocError, Global};
use std::collections::{BTreeMap, BTreeSet};

/// The block of Jekyll whose tokens are options, and no names.
const OPTIONED: &str = "highlight";

/// A place in a file, from 1. A column counts characters.
#[derive(Debug, Drop)]
pub struct Place {
    pub path: String,
    pub line: usize,
    pub column: usize,
}

/// What texts use.
#[derive(Drop)]
pub struct Uses {
    /// The names that are read, each with the first place where it is.
    pub names: BTreeMap<String, Place>,
    /// The names that tags give a value.
    pub bound: BTreeSet<String>,
    /// The partials that are named.
    pub partials: BTreeSet<String>,
    /// Whether the name of a partial is known only when it is rendered.
    pub has_dynamic: bool,
    /// The texts that the filter `date` can't read, each with the first place where it is.
    pub dates: BTreeMap<String, Place>,
}

/// A text, and where it is from.
#[derive(Clone, Copy)]
pub(crate) struct Origin<'t> {
    pub(crate) path: &'t str,
    pub(crate) lines_before: usize,
    pub(crate) text: &'t str,
}

impl Origin<'_> {
    /// Returns the place before the last `left` bytes of the text.
    pub(crate) fn place_before(&self, alloc: Global, left: usize) -> Result<Place, AllocError> {
        let front = self.text.len().saturating_sub(left);
        let front = self.text.get(..front).unwrap_or("");
        let (line, column) = line_and_column(front);
        Ok(Place {
            path: String::from_str(alloc, self.path)?,
            line: self.lines_before.saturating_add(line),
            column,
        })
    }
}

impl Uses {
    /// Returns no uses.
    pub fn new(alloc: Global) -> Uses {
        Uses {
            names: BTreeMap::new(alloc),
            bound: BTreeSet::new(alloc),
            partials: BTreeSet::new(alloc),
            has_dynamic: false,
            dates: BTreeMap::new(alloc),
        }
    }

    /// Adds what a text uses. `path` is that of its file, of which so many lines come before the text. A date is looked
    /// for in `data`, if its text is there.
    pub fn add(
        &mut self,
        alloc: Global,
        path: &str,
        lines_before: usize,
        text: &str,
        data: &Object,
    ) -> Result<(), AllocError> {
        let origin = Origin {
            path,
            lines_before,
            text,
        };
        let mut rest = text;
        'elements: while let Some((element, after)) = next_element(rest) {
            rest = after;
            match element {
                Element::Expression(expression) => {
                    let chain = before(expression.chain, after);
                    add_names(alloc, self, origin, chain, after.len())?;
                    add_date(alloc, self, origin, expression, after.len(), data)?;
                }
                Element::Tag(tag) => {
                    if let Some(end) = end_of(tag.name) {
                        rest = after_end(after, end);
                    } else {
                        let tokens = before(tag.tokens, after);
                        add_tag(alloc, self, tag.name, tokens)?;
                        if tag.name != OPTIONED {
                            add_names(alloc, self, origin, tokens, after.len())?;
                        }
                    }
                }
                Element::Raw(_) | Element::Invalid(_) => {}
            }
        }
        Ok(())
    }
}

/// Returns what comes before `after`, an end of the text.
fn before<'t>(text: &'t str, after: &str) -> &'t str {
    text.get(..text.len().saturating_sub(after.len()))
        .unwrap_or(text)
}

/// Returns the name of the tag that ends a block whose body is not read.
fn end_of(name: &str) -> Option<&'static str> {
    match name {
        "raw" => Some("endraw"),
        "comment" => Some("endcomment"),
        _ => None,
    }
}

/// Returns what follows the tag of this name.
fn after_end<'t>(text: &'t str, end: &str) -> &'t str
    ensures { length result.now ≤ length text.now }
{
    let mut rest = text;
    'elements: while let Some((element, after)) = next_element(rest) {
        rest = after;
        if let Element::Tag(tag) = element {
            if tag.name == end {
                return rest;
            }
        }
    }
    rest
}
