//! Where an error of rendering is, in the texts of its page.
ghost use Rattle.std.specs.Prelude.{◌≡◌};

use crate::page::{Outcome, PARTIAL_TEXT, Page, TEMPLATE};
use liquid_core::{Error, Place};
use liquid_error::Spot;
use liquid_grammar::line_and_column;
use liquid_pages::PartialBytes;
use std::str::from_utf8;

/// A position in a text of a page.
#[derive(Clone, Copy)]
struct Position<'p> {
    which: u32,
    partial: usize,
    text: &'p [u8],
    spot: Spot,
}

/// Writes to the outcome where an error of rendering is: in which text of the page, and at which place. It stays as it is
/// if that is not known.
pub(crate) fn locate(error: &Error, page: &Page<'_>, outcome: Outcome) -> Outcome
    ensures kind { result.kind ≡ outcome.kind }
    ensures limit { result.limit ≡ outcome.limit }
{
    let Some(position) = innermost(error, page) else {
        return outcome;
    };
    let Some(Place { line, column }) = place_in(position.text, position.spot) else {
        return outcome;
    };
    Outcome {
        which: position.which,
        partial: position.partial,
        line,
        column,
        ..outcome
    }
}

/// Returns the innermost position of an error: in the partial that it is in, or else in the template.
fn innermost<'p>(error: &Error, page: &Page<'p>) -> Option<Position<'p>> {
    let [site, ..] = error.sites() else {
        return Some(Position {
            which: TEMPLATE,
            partial: 0,
            text: page.text,
            spot: error.here()?,
        });
    };
    let (partial, text) = partial_named(page.partials, site.partial())?;
    Some(Position {
        which: PARTIAL_TEXT,
        partial,
        text,
        spot: site.spot(),
    })
}

/// Returns the number and the text of the partial of this name. Of two it is the later.
fn partial_named<'p>(partials: &[PartialBytes<'p>], name: &str) -> Option<(usize, &'p [u8])> {
    let mut found = None;
    for (number, partial) in partials.iter().enumerate() {
        if partial.name == name.as_bytes() {
            found = Some((number, partial.text));
        }
    }
    found
}

/// Returns the place of a position, if the text has it.
fn place_in(text: &[u8], spot: Spot) -> Option<Place> {
    match spot {
        Spot::Place(place) => Some(place),
        Spot::Left(left) => {
            let text = from_utf8(text).ok()?;
            let (front, _) = text.split_at_checked(text.len().checked_sub(left as usize)?)?;
            let (line, column) = line_and_column(front);
            Some(Place { line, column })
        }
    }
}
