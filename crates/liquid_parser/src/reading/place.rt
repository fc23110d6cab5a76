//! Places in a source.
ghost use Rattle.std.specs.Prelude.{◌≡◌, ◌++◌, ℕ, List, IfSome};
ghost use Rattle.liquid_error.specs.meaning.Told.{told, Gives};
ghost use Rattle.liquid_grammar.specs.meaning.Meanings.{faults_of};
ghost use Rattle.liquid_parser.specs.meaning.Reading.{checked, refused_at};
ghost use Rattle.liquid_parser.specs.meaning.Handed as spec;

use liquid_error::{Error, Place};
use liquid_grammar::{Fault, FaultKind};
use std::alloc::Global;

/// Returns the line and column, both from 1, of the place in the source that is followed by this text.
pub(crate) fn place_in(source: &str, following: &str) -> Place
    ensures { result ≡ spec.place_in source.now following.now }
{
    let before = source.len().saturating_sub(following.len());
    let mut line = 1;
    let mut column = 1;
    for byte in &source.as_bytes()[..before] {
        if *byte == b'\n' {
            line += 1;
            column = 1;
        } else if *byte < 128 || *byte >= 192 {
            column += 1;
        }
    }
    Place { line, column }
}

/// Returns the text between a place and a later place.
pub(crate) fn slice_between<'a>(place: &'a str, following: &str) -> &'a str
    ensures { (text : List ℕ) → place.now ≡ text ++ following.now → result.now ≡ text }
{
    match place.split_at_checked(place.len().saturating_sub(following.len())) {
        Some((text, _)) => text,
        None => place,
    }
}

/// Returns an error with this message about the place that is followed by this text.
pub(crate) fn error_at(alloc: Global, source: &str, message: &str, following: &str) -> Error
    ensures { IfSome (told result) (λ r. r ≡ refused_at source.now message.now following.now) }
{
    Error::at_place(alloc, message, place_in(source, following))
}

/// Fails with the first fault of literals and brackets, if there is one.
pub(crate) fn check(
    alloc: Global,
    source: &str,
    fault: Option<Fault<'_>>,
) -> std::result::Result<(), Error>
    ensures { Gives (λ u. u) result (checked source.now (faults_of fault.entry)) }
{
    match fault {
        None => Ok(()),
        Some(fault) => {
            let message = match fault.kind {
                FaultKind::IntegerOutOfRange => "Integer out of range",
                FaultKind::DecimalNotSupported => "Decimal not supported",
                FaultKind::NestedTooDeep => "Nested too deep",
            };
            Err(error_at(alloc, source, message, fault.place))
        }
    }
}
