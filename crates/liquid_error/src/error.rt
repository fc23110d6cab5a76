//! The error type of the engine, and what can be added to an error.
ghost use Rattle.std.specs.Prelude.{◌≡◌, ◌↔◌, IsTrue, IsNone, None, Some, IfSome, map, option_map, option_and_then, string_bytes};
ghost use Rattle.liquid_error.specs.meaning.Refusal.{plain, located, or_placed, with_trace, with_context};
ghost use Rattle.liquid_error.specs.meaning.Refusal.{with_cause, cause_of_told, chained};
ghost use Rattle.liquid_error.specs.meaning.ErrorText.{lossy_chained};
ghost use Rattle.liquid_error.specs.meaning.Sites.{at_known_node, error_here, error_sites, site_of, sites_within};
ghost use Rattle.liquid_error.specs.meaning.Told.{told, reason_of, source_reason, Becomes};

use crate::cause::{Cause, CauseOf, CloneableError};
use crate::place::Place;
use crate::report::Report;
use crate::site::{Site, Spot};
use std::alloc::{AllocError, AllocFailed, Global};

/// The result of a call that can fail with a Liquid error.
pub type Result<T> = std::result::Result<T, Error>;

/// A Liquid error with its direct cause, if it has one, or an out-of-memory error.
#[derive(Debug, Drop)]
pub enum Error {
    Memory,
    Liquid(Report, Option<Cause>),
}

impl From<AllocError> for Error {
    ghost from_gives = { λ e r. told r ≡ None };

    fn from(_error: AllocError) -> Error {
        Error::Memory
    }
}

impl<T: Drop> From<AllocFailed<T>> for Error {
    ghost from_gives = { λ e r. told r ≡ None };

    fn from(failed: AllocFailed<T>) -> Error {
        drop(failed);
        Error::Memory
    }
}

impl Error {
    /// Returns an error with this message.
    pub fn with_msg(alloc: Global, message: &str) -> Error
        ensures { IfSome (told result) (λ r. r ≡ plain message.now) }
    {
        match String::from_str(alloc, message) {
            Ok(message) => Error::with_text(alloc, message),
            Err(_) => Error::Memory,
        }
    }

    /// Returns an error with this message, which it takes over.
    pub fn with_text(alloc: Global, message: String) -> Error
        ensures { told result ≡ Some (plain (string_bytes message)) }
    {
        Error::Liquid(Report::new(alloc, message), None)
    }

    /// Returns an error about a place in a text. Its message ends in ` (line L, column C)`.
    pub fn at_place(alloc: Global, message: &str, place: Place) -> Error
        ensures { IfSome (told result) (λ r. r ≡ located message.now place) }
    {
        match Report::at_place(alloc, message, place) {
            Ok(report) => Error::Liquid(report, None),
            Err(_) => Error::Memory,
        }
    }

    /// Adds a trace: what was being done when the error occurred.
    pub fn trace(self, alloc: Global, text: &str) -> Error
        ensures { Becomes (with_trace text.now) self result }
    {
        match String::from_str(alloc, text) {
            Ok(text) => self.trace_text(alloc, text),
            Err(_) => Error::Memory,
        }
    }

    pub(crate) fn trace_text(self, alloc: Global, text: String) -> Error
        ensures { Becomes (with_trace (string_bytes text)) self result }
    {
        match self {
            Error::Memory => Error::Memory,
            Error::Liquid(report, cause) => match report.trace(alloc, text) {
                Ok(report) => Error::Liquid(report, cause),
                Err(_) => Error::Memory,
            },
        }
    }

    /// Adds a context to the newest trace, or to the message if there is no trace.
    pub fn context(self, alloc: Global, key: &str, value: &str) -> Error
        ensures { Becomes (with_context key.now value.now) self result }
    {
        let key = match String::from_str(alloc, key) {
            Ok(key) => key,
            Err(_) => return Error::Memory,
        };
        match String::from_str(alloc, value) {
            Ok(value) => self.context_texts(key, value),
            Err(_) => Error::Memory,
        }
    }

    pub(crate) fn context_texts(self, key: String, value: String) -> Error
        ensures { Becomes (with_context (string_bytes key) (string_bytes value)) self result }
    {
        match self {
            Error::Memory => Error::Memory,
            Error::Liquid(report, cause) => match report.context(key, value) {
                Ok(report) => Error::Liquid(report, cause),
                Err(_) => Error::Memory,
            },
        }
    }

    /// Sets the direct cause of the error, in place of any other. An out-of-memory error has no cause.
    pub fn cause(self, cause: Cause) -> Error
        ensures { told result ≡ option_map (with_cause (reason_of cause)) (told self) }
    {
        match self {
            Error::Memory => Error::Memory,
            Error::Liquid(report, _) => Error::Liquid(report, Some(cause)),
        }
    }

    /// Returns the direct cause of the error, if it has one.
    pub fn source(&self) -> Option<&Cause>
        ensures { source_reason result ≡ cause_of_told (told self.now) }
    {
        match self {
            Error::Memory => None,
            Error::Liquid(_, cause) => cause.as_ref(),
        }
    }

    pub(crate) fn chain_text(self, alloc: Global, message: String) -> Error
        ensures { Becomes (chained (string_bytes message)) self result }
    {
        if self.is_memory() {
            return Error::Memory;
        }
        match Box::new(alloc, self) {
            Ok(error) => Error::with_text(alloc, message).cause(CauseOf::Error(error)),
            Err(_) => Error::Memory,
        }
    }

    pub(crate) fn lossy_chain_text(self, alloc: Global, message: String) -> Error
        ensures { Becomes (lossy_chained (string_bytes message)) self result }
    {
        if self.is_memory() {
            return Error::Memory;
        }
        match CloneableError::new(alloc, self) {
            Ok(kept) => Error::with_text(alloc, message).cause(CauseOf::Cloneable(kept)),
            Err(_) => Error::Memory,
        }
    }

    pub(crate) fn replace_text(self, alloc: Global, message: String) -> Error
        ensures { Becomes (λ _. plain (string_bytes message)) self result }
    {
        match self {
            Error::Memory => Error::Memory,
            old => {
                drop(old);
                Error::with_text(alloc, message)
            }
        }
    }

    /// Returns the error as an `Err`.
    pub fn into_err<T>(self) -> Result<T>
        ensures { result ≡ Rattle.std.specs.Prelude.Err self }
    {
        Err(self)
    }

    /// Returns `true` if this is an out-of-memory error.
    pub fn is_memory(&self) -> bool
        ensures { IsTrue result ↔ IsNone (told self.now) }
    {
        match self {
            Error::Memory => true,
            Error::Liquid(_, _) => false,
        }
    }

    /// Sets the place of the error if it has none. The message stays as it is.
    pub fn or_place(self, place: Place) -> Error
        ensures { told result ≡ option_map (or_placed place) (told self) }
    {
        match self {
            Error::Memory => Error::Memory,
            Error::Liquid(report, cause) => Error::Liquid(report.or_place(place), cause),
        }
    }

    /// Returns the place in a text that the error is about, if there is one. For an error in a partial, it is a place in
    /// the partial's text.
    pub fn place(&self) -> Option<Place>
        ensures { result ≡ option_and_then (λ r. r.place) (told self.now) }
    {
        match self {
            Error::Memory => None,
            Error::Liquid(report, _) => report.location.place(),
        }
    }

    /// Sets the node that failed, if no position in the text at hand is known: the one that begins where this many bytes
    /// are left of the text. `0` is no node. What the error says stays as it is.
    #[inline(never)]
    pub fn at_node(self, left: u32) -> Error
        ensures says { told result ≡ told self }
        ensures here { IfSome (told self) (λ _. error_here result ≡ at_known_node left (error_here self)) }
        ensures sites { error_sites result ≡ error_sites self }
    {
        if left == 0 {
            return self;
        }
        match self {
            Error::Memory => Error::Memory,
            Error::Liquid(report, cause) => Error::Liquid(report.at_node(left), cause),
        }
    }

    /// Returns the error, seen from the text that renders this partial: a position in the text at hand is one in the
    /// partial's text. What the error says stays as it is.
    #[inline(never)]
    pub fn within(self, alloc: Global, partial: &str) -> Error
        ensures says { Becomes (λ r. r) self result }
        ensures here { error_here result ≡ None }
        ensures sites { IfSome (told result) (λ _. error_sites result ≡ sites_within partial.now (error_here self) (error_sites self)) }
    {
        match self {
            Error::Memory => Error::Memory,
            Error::Liquid(report, cause) => match report.within(alloc, partial) {
                Ok(report) => Error::Liquid(report, cause),
                Err(_) => Error::Memory,
            },
        }
    }

    /// Returns where the error is in the text that was read or rendered: in a node that renders a partial, if it is in a
    /// partial.
    pub fn here(&self) -> Option<Spot>
        ensures { result ≡ error_here self.now }
    {
        match self {
            Error::Memory => None,
            Error::Liquid(report, _) => report.location.here(),
        }
    }

    /// Returns where the error is in the partials around it, the innermost first.
    pub fn sites(&self) -> &[Site]
        ensures { map site_of result.now ≡ error_sites self.now }
    {
        match self {
            Error::Memory => &[],
            Error::Liquid(report, _) => report.location.sites(),
        }
    }
}
