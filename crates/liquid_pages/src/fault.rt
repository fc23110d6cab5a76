//! Why a page is not rendered, or not to its end.
ghost use Rattle.std.specs.Prelude.{Some};
ghost use Rattle.liquid_pages.specs.meaning.FaultText.{page_fault_text, text_name};

use liquid_error::Error;
use std::fmt;

/// A text of a page. Partials are numbered from 0.
#[derive(Clone, Copy, Debug, PartialEq, Eq, Drop)]
pub enum PageText {
    Template,
    Globals,
    PartialName(usize),
    PartialText(usize),
}

impl fmt::Display for PageText {
    ghost output = { λ text. Some (text_name text) };

    fn fmt<W: fmt::Write>(&self, f: &mut fmt::Formatter<W>) -> fmt::Result {
        match self {
            PageText::Template => write!(f, "the template"),
            PageText::Globals => write!(f, "the text of the globals"),
            PageText::PartialName(place) => write!(f, "the name of partial {place}"),
            PageText::PartialText(place) => write!(f, "the text of partial {place}"),
        }
    }
}

/// Why a page is not rendered, or not to its end. An `Error` that is out of memory says so in whichever variant it is.
#[derive(Debug, Drop)]
pub enum PageFault {
    /// This text is not UTF-8.
    NoText(PageText),
    /// The globals are not JSON.
    BadJson(serde_json::Error),
    /// The JSON of the globals is not an object of values.
    NoGlobals(Error),
    /// The template can't be parsed.
    Unparsed(Error),
    /// Rendering had an error, or memory ran out.
    Refused(Error),
}

/// An error is written as it prints itself, and any other fault is a line. The texts of bad JSON are those of `serde_json`.
impl fmt::Display for PageFault {
    ghost output = { λ fault. page_fault_text fault };

    fn fmt<W: fmt::Write>(&self, f: &mut fmt::Formatter<W>) -> fmt::Result {
        match self {
            PageFault::NoText(text) => writeln!(f, "liquid: {text} is not UTF-8"),
            PageFault::BadJson(error) => writeln!(f, "liquid: bad JSON: {error}"),
            PageFault::NoGlobals(error) | PageFault::Unparsed(error) | PageFault::Refused(error) =>
                write!(f, "{error}"),
        }
    }
}
