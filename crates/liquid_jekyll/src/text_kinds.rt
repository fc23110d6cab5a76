//! The kinds of Jekyll's filters on strings.
ghost use Rattle.liquid_jekyll.specs.meaning.Senses.{text_sense};

use crate::inspection::inspect;
use crate::parameters::{MODE, NONE};
use crate::value::{
    normalize_whitespace, number_of_words, slugify, strip_index, to_integer, uri_escape, xml_escape,
};
use liquid_error::Error;
use liquid_filters::json_text::json;
use liquid_filters::string::url_encode;
use liquid_filters::{CallArguments, FilterKind, FilterRow};
use liquid_value::Value;
use std::alloc::Global;

/// A filter of Jekyll on a string.
#[derive(Debug, Clone, Copy, PartialEq, Eq, Drop)]
pub enum JekyllTextKind {
    CgiEscape,
    Inspect,
    Jsonify,
    NormalizeWhitespace,
    NumberOfWords,
    Slugify,
    StripIndex,
    ToInteger,
    UriEscape,
    XmlEscape,
}

impl FilterKind for JekyllTextKind {
    ghost sense = { text_sense };

    fn row(&self) -> FilterRow {
        match self {
            JekyllTextKind::CgiEscape => {
                FilterRow::new("cgi_escape", "Encodes for a URL.", &NONE)
            }
            JekyllTextKind::Inspect => {
                FilterRow::new(
                    "inspect",
                    "Converts the input to JSON, escaped for XML.",
                    &NONE,
                )
            }
            JekyllTextKind::Jsonify => FilterRow::new(
                "jsonify",
                "Converts the input to JSON.",
                &NONE,
            ),
            JekyllTextKind::NormalizeWhitespace => FilterRow::new(
                "normalize_whitespace",
                "Replaces each run of whitespace by a space.",
                &NONE,
            ),
            JekyllTextKind::NumberOfWords => {
                FilterRow::new("number_of_words", "Counts the words.", &MODE)
            }
            JekyllTextKind::Slugify => {
                FilterRow::new("slugify", "Converts to a part of a URL.", &MODE)
            }
            JekyllTextKind::StripIndex => FilterRow::new(
                "strip_index",
                "Removes the name of an index page from a path.",
                &NONE,
            ),
            JekyllTextKind::ToInteger => {
                FilterRow::new("to_integer", "Converts the input to an integer.", &NONE)
            }
            JekyllTextKind::UriEscape => {
                FilterRow::new("uri_escape", "Escapes for a URL.", &NONE)
            }
            JekyllTextKind::XmlEscape => FilterRow::new(
                "xml_escape",
                "Escapes the special characters of XML.",
                &NONE,
            ),
        }
    }

    fn answer(
        &self,
        alloc: Global,
        input: &Value,
        arguments: &CallArguments<'_>,
    ) -> Result<Value, Error> {
        let given = arguments.positional;
        match self {
            JekyllTextKind::CgiEscape => url_encode(alloc, input),
            JekyllTextKind::Inspect => inspect(alloc, input),
            JekyllTextKind::Jsonify => json(alloc, input),
            JekyllTextKind::NormalizeWhitespace => normalize_whitespace(alloc, input),
            JekyllTextKind::NumberOfWords => number_of_words(alloc, input, given),
            JekyllTextKind::Slugify => slugify(alloc, input, given),
            JekyllTextKind::StripIndex => strip_index(alloc, input),
            JekyllTextKind::ToInteger => to_integer(alloc, input),
            JekyllTextKind::UriEscape => uri_escape(alloc, input),
            JekyllTextKind::XmlEscape => xml_escape(alloc, input),
        }
    }
}
