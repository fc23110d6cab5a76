//! The filters on strings.
ghost use Rattle.liquid_filters.specs.meaning.Standard.{text_sense};

use crate::arguments::CallArguments;
use crate::parameters::{CUT, LAST_REPLACEMENT, NONE, REPLACEMENT, SLICE, TEXT};
use crate::row::{FilterKind, FilterRow};
use crate::string::{
    append, base64_decode, base64_encode, base64_url_safe_decode, base64_url_safe_encode,
    capitalize, downcase, escape, escape_once, lstrip, newline_to_br, prepend, remove,
    remove_first, remove_last, replace, replace_first, replace_last, rstrip, slice, split, strip,
    strip_html, strip_newlines, truncate, truncatewords, upcase, url_decode, url_encode,
};
use liquid_error::Error;
use liquid_value::Value;
use std::alloc::Global;

/// A filter on strings.
#[derive(Debug, Clone, Copy, PartialEq, Eq, Drop)]
pub enum TextKind {
    Append,
    Base64Decode,
    Base64Encode,
    Base64UrlSafeDecode,
    Base64UrlSafeEncode,
    Capitalize,
    Downcase,
    Escape,
    EscapeOnce,
    H,
    Lstrip,
    NewlineToBr,
    Prepend,
    Remove,
    RemoveFirst,
    RemoveLast,
    Replace,
    ReplaceFirst,
    ReplaceLast,
    Rstrip,
    Slice,
    Split,
    Strip,
    StripHtml,
    StripNewlines,
    Truncate,
    TruncateWords,
    Upcase,
    UrlDecode,
    UrlEncode,
}

impl FilterKind for TextKind {
    ghost sense = { text_sense };

    fn row(&self) -> FilterRow {
        match self {
            TextKind::Append => FilterRow::new("append", "Appends a string.", &TEXT),
            TextKind::Base64Decode => FilterRow::new("base64_decode", "Decodes base64.", &NONE),
            TextKind::Base64Encode => FilterRow::new("base64_encode", "Encodes as base64.", &NONE),
            TextKind::Base64UrlSafeDecode => FilterRow::new(
                "base64_url_safe_decode",
                "Decodes base64 of a URL.",
                &NONE,
            ),
            TextKind::Base64UrlSafeEncode => FilterRow::new(
                "base64_url_safe_encode",
                "Encodes as base64 for a URL.",
                &NONE,
            ),
            TextKind::Capitalize => FilterRow::new(
                "capitalize",
                "Converts the first character to upper case, and the others to lower case.",
                &NONE,
            ),
            TextKind::Downcase => FilterRow::new("downcase", "Converts to lower case.", &NONE),
            TextKind::Escape => FilterRow::new(
                "escape",
                "Escapes the special characters of HTML.",
                &NONE,
            ),
            TextKind::EscapeOnce => FilterRow::new(
                "escape_once",
                "Escapes the special characters of HTML, but keeps entities.",
                &NONE,
            ),
            TextKind::H => FilterRow::new("h", "Escapes the special characters of HTML.", &NONE),
            TextKind::Lstrip => FilterRow::new("lstrip", "Removes whitespace at the start.", &NONE),
            TextKind::NewlineToBr => FilterRow::new(
                "newline_to_br",
                "Inserts a line break of HTML before each line feed.",
                &NONE,
            ),
            TextKind::Prepend => FilterRow::new("prepend", "Prepends a string.", &TEXT),
            TextKind::Remove => FilterRow::new(
                "remove",
                "Removes each occurrence of a string.",
                &TEXT,
            ),
            TextKind::RemoveFirst => FilterRow::new(
                "remove_first",
                "Removes the first occurrence of a string.",
                &TEXT,
            ),
            TextKind::RemoveLast => FilterRow::new(
                "remove_last",
                "Removes the last occurrence of a string.",
                &TEXT,
            ),
            TextKind::Replace => FilterRow::new(
                "replace",
                "Replaces each occurrence of a string.",
                &REPLACEMENT,
            ),
            TextKind::ReplaceFirst => FilterRow::new(
                "replace_first",
                "Replaces the first occurrence of a string.",
                &REPLACEMENT,
            ),
            TextKind::ReplaceLast => FilterRow::new(
                "replace_last",
                "Replaces the last occurrence of a string.",
                &LAST_REPLACEMENT,
            ),
            TextKind::Rstrip => FilterRow::new("rstrip", "Removes whitespace at the end.", &NONE),
            TextKind::Slice => FilterRow::new(
                "slice",
                "Returns some of the characters or items.",
                &SLICE,
            ),
            TextKind::Split => FilterRow::new(
                "split",
                "Splits at each occurrence of a string.",
                &TEXT,
            ),
            TextKind::Strip => FilterRow::new("strip", "Removes whitespace at both ends.", &NONE),
            TextKind::StripHtml => FilterRow::new("strip_html", "Removes the tags of HTML.", &NONE),
            TextKind::StripNewlines => FilterRow::new(
                "strip_newlines",
                "Removes line ends.",
                &NONE,
            ),
            TextKind::Truncate => FilterRow::new(
                "truncate",
                "Truncates to a number of characters.",
                &CUT,
            ),
            TextKind::TruncateWords => FilterRow::new(
                "truncatewords",
                "Truncates to a number of words.",
                &CUT,
            ),
            TextKind::Upcase => FilterRow::new("upcase", "Converts to upper case.", &NONE),
            TextKind::UrlDecode => FilterRow::new(
                "url_decode",
                "Decodes a string of a URL.",
                &NONE,
            ),
            TextKind::UrlEncode => FilterRow::new("url_encode", "Encodes for a URL.", &NONE),
        }
    }

    fn answer(
        &self,
        alloc: Global,
        input: &Value,
        arguments: &CallArguments<'_>,
    ) -> Result<Value, Error> {
        let given = arguments.positional;
        match self {
            TextKind::Append => append(alloc, input, given),
            TextKind::Base64Decode => base64_decode(alloc, input),
            TextKind::Base64Encode => base64_encode(alloc, input),
            TextKind::Base64UrlSafeDecode => base64_url_safe_decode(alloc, input),
            TextKind::Base64UrlSafeEncode => base64_url_safe_encode(alloc, input),
            TextKind::Capitalize => capitalize(alloc, input),
            TextKind::Downcase => downcase(alloc, input),
            TextKind::Escape | TextKind::H => escape(alloc, input),
            TextKind::EscapeOnce => escape_once(alloc, input),
            TextKind::Lstrip => lstrip(alloc, input),
            TextKind::NewlineToBr => newline_to_br(alloc, input),
            TextKind::Prepend => prepend(alloc, input, given),
            TextKind::Remove => remove(alloc, input, given),
            TextKind::RemoveFirst => remove_first(alloc, input, given),
            TextKind::RemoveLast => remove_last(alloc, input, given),
            TextKind::Replace => replace(alloc, input, given),
            TextKind::ReplaceFirst => replace_first(alloc, input, given),
            TextKind::ReplaceLast => replace_last(alloc, input, given),
            TextKind::Rstrip => rstrip(alloc, input),
            TextKind::Slice => slice(alloc, input, given),
            TextKind::Split => split(alloc, input, given),
            TextKind::Strip => strip(alloc, input),
            TextKind::StripHtml => strip_html(alloc, input),
            TextKind::StripNewlines => strip_newlines(alloc, input),
            TextKind::Truncate => truncate(alloc, input, given),
            TextKind::TruncateWords => truncatewords(alloc, input, given),
            TextKind::Upcase => upcase(alloc, input),
            TextKind::UrlDecode => url_decode(alloc, input),
            TextKind::UrlEncode => url_encode(alloc, input),
        }
    }
}
