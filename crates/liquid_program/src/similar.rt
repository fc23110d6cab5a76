//! The names that may be meant by one that an error says is unknown.

use crate::command::Options;
use crate::message::Message;
use liquid_core::parser::{Language, ParseBlock, ParseFilter, TagReflection};
use liquid_explain::NearNames;
use liquid_grammar::{Element, match_identifier, next_element, next_token};
use liquid_pages::globals_of;
use std::alloc::{AllocError, Global};

/// The tags whose first token is a name that gets a value.
const BINDING: [&str; 6] = [
    "assign",
    "capture",
    "for",
    "tablerow",
    "increment",
    "decrement",
];

/// Offers the names of the globals, if the error is about one of them, and those that the message lists.
pub(crate) fn offer_listed(
    alloc: Global,
    options: Options,
    json: &str,
    message: Message<'_>,
    names: &mut NearNames,
) -> Result<(), AllocError> {
    if message.is("Unknown variable") {
        if options.sandboxed || message.is_rendered() {
            return Ok(());
        }
        let Ok(globals) = globals_of(alloc, options.decimals, json) else {
            return Ok(());
        };
        for name in globals.keys() {
            names.offer(alloc, name.as_str())?;
        }
        return Ok(());
    }
    let key = if message.is("Unknown index") {
        "available indexes"
    } else if message.is("Unknown partial-template") {
        "available partials"
    } else {
        return Ok(());
    };
    for name in message.detail(key).unwrap_or("").split(", ") {
        names.offer(alloc, name)?;
    }
    Ok(())
}

/// Offers the names that the tags of a text give a value.
pub(crate) fn offer_bound(
    alloc: Global,
    text: &str,
    names: &mut NearNames,
) -> Result<(), AllocError> {
    let mut rest = text;
    'elements: while let Some((element, after)) = next_element(rest) {
        rest = after;
        if let Element::Tag(tag) = element {
            if BINDING.iter().any(|name| *name == tag.name) {
                if let Some(token) = next_token(tag.tokens) {
                    if let Some((name, _)) = match_identifier(token.text) {
                        names.offer(alloc, name)?;
                    }
                }
            }
        }
    }
    Ok(())
}

/// Offers the names of the pairs of a tag that renders a partial.
pub(crate) fn offer_pairs(
    alloc: Global,
    tag: &str,
    names: &mut NearNames,
) -> Result<(), AllocError> {
    let mut rest = tag;
    'tokens: while let Some(token) = next_token(rest) {
        rest = token.rest;
        if let Some((name, _)) = match_identifier(token.text) {
            if let Some(next) = next_token(rest) {
                if next.text == ":" {
                    names.offer(alloc, name)?;
                }
            }
        }
    }
    Ok(())
}

/// Returns the name that a word of another language has here, if the error is about such a name.
pub(crate) fn find_foreign<F: ParseFilter, T: TagReflection + Drop, B: ParseBlock<F>>(
    message: Message<'_>,
    language: &Language<F, T, B>,
) -> Option<&'static str> {
    let word = message.requested_name();
    if message.is("Unknown variable") {
        return foreign_value(word);
    }
    if message.is("Unknown index") {
        return foreign_index(word);
    }
    let (name, is_there) = if message.is("Unknown filter") {
        let name = foreign_filter(word)?;
        (name, language.filters.get(name).is_some())
    } else if message.is("Unknown tag.") {
        let name = foreign_tag(word)?;
        (
            name,
            language.tags.get(name).is_some() || language.blocks.get(name).is_some(),
        )
    } else {
        return None;
    };
    if is_there { Some(name) } else { None }
}

fn foreign_value(word: &str) -> Option<&'static str> {
    match word {
        "True" => Some("true"),
        "False" => Some("false"),
        "None" | "undefined" => Some("nil"),
        "loop" => Some("forloop"),
        _ => None,
    }
}

fn foreign_index(word: &str) -> Option<&'static str> {
    match word {
        "length" | "count" | "len" => Some("size"),
        _ => None,
    }
}

fn foreign_filter(word: &str) -> Option<&'static str> {
    match word {
        "lower" | "lowercase" => Some("downcase"),
        "upper" | "uppercase" => Some("upcase"),
        "title" => Some("capitalize"),
        "trim" => Some("strip"),
        "e" | "h" => Some("escape"),
        "length" | "count" | "len" => Some("size"),
        "tojson" => Some("json"),
        _ => None,
    }
}

fn foreign_tag(word: &str) -> Option<&'static str> {
    match word {
        "set" | "let" | "var" => Some("assign"),
        "foreach" | "each" => Some("for"),
        "switch" => Some("case"),
        "import" | "partial" => Some("include"),
        "print" => Some("echo"),
        _ => None,
    }
}
