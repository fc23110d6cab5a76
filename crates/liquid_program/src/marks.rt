//! What is marked for an error of a template.

use crate::message::Message;
use crate::open_blocks::find_in_dividers;
use liquid_core::parser::{Language, ParseBlock, ParseFilter, TagReflection};
use liquid_explain::{Span, element_at, explain_unreadable, find_filter, find_variable};
use liquid_grammar::{match_filter, match_identifier, match_literal, next_token};
use std::alloc::{AllocError, Global};

/// What is marked, what is written after the mark, and what may help.
#[derive(Drop)]
pub(crate) struct Marking {
    pub(crate) span: Span,
    pub(crate) label: String,
    pub(crate) hint: Option<&'static str>,
}

/// Returns what is marked for the error at a place of a text.
pub(crate) fn marking_of<F: ParseFilter, T: TagReflection + Drop, B: ParseBlock<F>>(
    alloc: Global,
    text: &str,
    place: usize,
    message: Message<'_>,
    language: &Language<F, T, B>,
) -> Result<Marking, AllocError> {
    let following = text.get(place..).unwrap_or("");
    if message.is("Invalid liquid") {
        return marking_of_unreadable(alloc, following, place);
    }
    let label = if message.is("Unexpected token") {
        "not expected here"
    } else {
        ""
    };
    let span = match length_of_read(following, message) {
        Some(length) => Span { place, length },
        None => span_of_failed(alloc, text, place, message, language)?,
    };
    Ok(Marking {
        span,
        label: String::from_str(alloc, label)?,
        hint: None,
    })
}

fn marking_of_unreadable(
    alloc: Global,
    following: &str,
    place: usize,
) -> Result<Marking, AllocError> {
    match explain_unreadable(following) {
        Some(unreadable) => Ok(Marking {
            span: Span {
                place: place.saturating_add(unreadable.place()),
                length: unreadable.length(),
            },
            label: unreadable.label(alloc)?,
            hint: unreadable.hint(),
        }),
        None => Ok(Marking {
            span: Span { place, length: 1 },
            label: String::new(alloc),
            hint: None,
        }),
    }
}

/// Returns how many bytes are marked for an error of reading, if it is one.
fn length_of_read(following: &str, message: Message<'_>) -> Option<usize> {
    let rest = if message.is("Unexpected token") {
        next_token(following)?.rest
    } else if message.is("Integer out of range") || message.is("Decimal not supported") {
        match_literal(following)?.1
    } else if message.has_trace("Filter parsing error") {
        match_filter(following)?.1
    } else if message.is("Unknown tag.") || message.is("Unknown filter") {
        match_identifier(following)?.1
    } else if message.is("Nested too deep") {
        following.get(1..)?
    } else {
        return None;
    };
    following.len().checked_sub(rest.len())
}

/// Returns the part of the element at a place that an error of rendering is about.
fn span_of_failed<F: ParseFilter, T: TagReflection + Drop, B: ParseBlock<F>>(
    alloc: Global,
    text: &str,
    place: usize,
    message: Message<'_>,
    language: &Language<F, T, B>,
) -> Result<Span, AllocError> {
    let Some(element) = element_at(text, place) else {
        return Ok(Span { place, length: 1 });
    };
    let whole = Span {
        place,
        length: element.len(),
    };
    if let Some((name, index)) = variable_of(message) {
        if let Some(span) = move_span(find_variable(element, name, index), place) {
            return Ok(span);
        }
        if let Some(span) = find_in_dividers(alloc, text, place, language, name, index)? {
            return Ok(span);
        }
    }
    if message.has_trace("Filter error") {
        let filter = find_filter(element, message.detail("filter").unwrap_or(""));
        return Ok(move_span(filter, place).unwrap_or(whole));
    }
    Ok(whole)
}

/// Returns the name of the variable that an error is about, and that of its index, if that is not there.
fn variable_of<'m>(message: Message<'m>) -> Option<(&'m str, Option<&'m str>)> {
    let (path, index) = if message.is("Unknown variable") {
        (message.requested_name(), None)
    } else if message.is("Unknown index") {
        (message.detail("variable")?, Some(message.requested_name()))
    } else {
        return None;
    };
    Some((path.split(".").next()?, index))
}

/// Returns the span as part of the text in which its element begins at this place.
fn move_span(span: Option<Span>, place: usize) -> Option<Span> {
    let span = span?;
    Some(Span {
        place: place.saturating_add(span.place),
        length: span.length,
    })
}
