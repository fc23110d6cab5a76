//! The blocks that are open at a place of a template.
ghost use Rattle.std.specs.Prelude.{◌≤◌, length, IfSome};

use liquid_core::parser::{Language, ParseBlock, ParseFilter, TagReflection};
use liquid_explain::{Span, element_at, find_variable};
use liquid_grammar::{Element, TagText, match_identifier, next_element, next_token};
use std::alloc::{AllocError, Global};

/// A block that is open, and the text from the name of its start tag on.
#[derive(Drop)]
pub(crate) struct OpenBlock<'a, B> {
    pub(crate) kind: &'a B,
    pub(crate) from: &'a str,
}

/// Returns the innermost block that is open in a text where `following` follows, if the text has no error before that.
pub(crate) fn innermost<'a, F: ParseFilter, T: TagReflection + Drop, B: ParseBlock<F>>(
    alloc: Global,
    text: &'a str,
    following: &str,
    language: &'a Language<F, T, B>,
) -> Result<Option<OpenBlock<'a, B>>, AllocError> {
    let mut open = Vec::new(alloc);
    let mut rest = text;
    'elements: while let Some((element, after)) = next_element(rest) {
        if after.len() < following.len() {
            break;
        }
        rest = after;
        let Element::Tag(tag) = element else {
            continue;
        };
        let Some(block) = begin(&mut open, tag, language) else {
            continue;
        };
        if block.kind.escapes() {
            match after_escaped(
                rest,
                block.kind.start_tag(),
                block.kind.end_tag(),
                block.kind.nests(),
            ) {
                Some(after) => rest = after,
                None => return Ok(Some(block)),
            }
        } else {
            open.push(block)?;
        }
    }
    Ok(open.pop())
}

/// Returns the block that a tag begins, if it begins one. If it ends the innermost one, that one is open no more.
fn begin<'a, F: ParseFilter, T: TagReflection + Drop, B: ParseBlock<F>>(
    open: &mut Vec<OpenBlock<'a, B>>,
    tag: TagText<'a>,
    language: &'a Language<F, T, B>,
) -> Option<OpenBlock<'a, B>> {
    if let Some(block) = open.last() {
        if tag.name == block.kind.end_tag() {
            drop(open.pop());
            return None;
        }
        if block.kind.dividers().iter().any(|name| *name == tag.name) {
            return None;
        }
    }
    if language.tags.get(tag.name).is_some() {
        return None;
    }
    let kind = language.blocks.get(tag.name)?;
    Some(OpenBlock {
        kind,
        from: tag.place,
    })
}

/// Returns what follows the end of a block whose body is taken as a text, if it has an end.
fn after_escaped<'a>(
    body: &'a str,
    start_name: &str,
    end_name: &str,
    nests: bool,
) -> Option<&'a str>
    ensures { IfSome result (λ after. length after.now ≤ length body.now) }
{
    let mut level: usize = 0;
    let mut rest = body;
    'elements: while let Some((element, after)) = next_element(rest) {
        rest = after;
        if let Element::Tag(tag) = element {
            if tag.name == end_name && next_token(tag.tokens).is_none() {
                match level.checked_sub(1) {
                    Some(outer) => level = outer,
                    None => return Some(after),
                }
            } else if nests && tag.name == start_name {
                level = level.saturating_add(1);
            }
        }
    }
    None
}

/// Returns where a variable is in the dividers of the block whose start tag has its name at this place of a text.
pub(crate) fn find_in_dividers<F: ParseFilter, T: TagReflection + Drop, B: ParseBlock<F>>(
    alloc: Global,
    text: &str,
    place: usize,
    language: &Language<F, T, B>,
    name: &str,
    index: Option<&str>,
) -> Result<Option<Span>, AllocError> {
    let Some((from, body)) = split_start(text, place) else {
        return Ok(None);
    };
    let Some(kind) = block_of(from, language) else {
        return Ok(None);
    };
    let mut open = Vec::new(alloc);
    open.push(OpenBlock { kind, from })?;
    let mut rest = body;
    'elements: while let Some((element, after)) = next_element(rest) {
        rest = after;
        let Element::Tag(tag) = element else {
            continue;
        };
        if open.len() == 1 && kind.dividers().iter().any(|divider| *divider == tag.name) {
            if let Some(span) = find_in_tag(text, tag.place, name, index) {
                return Ok(Some(span));
            }
        }
        match begin(&mut open, tag, language) {
            None if open.is_empty() => return Ok(None),
            None => {}
            Some(block) if block.kind.escapes() => {
                let kind = block.kind;
                match after_escaped(rest, kind.start_tag(), kind.end_tag(), kind.nests()) {
                    Some(after) => rest = after,
                    None => return Ok(None),
                }
            }
            Some(block) => open.push(block)?,
        }
    }
    Ok(None)
}

/// Returns the text from this place on, where the name of a tag is, and what follows the tag's tokens.
fn split_start(text: &str, place: usize) -> Option<(&str, &str)> {
    let from = text.get(place..)?;
    let tag = element_at(text, place)?;
    Some((from, from.get(tag.len()..)?))
}

/// Returns the block that begins with this name.
fn block_of<'a, F: ParseFilter, T: TagReflection + Drop, B: ParseBlock<F>>(
    from: &str,
    language: &'a Language<F, T, B>,
) -> Option<&'a B> {
    let (name, _) = match_identifier(from)?;
    language.blocks.get(name)
}

/// Returns where a variable is in the tag from whose name on this is the rest of the text.
fn find_in_tag(text: &str, from: &str, name: &str, index: Option<&str>) -> Option<Span> {
    let place = text.len().checked_sub(from.len())?;
    let span = find_variable(element_at(text, place)?, name, index)?;
    Some(Span {
        place: place.checked_add(span.place)?,
        length: span.length,
    })
}
