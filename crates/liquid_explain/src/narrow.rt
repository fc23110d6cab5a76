//! The part of an element that an error is about.
ghost use Rattle.std.specs.Prelude.{◌<◌, length, IfSome};

use liquid_grammar::{
    IndexStart, match_chain, match_filter, match_identifier, match_literal, match_variable,
    match_white, next_index, next_token,
};

/// A part of a text.
#[derive(Clone, Copy, Debug, PartialEq, Eq)]
pub struct Span {
    /// How many bytes come before it.
    pub place: usize,
    /// How many bytes it has.
    pub length: usize,
}

/// Returns the chain that begins at this place of a text, or the tag from its name on, without its closer.
pub fn element_at(text: &str, place: usize) -> Option<&str> {
    let (front, following) = text.split_at_checked(place)?;
    let rest = if opens_tag(front) {
        after_tokens(match_identifier(following)?.1)
    } else {
        match_chain(following)?.1
    };
    before(following, rest)
}

/// Returns what follows all tokens that begin here.
fn after_tokens(text: &str) -> &str {
    let mut rest = text;
    'tokens: while let Some(token) = next_token(rest) {
        rest = token.rest;
    }
    rest
}

/// Returns `true` if a text ends with the opener of a tag.
fn opens_tag(front: &str) -> bool {
    let opener = front.trim_end();
    opener.strip_suffix("-").unwrap_or(opener).ends_with("{%")
}

/// Returns the beginning of a text before this end of it.
fn before<'a>(text: &'a str, rest: &str) -> Option<&'a str> {
    text.get(..text.len().checked_sub(rest.len())?)
}

/// Returns where the first variable of this name is in an element, with its indexes. If the name of an index is given, it
/// is the first such variable that has this index, or one that is not written as a name.
pub fn find_variable(element: &str, name: &str, index: Option<&str>) -> Option<Span> {
    let mut rest = element;
    'parts: while !rest.is_empty() {
        let front = before(element, rest)?;
        let Some((word, after)) = match_identifier(rest) else {
            rest = after_text(rest)?;
            continue;
        };
        if word == name && !is_member(front) && !is_keyword(after) {
            let (_, end) = match_variable(rest)?;
            if has_index(before(after, end)?, index) {
                return Some(Span {
                    place: front.len(),
                    length: before(rest, end)?.len(),
                });
            }
        }
        rest = after;
    }
    None
}

/// Returns where the first filter of this name is in an element, with its arguments.
pub fn find_filter(element: &str, name: &str) -> Option<Span> {
    let mut rest = element;
    'parts: while !rest.is_empty() {
        if let Some(after) = rest.strip_prefix("|") {
            let (_, start) = match_white(after);
            if let Some((word, _)) = match_identifier(start) {
                if word == name {
                    let (_, end) = match_filter(start)?;
                    return Some(Span {
                        place: before(element, start)?.len(),
                        length: before(start, end)?.len(),
                    });
                }
            }
        }
        rest = after_text(rest)?;
    }
    None
}

/// Returns what follows the text in quotes that begins here, or otherwise one character.
fn after_text(text: &str) -> Option<&str>
    ensures { IfSome result (λ rest. length rest.now < length text.now) }
{
    let first = text.chars().next()?;
    if first == '"' || first == '\'' {
        if let Some((_, after)) = match_literal(text) {
            return Some(after);
        }
    }
    text.get(first.len_utf8()..)
}

/// Returns `true` if what follows this is the name of a member.
fn is_member(front: &str) -> bool {
    front.ends_with(".") && !front.ends_with("..")
}

/// Returns `true` if a name before this is that of a keyword.
fn is_keyword(after: &str) -> bool {
    match_white(after).1.starts_with(":")
}

/// Returns `true` if no index is asked for, or if the indexes have it or one that is not a name.
fn has_index(indexes: &str, index: Option<&str>) -> bool {
    let Some(name) = index else {
        return true;
    };
    let mut rest = indexes;
    'indexes: while let Some((start, after)) = next_index(rest, 0) {
        match start {
            IndexStart::Named(member) if member != name => {}
            _ => return true,
        }
        rest = after;
    }
    false
}
