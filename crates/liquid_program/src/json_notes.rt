//! What `--explain` adds to a fault of the globals.

use json::{Reader, Scratch, Token};
use serde_json::{Error, Map, Value as Json};
use std::alloc::{AllocError, Global};

/// What some editors put before a text, and JSON doesn't have.
const BYTE_ORDER_MARK: char = '\u{feff}';

/// How many arrays and objects may be nested.
const MOST_NESTED: usize = 127;

/// Returns where a text is not JSON, and whether that is because it is nested too deep or begins with a byte order mark.
/// Returns nothing if memory runs out.
pub(crate) fn note_of_text(alloc: Global, text: &str, error: &Error) -> String {
    if text.starts_with(BYTE_ORDER_MARK) {
        let note = format!(in alloc; "{error}: the text begins with a byte order mark");
        return note.unwrap_or(String::new(alloc));
    }
    let note = match is_too_deep(alloc, text) {
        Ok(true) => format!(in alloc;
            "{error}: more than {MOST_NESTED} arrays and objects are nested"
        ),
        Ok(false) => format!(in alloc; "{error}"),
        Err(_) => return String::new(alloc),
    };
    note.unwrap_or(String::new(alloc))
}

/// Returns the path in an object of JSON to the first number that is not an integer of 64 bits, after the word `at`.
/// Returns nothing if there is no such number, if numbers may be decimals, or if memory runs out.
pub(crate) fn note_of_number(alloc: Global, decimals: bool, text: &str) -> String {
    if decimals {
        return String::new(alloc);
    }
    match unfit_number(alloc, text) {
        Ok(Some(path)) => path,
        _ => String::new(alloc),
    }
}

fn unfit_number(alloc: Global, text: &str) -> Result<Option<String>, AllocError> {
    let Ok(Json::Object(members)) = Json::from_str(alloc, text) else {
        return Ok(None);
    };
    match path_in_members(alloc, &members)? {
        Some(path) => {
            let path = path.as_str().strip_prefix(".").unwrap_or("");
            Ok(Some(format!(in alloc; "at {path}")?))
        }
        None => Ok(None),
    }
}

/// Returns the path within a value to its first number that is not an integer of 64 bits.
#[cycle(path)]
fn path_of_unfit(alloc: Global, json: &Json) -> Result<Option<String>, AllocError> {
    match json {
        Json::Number(number) => match number.as_i64() {
            Some(_) => Ok(None),
            None => Ok(Some(String::new(alloc))),
        },
        Json::Array(items) => path_in_items(alloc, items),
        Json::Object(members) => path_in_members(alloc, members),
        Json::Null | Json::Bool(_) | Json::String(_) => Ok(None),
    }
}

#[cycle(path)]
fn path_in_items(alloc: Global, items: &Vec<Json>) -> Result<Option<String>, AllocError> {
    let mut place: usize = 0;
    for item in items {
        if let Some(rest) = path_of_unfit(alloc, item)? {
            return Ok(Some(format!(in alloc; "[{place}]{rest}")?));
        }
        place = place.saturating_add(1);
    }
    Ok(None)
}

#[cycle(path)]
fn path_in_members(
    alloc: Global,
    members: &Map<String, Json>,
) -> Result<Option<String>, AllocError> {
    for (name, member) in members.iter() {
        if let Some(rest) = path_of_unfit(alloc, member)? {
            return Ok(Some(format!(in alloc; ".{name}{rest}")?));
        }
    }
    Ok(None)
}

/// What is open in a text of JSON: an array, an object, or a member of an object, after its key.
#[derive(Clone, Copy, Drop)]
enum Open {
    Array,
    Object,
    Member,
}

/// Returns `true` if a text is JSON up to a bracket that opens one array or object too many.
fn is_too_deep(alloc: Global, text: &str) -> Result<bool, AllocError> {
    let mut scratch = Scratch::new(alloc);
    let mut reader = Reader::new(text, &mut scratch)?;
    let mut open = Vec::new(alloc);
    'tokens: while let Some(token) = reader.next() {
        if !take(alloc, &mut open, token)? || open.is_empty() {
            return Ok(false);
        }
        if open.len() > MOST_NESTED {
            return Ok(true);
        }
    }
    Ok(false)
}

/// Adds a token to what is open. Returns `false` if it can't come here.
fn take(alloc: Global, open: &mut Vec<Open>, token: Token<'_>) -> Result<bool, AllocError> {
    match (open.pop(), token) {
        (Some(Open::Object), Token::EndObject) | (Some(Open::Array), Token::EndArray) => {}
        (Some(Open::Object), Token::Key(_)) => open.push(Open::Member)?,
        (Some(Open::Array), token) if begins_value(alloc, token) => open.push(Open::Array)?,
        (Some(Open::Member), token) if begins_value(alloc, token) => open.push(Open::Object)?,
        (None, token) if begins_value(alloc, token) => {}
        _ => return Ok(false),
    }
    match token {
        Token::BeginArray => open.push(Open::Array)?,
        Token::BeginObject => open.push(Open::Object)?,
        _ => {}
    }
    Ok(true)
}

/// Returns `true` if a token is a value or begins one.
fn begins_value(alloc: Global, token: Token<'_>) -> bool {
    match token {
        Token::Number(text) => Json::from_str(alloc, text).is_ok(),
        Token::Null | Token::Bool(_) | Token::String(_) | Token::BeginArray | Token::BeginObject =>
            true,
        Token::Key(_) | Token::EndArray | Token::EndObject | Token::Bad => false,
    }
}
