//! A small part of YAML: a line is `name: value`, a comment or empty.
use crate::front::FrontFault;
use liquid_scalar::Scalar;
use liquid_value::{Array, Object, SharedArray, Value};
use std::alloc::{AllocError, Global};

/// What can't begin a text without quotes.
const MARKS: &str = "[]{},&*!|>%@`#\"'";

/// Returns the names of lines, of which the first is the second of its file.
pub(crate) fn read_lines(alloc: Global, lines: &[&str]) -> Result<Object, FrontFault> {
    let mut names = Object::new(alloc);
    let mut number: usize = 1;
    for line in lines {
        number = number.saturating_add(1);
        let words = (*line).trim_end();
        if !words.trim().is_empty() && !words.trim().starts_with("#") {
            read_line(alloc, words, number, &mut names)?;
        }
    }
    Ok(names)
}

/// Puts the member of a line.
fn read_line(
    alloc: Global,
    line: &str,
    number: usize,
    names: &mut Object,
) -> Result<(), FrontFault> {
    let Some((name, rest)) = line.split_once(":") else {
        return Err(FrontFault::Line(number, "a line is 'name: value' or a comment"));
    };
    if !is_name(name) {
        return Err(FrontFault::Line(
            number,
            "a name has letters, digits, '_' and '-', and no space before it",
        ));
    }
    if !rest.is_empty() && !rest.starts_with(" ") {
        return Err(FrontFault::Line(number, "there is no space after the colon"));
    }
    let value = read_value(alloc, rest.trim(), number)?;
    drop(names.insert(String::from_str(alloc, name)?, value)?);
    Ok(())
}

fn is_name(name: &str) -> bool {
    for character in name.chars() {
        if !character.is_ascii_alphanumeric() && character != '_' && character != '-' {
            return false;
        }
    }
    !name.is_empty()
}

/// Returns the value of a text: a list in brackets, or a scalar.
fn read_value(alloc: Global, words: &str, number: usize) -> Result<Value, FrontFault> {
    let Some(rest) = words.strip_prefix("[") else {
        return read_scalar(alloc, words, number);
    };
    let Some(inner) = rest.strip_suffix("]") else {
        return Err(FrontFault::Line(number, "a list ends with ']'"));
    };
    let mut items: Array = Vec::new(alloc);
    if !inner.trim().is_empty() {
        for piece in inner.split(",") {
            items.push(read_item(alloc, piece.trim(), number)?)?;
        }
    }
    Ok(Value::Array(SharedArray::shared(alloc, items)?))
}

/// Returns an item of a list.
fn read_item(alloc: Global, piece: &str, number: usize) -> Result<Value, FrontFault> {
    if piece.is_empty() || piece.contains("[") || piece.contains("]") {
        return Err(FrontFault::Line(number, "an item of a list is not empty and has no brackets"));
    }
    read_scalar(alloc, piece, number)
}

/// Returns the value of a text in quotes or without them.
fn read_scalar(alloc: Global, words: &str, number: usize) -> Result<Value, FrontFault> {
    if let Some(rest) = words.strip_prefix("\"") {
        return match rest.split_once("\"") {
            Some((text, "")) if !text.contains("\\") => Ok(text_of(alloc, text)?),
            _ => Err(FrontFault::Line(
                number,
                "a text in quotes ends with its second quote and has no backslash",
            )),
        };
    }
    if let Some(rest) = words.strip_prefix("'") {
        return match rest.split_once("'") {
            Some((text, "")) => Ok(text_of(alloc, text)?),
            _ => Err(FrontFault::Line(number, "a text in quotes ends with its second quote")),
        };
    }
    if is_plain(words) {
        Ok(read_word(alloc, words)?)
    } else {
        Err(FrontFault::Line(number, "such a text has to be between quotes"))
    }
}

/// Returns whether a text needs no quotes.
fn is_plain(words: &str) -> bool {
    if let Some(first) = words.chars().next() {
        if MARKS.contains(first) {
            return false;
        }
    }
    words != "-"
        && !words.starts_with("- ")
        && !words.contains(": ")
        && !words.contains(" #")
        && !words.ends_with(":")
}

/// Returns the value of a word, an integer or a text.
fn read_word(alloc: Global, words: &str) -> Result<Value, AllocError> {
    match words {
        "" | "null" | "~" => Ok(Value::Nil),
        "true" => Ok(Value::Scalar(Scalar::Bool(true))),
        "false" => Ok(Value::Scalar(Scalar::Bool(false))),
        _ => match words.parse::<i64>() {
            Ok(number) => Ok(Value::Scalar(Scalar::Integer(number))),
            Err(_) => text_of(alloc, words),
        },
    }
}

fn text_of(alloc: Global, text: &str) -> Result<Value, AllocError> {
    Ok(Value::Scalar(Scalar::Str(String::from_str(alloc, text)?)))
}
