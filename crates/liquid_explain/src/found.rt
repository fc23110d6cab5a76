//! What is there where a text can't be read.

use liquid_grammar::match_identifier;

// Signs of several characters, a longer one before those that it begins with.
const SIGNS: [&str; 25] = [
    "-}}", "-%}", "-}", "->", "--", "}}", "%}", "{{", "{%", "&&", "||", "==", "=>", "!=", "<=",
    "<>", ">=", "<<", ">>", "++", "**", "//", "..", "::", "??",
];

/// Returns the sign, the word, the number or the text in quotes that the text begins with, and otherwise its first
/// character.
pub(crate) fn found_at(text: &str) -> &str {
    for sign in SIGNS {
        if text.starts_with(sign) {
            return sign;
        }
    }
    if let Some((word, _)) = match_identifier(text) {
        return word;
    }
    let length = match text.chars().next() {
        None => 0,
        Some(first) if first.is_ascii_digit() => number_length(text),
        Some(first) if first == '"' || first == '\'' => quoted_length(text, first),
        Some(first) => first.len_utf8(),
    };
    text.get(..length).unwrap_or("")
}

/// Returns how many bytes a number has, with the letters and the fraction after it.
fn number_length(text: &str) -> usize {
    for (at, character) in text.char_indices() {
        let is_fraction = character == '.'
            && begins_with_digit(text.get(at.saturating_add(1)..).unwrap_or(""));
        if !is_fraction && !character.is_ascii_alphanumeric() && character != '_' {
            return at;
        }
    }
    text.len()
}

fn begins_with_digit(text: &str) -> bool {
    match text.chars().next() {
        Some(first) => first.is_ascii_digit(),
        None => false,
    }
}

/// Returns how many bytes a text in quotes has, if its end is on the same line, and otherwise 1.
fn quoted_length(text: &str, quote: char) -> usize {
    for (at, character) in text.char_indices().skip(1) {
        if character == '\n' {
            return 1;
        }
        if character == quote {
            return at.saturating_add(1);
        }
    }
    1
}
