//! The names that the text of an element reads.
ghost use Rattle.std.specs.Prelude.{◌≤◌, length};

use crate::uses::{Origin, Uses};
use liquid_grammar::match_identifier;
use std::alloc::{AllocError, Global};

/// The words that are literals, or that tags have between their parts.
const WORDS: [&str; 15] = [
    "and", "as", "blank", "by", "contains", "empty", "false", "for", "in", "nil", "null", "or",
    "reversed", "true", "with",
];

/// Adds the names that a text reads. So many bytes follow its element.
pub(crate) fn add_names(
    alloc: Global,
    uses: &mut Uses,
    origin: Origin<'_>,
    text: &str,
    left: usize,
) -> Result<(), AllocError> {
    let mut rest = text;
    let mut is_name = true;
    'parts: while !rest.is_empty() {
        let mut characters = rest.chars();
        let Some(first) = characters.next() else {
            break;
        };
        if let Some((word, following)) = match_identifier(rest) {
            if is_name && !is_key(following) && !WORDS.contains(&word) {
                add_name(alloc, uses, origin, word, left.saturating_add(rest.len()))?;
            }
            is_name = true;
            rest = following;
        } else {
            if !first.is_whitespace() {
                is_name = first != '.' && first != '|';
            }
            rest = after_text(characters.as_str(), first);
        }
    }
    Ok(())
}

/// Returns `true` if a colon or an equals sign follows: the word before it is the name of an argument, or gets a value.
pub(crate) fn is_key(following: &str) -> bool {
    let following = following.trim_start();
    following.starts_with(":") || following.starts_with("=") && !following.starts_with("==")
}

/// Returns what follows a text between quotes, of which the first was read, or else all that follows.
fn after_text(following: &str, first: char) -> &str
    ensures { length result.now ≤ length following.now }
{
    if first == '"' || first == '\'' {
        match following.split_once(first) {
            Some((_, after)) => after,
            None => "",
        }
    } else {
        following
    }
}

/// Adds a name, if it is the first of its kind.
fn add_name(
    alloc: Global,
    uses: &mut Uses,
    origin: Origin<'_>,
    word: &str,
    left: usize,
) -> Result<(), AllocError> {
    if uses.names.contains_key(word) {
        return Ok(());
    }
    let place = origin.place_before(alloc, left)?;
    uses.names.insert(String::from_str(alloc, word)?, place)?;
    Ok(())
}
