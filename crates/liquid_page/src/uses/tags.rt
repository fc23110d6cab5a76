//! What tags bind, and the partials that they name.

use crate::uses::Uses;
use crate::uses::names::is_key;
use liquid_grammar::{Literal, TokenKind, TokenParts, match_identifier, next_token};
use std::alloc::{AllocError, Global};

/// The tags whose first token is a name that gets a value.
const BINDING: [&str; 6] = [
    "assign",
    "capture",
    "decrement",
    "for",
    "increment",
    "tablerow",
];

/// The tags whose first token names a partial. The tag `seo` of Jekyll always calls the partial of that name.
const CALLING: [&str; 4] = ["include", "include_cached", "include_relative", "render"];

/// Adds what a tag binds, and the partial that it names.
pub(crate) fn add_tag(
    alloc: Global,
    uses: &mut Uses,
    name: &str,
    tokens: &str,
) -> Result<(), AllocError> {
    if BINDING.contains(&name) {
        return add_first(alloc, uses, tokens);
    }
    if CALLING.contains(&name) {
        add_partial(alloc, uses, tokens)?;
        return add_pairs(alloc, uses, tokens);
    }
    if name == "seo" {
        uses.partials.insert(String::from_str(alloc, name)?)?;
    }
    Ok(())
}

/// Adds the name that the first token is.
fn add_first(alloc: Global, uses: &mut Uses, tokens: &str) -> Result<(), AllocError> {
    if let Some(token) = next_token(tokens) {
        if let Some((name, _)) = match_identifier(token.text) {
            uses.bound.insert(String::from_str(alloc, name)?)?;
        }
    }
    Ok(())
}

/// Adds the partial that the first token names. A value that the partial is given without a name has the partial's.
fn add_partial(alloc: Global, uses: &mut Uses, tokens: &str) -> Result<(), AllocError> {
    let Some(token) = next_token(tokens) else {
        return Ok(());
    };
    match token.parts {
        TokenParts::Chain(TokenKind::Literal(Literal::Text(name))) => {
            uses.partials.insert(String::from_str(alloc, name)?)?;
            let own = name.rsplit('/').next().unwrap_or(name);
            uses.bound.insert(String::from_str(alloc, own)?)?;
        }
        _ => uses.has_dynamic = true,
    }
    Ok(())
}

/// Adds the names of arguments, and those after `as`.
fn add_pairs(alloc: Global, uses: &mut Uses, tokens: &str) -> Result<(), AllocError> {
    let mut rest = tokens;
    let mut follows_as = false;
    'tokens: while let Some(token) = next_token(rest) {
        rest = token.rest;
        if let Some((name, _)) = match_identifier(token.text) {
            if is_key(rest) || follows_as {
                uses.bound.insert(String::from_str(alloc, name)?)?;
            }
        }
        follows_as = token.text == "as";
    }
    Ok(())
}
