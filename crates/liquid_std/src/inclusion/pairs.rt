//! Reading pairs, and words before them.
ghost use Rattle.std.specs.Prelude.{◌≡◌, ◌<◌, ◌≤◌, IfOk, IfSome};
ghost use Rattle.liquid_error.specs.meaning.Told.{Gives};
ghost use Rattle.liquid_parser.specs.meaning.Cursors.{IsToken, Takes, bytes_left};
ghost use Rattle.liquid_parser.specs.meaning.Handed.{Token, Tokens};
ghost use Rattle.liquid_parser.specs.meaning.Plugins.{AreTokens};
ghost use Rattle.liquid_tags.specs.meaning.Partials.{pair_of};
ghost use Rattle.liquid_std.specs.meaning.inclusion.CallsGiven.{after_word, begin_with_colon, pairs_from, pairs_of};
ghost use Rattle.liquid_std.specs.steps.inclusion.Pairs.{AreLeft, Finds, next_first, pair_given};

use liquid_core::parser::TagToken;
use liquid_core::{Error, Expression, TagTokenIter};
use liquid_tags::asked::TOKEN_EXPECTED;
use std::alloc::Global;

/// Reads all tokens as pairs `name: value`. Before each pair, and after the last, there may be a comma.
///
/// A missing token is an `Err`, "Token expected". A token that does not fit is an `Err` too, "Unexpected token".
pub fn read_pairs(
    alloc: Global,
    tokens: TagTokenIter<'_>,
) -> Result<Vec<(String, Expression)>, Error>
    ensures { (ts : Tokens) → AreTokens tokens.entry ts → Gives pairs_of result (pairs_from ts.left) }
{
    let mut tokens = tokens;
    let mut pairs = Vec::new(alloc);
    'pairs: while let Some(first) = next_first(&mut tokens) {
        let pair = read_pair(alloc, first, &mut tokens)?;
        pairs.push(pair)?;
    }
    Ok(pairs)
}

/// Removes the next token, or the one after it if that is a comma, and returns it.
fn next_first<'a>(tokens: &mut TagTokenIter<'a>) -> Option<TagToken<'a>>
    ensures value { (ts : Tokens) → AreTokens tokens.old ts → Finds result tokens.new (next_first ts) }
    ensures shorter { IfSome result (λ t. bytes_left tokens.new < bytes_left tokens.old) }
{
    let token = tokens.next()?;
    if token.as_str() == "," {
        tokens.next()
    } else {
        Some(token)
    }
}

/// Reads the pair whose first token this is.
fn read_pair(
    alloc: Global,
    first: TagToken<'_>,
    tokens: &mut TagTokenIter<'_>,
) -> Result<(String, Expression), Error>
    ensures value { (t : Token) → IsToken first.entry t → (ts : Tokens) → AreTokens tokens.old ts
        → Takes pair_of result tokens.new (pair_given t ts) }
    ensures shorter { IfOk result (λ pair. bytes_left tokens.new ≤ bytes_left tokens.old) }
{
    let name = first.expect_identifier().into_result(alloc)?;
    tokens.next_str(alloc, TOKEN_EXPECTED, ":")?;
    let value = tokens.next_value(alloc, TOKEN_EXPECTED)?;
    Ok((String::from_str(alloc, name)?, value))
}

/// Returns the tokens after a word, if the word comes next. With a colon after it the word is the name of a pair.
pub(crate) fn after_word<'a>(tokens: TagTokenIter<'a>, word: &str) -> Option<TagTokenIter<'a>>
    ensures { (ts : Tokens) → AreTokens tokens.entry ts → AreLeft result (after_word word.now ts) }
{
    let mut rest = tokens;
    let token = rest.next()?;
    if token.as_str() == word && !begin_with_colon(rest) {
        Some(rest)
    } else {
        None
    }
}

/// Returns `true` if the next token is a colon.
fn begin_with_colon(tokens: TagTokenIter<'_>) -> bool
    ensures { (ts : Tokens) → AreTokens tokens.entry ts → result ≡ begin_with_colon ts.left }
{
    let mut tokens = tokens;
    match tokens.next() {
        Some(token) => token.as_str() == ":",
        None => false,
    }
}
