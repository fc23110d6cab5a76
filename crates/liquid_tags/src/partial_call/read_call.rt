//! Reading the calls of partials.
ghost use Rattle.std.specs.Prelude.{◌<◌, map, IfOk};
ghost use Rattle.liquid_error.specs.meaning.Told.{Gives};
ghost use Rattle.liquid_parser.specs.meaning.Cursors.{IsToken, Takes, bytes_left};
ghost use Rattle.liquid_parser.specs.meaning.Handed.{Token, Tokens};
ghost use Rattle.liquid_parser.specs.meaning.Plugins.{AreTokens};
ghost use Rattle.liquid_tags.specs.meaning.Partials.{call_of, pair_of};
ghost use Rattle.liquid_tags.specs.meaning.CallsGiven.{call_given, comma, pair_given, pairs_given};

use crate::asked::TOKEN_EXPECTED;
use crate::partial_call::call::Call;
use liquid_core::parser::TagToken;
use liquid_core::{Error, Expression, TagTokenIter};
use std::alloc::Global;

/// Returns the call that all tokens make.
pub(crate) fn read_call(alloc: Global, tokens: TagTokenIter<'_>) -> Result<Call, Error>
    ensures { (ts : Tokens) → AreTokens tokens.entry ts → Gives call_of result (call_given ts) }
{
    let mut tokens = tokens;
    let name = tokens.next_value(alloc, TOKEN_EXPECTED)?;
    let pairs = read_pairs(alloc, tokens)?;
    Ok(Call { name, pairs })
}

/// Returns the pairs that all tokens make.
fn read_pairs(alloc: Global, tokens: TagTokenIter<'_>) -> Result<Vec<(String, Expression)>, Error>
    ensures { (ts : Tokens) → AreTokens tokens.entry ts → Gives (λ v. map pair_of v.items) result (pairs_given ts.left) }
{
    let mut tokens = tokens;
    let mut pairs = Vec::new(alloc);
    'pairs: while let Some(comma) = tokens.next() {
        read_comma(alloc, comma)?;
        let pair = read_pair(alloc, &mut tokens)?;
        pairs.push(pair)?;
    }
    Ok(pairs)
}

/// Checks that the token is a comma.
fn read_comma(alloc: Global, token: TagToken<'_>) -> Result<(), Error>
    ensures { (t : Token) → IsToken token.entry t → Gives (λ u. u) result (comma t) }
{
    token.expect_str(",").into_result(alloc)
}

/// Reads the pair that the next tokens make.
fn read_pair(alloc: Global, tokens: &mut TagTokenIter<'_>) -> Result<(String, Expression), Error>
    ensures value { (ts : Tokens) → AreTokens tokens.old ts → Takes pair_of result tokens.new (pair_given ts) }
    ensures shorter { IfOk result (λ pair. bytes_left tokens.new < bytes_left tokens.old) }
{
    let name = tokens.next_identifier(alloc, TOKEN_EXPECTED)?;
    tokens.next_str(alloc, TOKEN_EXPECTED, ":")?;
    let value = tokens.next_value(alloc, TOKEN_EXPECTED)?;
    Ok((String::from_str(alloc, name)?, value))
}
