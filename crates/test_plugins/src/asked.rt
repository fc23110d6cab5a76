//! What the test tags and blocks expect of their tokens.
ghost use Rattle.std.specs.Prelude.{string_bytes};
ghost use Rattle.liquid_error.specs.meaning.Told.{Gives};
ghost use Rattle.liquid_plugins.specs.meaning.ExpressionOf.{expression_of};
ghost use Rattle.liquid_parser.specs.meaning.Handed.{Tokens};
ghost use Rattle.liquid_parser.specs.meaning.Plugins.{AreTokens};
ghost use Rattle.test_plugins.specs.meaning.Asked.{name_alone, name_and_value, nothing_for};

use liquid_error::Error;
use liquid_parser::TagTokenIter;
use liquid_plugins::{Expression, Meant};
use std::alloc::Global;

/// The message of a token that is missing.
const TOKEN_EXPECTED: &str = "Token expected";

/// Returns this node, if there is no token.
pub(crate) fn alone<N: Meant + Drop>(
    alloc: Global,
    tokens: TagTokenIter<'_>,
    node: N,
) -> Result<N, Error>
    ensures { (ts : Tokens) → AreTokens tokens.entry ts → Gives N.shape result (nothing_for (N.shape node) ts) }
{
    tokens.expect_nothing(alloc)?;
    Ok(node)
}

/// Reads a name, and no token after it.
pub(crate) fn name_alone(alloc: Global, tokens: TagTokenIter<'_>) -> Result<String, Error>
    ensures { (ts : Tokens) → AreTokens tokens.entry ts → Gives (λ name. string_bytes name) result (name_alone ts) }
{
    let mut tokens = tokens;
    let name = tokens.next_identifier(alloc, TOKEN_EXPECTED)?;
    tokens.expect_nothing(alloc)?;
    Ok(String::from_str(alloc, name)?)
}

/// Reads a name and a value, and no token after them. The value is in a box, since every node has room for the largest
/// one.
pub(crate) fn name_and_value(
    alloc: Global,
    tokens: TagTokenIter<'_>,
) -> Result<(String, Box<Expression>), Error>
    ensures { (ts : Tokens) → AreTokens tokens.entry ts
        → Gives (λ given. (string_bytes given.0, expression_of given.1.value)) result (name_and_value ts) }
{
    let mut tokens = tokens;
    let name = tokens.next_identifier(alloc, TOKEN_EXPECTED)?;
    let value = tokens.next_value(alloc, TOKEN_EXPECTED)?;
    tokens.expect_nothing(alloc)?;
    Ok((String::from_str(alloc, name)?, Box::new(alloc, value)?))
}
