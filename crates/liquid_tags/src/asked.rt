//! What tags and blocks expect of their tokens.
ghost use Rattle.liquid_error.specs.meaning.Told.{Gives};
ghost use Rattle.liquid_parser.specs.meaning.Handed.{Tokens};
ghost use Rattle.liquid_parser.specs.meaning.Plugins.{AreTokens};
ghost use Rattle.liquid_tags.specs.meaning.Asked.{alone};

use liquid_core::parser::Meant;
use liquid_core::{Error, TagTokenIter};
use std::alloc::Global;

/// The message of a token that is missing.
pub const TOKEN_EXPECTED: &str = "Token expected";

/// Returns the node, if no token is left. Another token is the error "Unexpected token".
pub fn alone<N: Meant + Drop>(alloc: Global, tokens: TagTokenIter<'_>, node: N) -> Result<N, Error>
    ensures { (ts : Tokens) → AreTokens tokens.entry ts → Gives N.shape result (alone (N.shape node) ts) }
{
    tokens.expect_nothing(alloc)?;
    Ok(node)
}
