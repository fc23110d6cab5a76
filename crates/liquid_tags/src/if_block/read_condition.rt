//! Reading conditions.
ghost use Rattle.std.specs.Prelude.{◌≡◌};
ghost use Rattle.liquid_error.specs.meaning.Told.{Gives};
ghost use Rattle.liquid_plugins.specs.meaning.ExpressionOf.{expression_of};
ghost use Rattle.liquid_parser.specs.meaning.Handed.{Tokens};
ghost use Rattle.liquid_parser.specs.meaning.Plugins.{AreTokens};
ghost use Rattle.liquid_tags.specs.meaning.Conditions.{condition_of};
ghost use Rattle.liquid_tags.specs.meaning.ConditionsGiven.{following_value, comparison_of, condition_given};

use crate::asked::{TOKEN_EXPECTED, alone};
use crate::if_block::condition::{Comparison, Condition};
use liquid_core::{Error, Expression, TagTokenIter};
use std::alloc::Global;

/// Returns the condition that all tokens make.
pub(crate) fn read_condition(alloc: Global, tokens: TagTokenIter<'_>) -> Result<Condition, Error>
    ensures { (ts : Tokens) → AreTokens tokens.entry ts → Gives condition_of result (condition_given ts) }
{
    let mut tokens = tokens;
    let left = tokens.next_value(alloc, TOKEN_EXPECTED)?;
    following_value(alloc, left, tokens)
}

/// Returns the condition that begins with this value.
fn following_value(
    alloc: Global,
    left: Expression,
    tokens: TagTokenIter<'_>,
) -> Result<Condition, Error>
    ensures { (ts : Tokens) → AreTokens tokens.entry ts → Gives condition_of result (following_value (expression_of left) ts.left) }
{
    let mut tokens = tokens;
    match tokens.next() {
        None => Ok(Condition::Holds(left)),
        Some(token) => match comparison_of(token.as_str()) {
            None => Err(token.raise_error(alloc)),
            Some(comparison) => {
                let right = tokens.next_value(alloc, TOKEN_EXPECTED)?;
                alone(alloc, tokens, Condition::Compares(left, comparison, right))
            }
        },
    }
}

/// Returns the comparison that a token's text means, if it means one.
pub fn comparison_of(text: &str) -> Option<Comparison>
    ensures { result ≡ comparison_of text.now }
{
    if text == "==" {
        Some(Comparison::Equal)
    } else if text == "!=" || text == "<>" {
        Some(Comparison::Unequal)
    } else if text == "<" {
        Some(Comparison::Less)
    } else if text == ">" {
        Some(Comparison::Greater)
    } else if text == "<=" {
        Some(Comparison::AtMost)
    } else if text == ">=" {
        Some(Comparison::AtLeast)
    } else {
        None
    }
}
