//! Reading conditions.
ghost use Rattle.std.specs.Prelude.{◌≡◌, ◌<◌, ◌≤◌, IfOk};
ghost use Rattle.liquid_error.specs.meaning.Told.{Gives};
ghost use Rattle.liquid_parser.specs.meaning.Cursors.{IsToken, Takes, bytes_left};
ghost use Rattle.liquid_parser.specs.meaning.Handed.{Token, Tokens, or_unexpected};
ghost use Rattle.liquid_parser.specs.meaning.Plugins.{AreTokens};
ghost use Rattle.liquid_std.specs.meaning.conditions.Conditions.{condition_of, test_of};
ghost use Rattle.liquid_std.specs.meaning.conditions.ConditionsGiven.{after_test, condition_given, connective_of, operator_of};
ghost use Rattle.liquid_std.specs.steps.conditions.Tests.{TakesIf, operator_in, test_given};

use crate::conditions::condition::{Condition, Connective, Operator, Test};
use liquid_core::parser::TagToken;
use liquid_core::{Error, TagTokenIter};
use liquid_tags::asked::TOKEN_EXPECTED;
use liquid_tags::if_block::read_condition::comparison_of;
use std::alloc::Global;
use std::mem;

/// Reads all tokens as a condition.
///
/// A missing value is an `Err`, "Token expected". A token that does not fit is an `Err` too, "Unexpected token".
pub fn read_condition(alloc: Global, tokens: TagTokenIter<'_>) -> Result<Condition, Error>
    ensures { (ts : Tokens) → AreTokens tokens.entry ts → Gives condition_of result (condition_given ts) }
{
    let mut tokens = tokens;
    let first = next_test(alloc, &mut tokens)?;
    read_joined(alloc, first, tokens)
}

/// Reads the rest of a condition, after its first test.
fn read_joined(alloc: Global, first: Test, tokens: TagTokenIter<'_>) -> Result<Condition, Error>
    ensures { (ts : Tokens) → AreTokens tokens.entry ts → Gives condition_of result (after_test (test_of first) ts.left) }
{
    let mut tokens = tokens;
    let mut joined = Vec::new(alloc);
    let mut last = first;
    'tests: while let Some(token) = tokens.next() {
        let connective = read_connective(alloc, token)?;
        let test = next_test(alloc, &mut tokens)?;
        joined.push((mem::replace(&mut last, test), connective))?;
    }
    Ok(Condition { joined, last })
}

/// Reads a token as `and` or `or`.
fn read_connective(alloc: Global, token: TagToken<'_>) -> Result<Connective, Error>
    ensures { (t : Token) → IsToken token.entry t → Gives (λ c. c) result (or_unexpected t (connective_of t.text)) }
{
    match connective_of(token.as_str()) {
        Some(connective) => Ok(connective),
        None => Err(token.raise_error(alloc)),
    }
}

/// Reads the next test.
fn next_test(alloc: Global, tokens: &mut TagTokenIter<'_>) -> Result<Test, Error>
    ensures value { (ts : Tokens) → AreTokens tokens.old ts → Takes test_of result tokens.new (test_given ts) }
    ensures shorter { IfOk result (λ test. bytes_left tokens.new < bytes_left tokens.old) }
{
    let left = tokens.next_value(alloc, TOKEN_EXPECTED)?;
    match next_operator(tokens) {
        Some(operator) => {
            let right = tokens.next_value(alloc, TOKEN_EXPECTED)?;
            Ok(Test::Passes(left, operator, right))
        }
        None => Ok(Test::Holds(left)),
    }
}

/// Reads the next token if it is an operator, and leaves it otherwise.
fn next_operator(tokens: &mut TagTokenIter<'_>) -> Option<Operator>
    ensures value { (ts : Tokens) → AreTokens tokens.old ts → TakesIf result tokens.new ts (operator_in ts) }
    ensures shorter { bytes_left tokens.new ≤ bytes_left tokens.old }
{
    let mut rest = *tokens;
    let token = rest.next()?;
    let operator = operator_of(token.as_str())?;
    *tokens = rest;
    Some(operator)
}

fn operator_of(text: &str) -> Option<Operator>
    ensures { result ≡ operator_of text.now }
{
    if text == "contains" {
        return Some(Operator::Contains);
    }
    let comparison = comparison_of(text)?;
    Some(Operator::Compares(comparison))
}

fn connective_of(text: &str) -> Option<Connective>
    ensures { result ≡ connective_of text.now }
{
    if text == "and" {
        Some(Connective::And)
    } else if text == "or" {
        Some(Connective::Or)
    } else {
        None
    }
}
