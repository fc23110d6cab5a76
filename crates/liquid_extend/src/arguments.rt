//! Reading the arguments of a tag.
ghost use Rattle.std.specs.Prelude.{◌≡◌, ◌<◌, ◌≤◌, IfOk, OnOk, map, string_bytes};
ghost use Rattle.liquid_error.specs.meaning.Told.{Gives};
ghost use Rattle.liquid_plugins.specs.meaning.ArgumentsOf.{arguments_of};
ghost use Rattle.liquid_plugins.specs.meaning.ExpressionOf.{expression_of};
ghost use Rattle.liquid_parser.specs.meaning.Cursors.{HandsOutOr, IsToken, Takes, bytes_left};
ghost use Rattle.liquid_parser.specs.meaning.Handed.{Token, Tokens};
ghost use Rattle.liquid_parser.specs.meaning.Plugins.{AreTokens};
ghost use Rattle.liquid_extend.specs.meaning.Arguments.{arguments_from, arguments_given, pairs_given, pairs_of};
ghost use Rattle.liquid_extend.specs.steps.Reading.{added, argument_given, argument_of, first_token, is_value_next, pair_given};
ghost use Rattle.liquid_extend.specs.steps.Reading.{value_given};

use liquid_error::Error;
use liquid_parser::{TagToken, TagTokenIter};
use liquid_plugins::{Expression, FilterArguments};
use std::alloc::{AllocError, Global};

/// The message of a token that is missing.
const TOKEN_EXPECTED: &str = "Token expected";

/// An argument that was read.
#[derive(Drop)]
pub(crate) enum ReadArgument<'a> {
    Positional(Expression),
    Named(&'a str, Expression),
}

/// Reads all tokens as arguments: values, and pairs `name: value`, in any order. Before each there may be a comma.
///
/// A missing token is an `Err`, "Token expected". A token that does not fit is an `Err` too, "Unexpected token".
pub fn read_arguments<'a>(
    alloc: Global,
    tokens: TagTokenIter<'a>,
) -> Result<FilterArguments<'a>, Error>
    ensures { (ts : Tokens) → AreTokens tokens.entry ts → Gives (λ a. arguments_of a) result (arguments_given ts) }
{
    read_from(alloc, true, tokens)
}

/// Reads all tokens as pairs `name: value`. Before each there may be a comma.
///
/// A missing token is an `Err`, "Token expected". A token that does not fit is an `Err` too, "Unexpected token".
pub fn read_pairs(
    alloc: Global,
    tokens: TagTokenIter<'_>,
) -> Result<Vec<(String, Expression)>, Error>
    ensures { (ts : Tokens) → AreTokens tokens.entry ts → Gives pairs_of result (pairs_given ts) }
{
    let arguments = read_from(alloc, false, tokens)?;
    Ok(copy_pairs(alloc, arguments.keyword)?)
}

/// Reads all tokens as arguments: as pairs, and as values too if `takes_values`.
fn read_from<'a>(
    alloc: Global,
    takes_values: bool,
    tokens: TagTokenIter<'a>,
) -> Result<FilterArguments<'a>, Error>
    ensures { (ts : Tokens) → AreTokens tokens.entry ts
        → Gives (λ a. arguments_of a) result (arguments_from takes_values ts.left) }
{
    let mut tokens = tokens;
    let mut arguments = FilterArguments {
        positional: Vec::new(alloc),
        keyword: Vec::new(alloc),
    };
    'arguments: while let Some(token) = tokens.next() {
        let first = first_token(alloc, token, &mut tokens)?;
        let argument = read_argument(alloc, takes_values, first, &mut tokens)?;
        add_argument(&mut arguments, argument)?;
    }
    Ok(arguments)
}

/// Adds an argument to those of its kind.
fn add_argument<'a>(
    arguments: &mut FilterArguments<'a>,
    argument: ReadArgument<'a>,
) -> Result<(), AllocError>
    ensures { OnOk result (arguments_of arguments.new ≡ added (arguments_of arguments.old) (argument_of argument.entry)) }
{
    match argument {
        ReadArgument::Positional(value) => arguments.positional.push(value)?,
        ReadArgument::Named(name, value) => arguments.keyword.push((name, value))?,
    }
    Ok(())
}

/// Returns the first token of an argument: after a comma the next one, and otherwise this one.
fn first_token<'a>(
    alloc: Global,
    token: TagToken<'a>,
    tokens: &mut TagTokenIter<'a>,
) -> Result<TagToken<'a>, Error>
    ensures value { (t : Token) → IsToken token.entry t → (ts : Tokens) → AreTokens tokens.old ts
        → HandsOutOr result tokens.new ts (first_token t ts) }
    ensures shorter { IfOk result (λ t. bytes_left tokens.new ≤ bytes_left tokens.old) }
{
    if token.as_str() == "," {
        tokens.expect_next(alloc, TOKEN_EXPECTED)
    } else {
        Ok(token)
    }
}

/// Reads the argument whose first token this is.
fn read_argument<'a>(
    alloc: Global,
    takes_values: bool,
    first: TagToken<'a>,
    tokens: &mut TagTokenIter<'a>,
) -> Result<ReadArgument<'a>, Error>
    ensures value { (t : Token) → IsToken first.entry t → (ts : Tokens) → AreTokens tokens.old ts
        → Takes (λ a. argument_of a) result tokens.new (argument_given takes_values t ts) }
    ensures shorter { IfOk result (λ a. bytes_left tokens.new ≤ bytes_left tokens.old) }
{
    if is_value_next(takes_values, *tokens) {
        read_value(alloc, first, tokens)
    } else {
        read_pair(alloc, first, tokens)
    }
}

/// Returns `true` if values are taken and the next token is not a colon.
fn is_value_next(takes_values: bool, tokens: TagTokenIter<'_>) -> bool
    ensures { (ts : Tokens) → AreTokens tokens.entry ts → result ≡ is_value_next takes_values ts.left }
{
    let mut tokens = tokens;
    match tokens.next() {
        Some(token) => takes_values && token.as_str() != ":",
        None => takes_values,
    }
}

/// Reads a token as a value.
fn read_value<'a>(
    alloc: Global,
    first: TagToken<'a>,
    tokens: &mut TagTokenIter<'a>,
) -> Result<ReadArgument<'a>, Error>
    ensures value { (t : Token) → IsToken first.entry t → (ts : Tokens) → AreTokens tokens.old ts
        → Takes (λ a. argument_of a) result tokens.new (value_given t ts) }
    ensures same { tokens.new ≡ tokens.old }
{
    let value = first.expect_value(alloc)?.into_result(alloc)?;
    Ok(ReadArgument::Positional(value))
}

/// Reads a token as a name, and after it a colon and a value.
fn read_pair<'a>(
    alloc: Global,
    first: TagToken<'a>,
    tokens: &mut TagTokenIter<'a>,
) -> Result<ReadArgument<'a>, Error>
    ensures value { (t : Token) → IsToken first.entry t → (ts : Tokens) → AreTokens tokens.old ts
        → Takes (λ a. argument_of a) result tokens.new (pair_given t ts) }
    ensures shorter { IfOk result (λ a. bytes_left tokens.new ≤ bytes_left tokens.old) }
{
    let name = first.expect_identifier().into_result(alloc)?;
    tokens.next_str(alloc, TOKEN_EXPECTED, ":")?;
    let value = tokens.next_value(alloc, TOKEN_EXPECTED)?;
    Ok(ReadArgument::Named(name, value))
}

/// Returns the pairs with owned names.
fn copy_pairs(
    alloc: Global,
    pairs: Vec<(&str, Expression)>,
) -> Result<Vec<(String, Expression)>, AllocError>
    ensures { IfOk result (λ v. pairs_of v ≡ map (λ p. (p.0.now, expression_of p.1)) pairs.entry.items) }
{
    let mut owned = Vec::with_capacity(alloc, pairs.len())?;
    for (name, value) in pairs {
        owned.push((String::from_str(alloc, name)?, value))?;
    }
    Ok(owned)
}
