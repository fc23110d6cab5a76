//! Reading calls of partials.
ghost use Rattle.std.specs.Prelude.{option_map, string_bytes};
ghost use Rattle.liquid_error.specs.meaning.Told.{Gives};
ghost use Rattle.liquid_parser.specs.meaning.Handed.{Tokens};
ghost use Rattle.liquid_parser.specs.meaning.Plugins.{AreTokens};
ghost use Rattle.liquid_plugins.specs.meaning.ExpressionOf.{expression_of};
ghost use Rattle.liquid_std.specs.meaning.inclusion.CallsGiven.{after_front, after_name, alias_given, alone_given};
ghost use Rattle.liquid_std.specs.meaning.inclusion.CallsGiven.{call_given, for_given, series_passed};
ghost use Rattle.liquid_std.specs.meaning.inclusion.CallsGiven.{value_passed, with_given, with_pairs};
ghost use Rattle.liquid_std.specs.meaning.inclusion.Calls.{read_of};
ghost use Rattle.liquid_std.specs.steps.inclusion.Reading.{front_of};

use crate::inclusion::calls::{Manner, PartialCall};
use crate::inclusion::pairs::{after_word, read_pairs};
use liquid_core::{Error, Expression, TagTokenIter};
use liquid_tags::asked::TOKEN_EXPECTED;
use liquid_tags::block_plugins::next_series;
use liquid_tags::{Call, Inclusion, Series};
use std::alloc::Global;

/// A call that was read.
#[derive(Drop)]
pub enum ReadCall {
    /// A call without a value.
    Alone(Call),
    /// A call with a value.
    Passing(PartialCall),
}

/// What comes before the pairs of a call with a value.
#[derive(Drop)]
pub(crate) struct Front {
    pub(crate) inclusion: Inclusion,
    pub(crate) name: Expression,
    pub(crate) manner: Manner,
    pub(crate) series: Series,
}

/// Reads a call from all tokens: a value that names the partial, perhaps `with` or `for`, what is passed and `as` with
/// its name, and pairs. Commas before, between and after the pairs are passed over.
///
/// A missing token is an `Err`, "Token expected". A token that does not fit is an `Err` too, "Unexpected token".
pub fn read_call(
    alloc: Global,
    inclusion: Inclusion,
    tokens: TagTokenIter<'_>,
) -> Result<ReadCall, Error>
    ensures { (ts : Tokens) → AreTokens tokens.entry ts → Gives read_of result (call_given inclusion ts) }
{
    let mut tokens = tokens;
    let name = tokens.next_value(alloc, TOKEN_EXPECTED)?;
    read_passed(alloc, inclusion, name, tokens)
}

/// Reads what comes after the name of the partial.
fn read_passed(
    alloc: Global,
    inclusion: Inclusion,
    name: Expression,
    tokens: TagTokenIter<'_>,
) -> Result<ReadCall, Error>
    ensures { (ts : Tokens) → AreTokens tokens.entry ts
        → Gives read_of result (after_name inclusion (expression_of name) ts) }
{
    if let Some(rest) = after_word(tokens, "with") {
        return read_with(alloc, inclusion, name, rest);
    }
    match after_word(tokens, "for") {
        Some(rest) => read_for(alloc, inclusion, name, rest),
        None => read_alone(alloc, name, tokens),
    }
}

/// Reads what comes after `with`.
fn read_with(
    alloc: Global,
    inclusion: Inclusion,
    name: Expression,
    tokens: TagTokenIter<'_>,
) -> Result<ReadCall, Error>
    ensures { (ts : Tokens) → AreTokens tokens.entry ts
        → Gives read_of result (with_given inclusion (expression_of name) ts) }
{
    match inclusion {
        Inclusion::Include => read_value(alloc, Inclusion::Include, Manner::Items, name, tokens),
        Inclusion::Render => read_value(alloc, Inclusion::Render, Manner::Whole, name, tokens),
    }
}

/// Reads what comes after `for`. In an `include` it is the same as after `with`.
fn read_for(
    alloc: Global,
    inclusion: Inclusion,
    name: Expression,
    tokens: TagTokenIter<'_>,
) -> Result<ReadCall, Error>
    ensures { (ts : Tokens) → AreTokens tokens.entry ts
        → Gives read_of result (for_given inclusion (expression_of name) ts) }
{
    match inclusion {
        Inclusion::Include => read_value(alloc, Inclusion::Include, Manner::Items, name, tokens),
        Inclusion::Render => read_series(alloc, name, tokens),
    }
}

/// Reads a call without a value, after the name of its partial.
fn read_alone(alloc: Global, name: Expression, tokens: TagTokenIter<'_>) -> Result<ReadCall, Error>
    ensures { (ts : Tokens) → AreTokens tokens.entry ts → Gives read_of result (alone_given (expression_of name) ts) }
{
    let pairs = read_pairs(alloc, tokens)?;
    Ok(ReadCall::Alone(Call { name, pairs }))
}

/// Reads a call that passes one value, from that value on.
fn read_value(
    alloc: Global,
    inclusion: Inclusion,
    manner: Manner,
    name: Expression,
    tokens: TagTokenIter<'_>,
) -> Result<ReadCall, Error>
    ensures { (ts : Tokens) → AreTokens tokens.entry ts
        → Gives read_of result (value_passed inclusion manner (expression_of name) ts) }
{
    let mut tokens = tokens;
    let value = tokens.next_value(alloc, TOKEN_EXPECTED)?;
    let front = Front {
        inclusion,
        name,
        manner,
        series: Series::Of(value),
    };
    read_rest(alloc, front, tokens)
}

/// Reads a `render` that goes over a value or a range, from that on.
fn read_series(alloc: Global, name: Expression, tokens: TagTokenIter<'_>) -> Result<ReadCall, Error>
    ensures { (ts : Tokens) → AreTokens tokens.entry ts → Gives read_of result (series_passed (expression_of name) ts) }
{
    let mut tokens = tokens;
    let series = next_series(alloc, &mut tokens)?;
    let front = Front {
        inclusion: Inclusion::Render,
        name,
        manner: Manner::Loop,
        series,
    };
    read_rest(alloc, front, tokens)
}

/// Reads what comes after the value that a call passes: perhaps `as` and a name, and pairs.
fn read_rest(alloc: Global, front: Front, tokens: TagTokenIter<'_>) -> Result<ReadCall, Error>
    ensures { (ts : Tokens) → AreTokens tokens.entry ts → Gives read_of result (after_front (front_of front) ts) }
{
    match after_word(tokens, "as") {
        Some(rest) => read_alias(alloc, front, rest),
        None => read_with_pairs(alloc, front, None, tokens),
    }
}

/// Reads what comes after `as`: a name, and pairs.
fn read_alias(alloc: Global, front: Front, tokens: TagTokenIter<'_>) -> Result<ReadCall, Error>
    ensures { (ts : Tokens) → AreTokens tokens.entry ts → Gives read_of result (alias_given (front_of front) ts) }
{
    let mut tokens = tokens;
    let alias = tokens.next_identifier(alloc, TOKEN_EXPECTED)?;
    let alias = String::from_str(alloc, alias)?;
    read_with_pairs(alloc, front, Some(alias), tokens)
}

/// Reads the pairs of a call that passes a value.
fn read_with_pairs(
    alloc: Global,
    front: Front,
    alias: Option<String>,
    tokens: TagTokenIter<'_>,
) -> Result<ReadCall, Error>
    ensures { (ts : Tokens) → AreTokens tokens.entry ts
        → Gives read_of result (with_pairs (front_of front) (option_map (λ s. string_bytes s) alias) ts) }
{
    let pairs = read_pairs(alloc, tokens)?;
    Ok(ReadCall::Passing(PartialCall {
        inclusion: front.inclusion,
        name: front.name,
        manner: front.manner,
        series: front.series,
        alias,
        pairs,
    }))
}
