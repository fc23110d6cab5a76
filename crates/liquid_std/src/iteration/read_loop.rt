//! Reading loops.
ghost use Rattle.std.specs.Prelude.{◌≡◌, ◌<◌, ◌≤◌, IfOk};
ghost use Rattle.liquid_error.specs.meaning.Told.{Gives};
ghost use Rattle.liquid_parser.specs.meaning.Cursors.{IsToken, Takes, Tries, bytes_left};
ghost use Rattle.liquid_parser.specs.meaning.Handed.{Token, Tokens};
ghost use Rattle.liquid_parser.specs.meaning.Plugins.{AreTokens};
ghost use Rattle.liquid_plugins.specs.meaning.ExpressionOf.{expression_of};
ghost use Rattle.liquid_tags.specs.meaning.Asked.{next_as};
ghost use Rattle.liquid_tags.specs.meaning.CallsGiven.{comma};
ghost use Rattle.liquid_std.specs.meaning.iteration.Loops.{loop_of};
ghost use Rattle.liquid_std.specs.meaning.iteration.Options.{options_of};
ghost use Rattle.liquid_std.specs.meaning.iteration.OptionsGiven.{expect_argument, loop_given, no_options};
ghost use Rattle.liquid_std.specs.meaning.iteration.OptionsGiven.{option_named, options_from, range_named};
ghost use Rattle.liquid_std.specs.steps.iteration.Reading.{argument_given, option_given};

use crate::iteration::loops::Loop;
use crate::iteration::options::{LoopBlock, LoopOption, Options};
use liquid_core::parser::{TagToken, TryMatchToken};
use liquid_core::{Error, Expression, TagTokenIter};
use liquid_tags::asked::TOKEN_EXPECTED;
use liquid_tags::block_plugins::next_series;
use std::alloc::{AllocError, Global};

/// Reads a loop from all tokens: a name, `in`, a range or a value, and the options that the block takes. Commas before,
/// between and after the options are passed over.
///
/// A missing token is an `Err`, "Token expected". A token that does not fit, such as an option that is given twice, is an
/// `Err` too, "Unexpected token".
pub fn read_loop(alloc: Global, block: LoopBlock, tokens: TagTokenIter<'_>) -> Result<Loop, Error>
    ensures { (ts : Tokens) → AreTokens tokens.entry ts → Gives loop_of result (loop_given block ts) }
{
    let mut tokens = tokens;
    let name = tokens.next_identifier(alloc, TOKEN_EXPECTED)?;
    tokens.next_str(alloc, TOKEN_EXPECTED, "in")?;
    let series = next_series(alloc, &mut tokens)?;
    let options = read_options(alloc, block, tokens)?;
    let name = String::from_str(alloc, name)?;
    Ok(Loop {
        name,
        series,
        options,
    })
}

/// Reads options from all tokens. Commas before, between and after them are passed over.
fn read_options(alloc: Global, block: LoopBlock, tokens: TagTokenIter<'_>) -> Result<Options, Error>
    ensures { (ts : Tokens) → AreTokens tokens.entry ts → Gives options_of result (options_from block no_options ts.left) }
{
    let mut tokens = tokens;
    let mut options = no_options();
    'options: while let Some(token) = tokens.next() {
        match find_option(block, &options, token.as_str()) {
            Some(option) => take_option(alloc, option, &mut options, &mut tokens)?,
            None => expect_comma(alloc, token)?,
        }
    }
    Ok(options)
}

/// Checks that the token is a comma.
fn expect_comma(alloc: Global, token: TagToken<'_>) -> Result<(), Error>
    ensures { (t : Token) → IsToken token.entry t → Gives (λ u. u) result (comma t) }
{
    token.expect_str(",").into_result(alloc)
}

/// Returns the options of a loop without any.
fn no_options() -> Options
    ensures { options_of result ≡ no_options }
{
    Options {
        offset: None,
        limit: None,
        is_reversed: false,
        cols: None,
    }
}

/// Returns the option with this name, if the block takes it and it was not given before.
fn find_option(block: LoopBlock, given: &Options, text: &str) -> Option<LoopOption>
    ensures { result ≡ option_named block (options_of given.now) text.now }
{
    match block {
        LoopBlock::For => {
            if text == "reversed" && !given.is_reversed {
                return Some(LoopOption::Reversed);
            }
        }
        LoopBlock::Tablerow => {
            if text == "cols" && given.cols.is_none() {
                return Some(LoopOption::Cols);
            }
        }
    }
    find_range(given, text)
}

/// Returns the option with this name, if both blocks take it and it was not given before.
fn find_range(given: &Options, text: &str) -> Option<LoopOption>
    ensures { result ≡ range_named (options_of given.now) text.now }
{
    if text == "limit" && given.limit.is_none() {
        Some(LoopOption::Limit)
    } else if text == "offset" && given.offset.is_none() {
        Some(LoopOption::Offset)
    } else {
        None
    }
}

/// Reads an option, after the token with its name.
fn take_option(
    alloc: Global,
    option: LoopOption,
    options: &mut Options,
    tokens: &mut TagTokenIter<'_>,
) -> Result<(), Error>
    ensures value { (ts : Tokens) → AreTokens tokens.old ts
        → Takes (λ _. options_of options.new) result tokens.new (option_given option (options_of options.old) ts) }
    ensures shorter { IfOk result (λ _. bytes_left tokens.new ≤ bytes_left tokens.old) }
{
    match option {
        LoopOption::Reversed => {
            options.is_reversed = true;
            Ok(())
        }
        LoopOption::Offset => {
            options.offset = Some(next_argument(alloc, LoopOption::Offset, tokens)?);
            Ok(())
        }
        LoopOption::Limit => {
            options.limit = Some(next_argument(alloc, LoopOption::Limit, tokens)?);
            Ok(())
        }
        LoopOption::Cols => {
            options.cols = Some(next_argument(alloc, LoopOption::Cols, tokens)?);
            Ok(())
        }
    }
}

/// Reads a colon and the value of an option.
fn next_argument(
    alloc: Global,
    option: LoopOption,
    tokens: &mut TagTokenIter<'_>,
) -> Result<Expression, Error>
    ensures value { (ts : Tokens) → AreTokens tokens.old ts → Takes expression_of result tokens.new (argument_given option ts) }
    ensures shorter { IfOk result (λ value. bytes_left tokens.new < bytes_left tokens.old) }
{
    tokens.next_str(alloc, TOKEN_EXPECTED, ":")?;
    next_value_of(alloc, option, tokens)
}

/// Reads the value of an option.
fn next_value_of(
    alloc: Global,
    option: LoopOption,
    tokens: &mut TagTokenIter<'_>,
) -> Result<Expression, Error>
    ensures value { (ts : Tokens) → AreTokens tokens.old ts
        → Takes expression_of result tokens.new (next_as (expect_argument option) ts) }
    ensures shorter { IfOk result (λ value. bytes_left tokens.new < bytes_left tokens.old) }
{
    let token = tokens.expect_next(alloc, TOKEN_EXPECTED)?;
    expect_argument(alloc, option, token)?.into_result(alloc)
}

/// Reads a token as the value of an option. `continue` is not a value of `offset`.
fn expect_argument<'a>(
    alloc: Global,
    option: LoopOption,
    token: TagToken<'a>,
) -> Result<TryMatchToken<'a, Expression>, AllocError>
    ensures { (t : Token) → IsToken token.entry t → IfOk result (λ m. Tries expression_of token.entry m (expect_argument option t)) }
{
    match option {
        LoopOption::Offset => {
            if token.as_str() == "continue" {
                return Ok(TryMatchToken::Fails(token));
            }
            token.expect_value(alloc)
        }
        LoopOption::Limit | LoopOption::Reversed | LoopOption::Cols => token.expect_value(alloc),
    }
}
