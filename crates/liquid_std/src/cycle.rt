//! The tag `cycle`.
ghost use Rattle.liquid_error.specs.meaning.Told.{Gives};
ghost use Rattle.liquid_parser.specs.meaning.Cursors.{HandsOut, IsToken};
ghost use Rattle.liquid_parser.specs.meaning.Handed.{Token, Tokens};
ghost use Rattle.liquid_parser.specs.meaning.Plugins.{AreTokens};
ghost use Rattle.liquid_std.specs.meaning.marks.Cycles.{cycle_of};
ghost use Rattle.liquid_std.specs.meaning.CyclesGiven.{cycle_given, name_in, named_given, unnamed_given};
ghost use Rattle.liquid_std.specs.meaning.TagPlugins.{cycle_node_given};
ghost use Rattle.liquid_std.specs.meaning.Tags.{tag_of};

use crate::conditions::read_values::read_values;
use crate::marks::groups::values_key;
use crate::marks::{Cycle, Group};
use crate::tags::StdTag;
use liquid_core::parser::TagToken;
use liquid_core::{Error, Filter, TagTokenIter};
use std::alloc::Global;

/// The separator between two values.
static SEPARATORS: [&str; 1] = [","];

/// Reads the node of a `cycle`.
pub(crate) fn parse_cycle<X: Filter>(
    alloc: Global,
    tokens: TagTokenIter<'_>,
) -> Result<StdTag<X>, Error>
    ensures { (ts : Tokens) → AreTokens tokens.entry ts → Gives (tag_of X.shape) result (cycle_node_given ts) }
{
    let cycle = read_cycle(alloc, tokens)?;
    Ok(StdTag::Cycle(Box::new(alloc, cycle)?))
}

/// Reads a `cycle` from all tokens: values with commas between them, after a name and a colon if there is a name.
///
/// A missing value is an `Err`, "Token expected". A token that does not fit is an `Err` too, "Unexpected token".
fn read_cycle(alloc: Global, tokens: TagTokenIter<'_>) -> Result<Cycle, Error>
    ensures { (ts : Tokens) → AreTokens tokens.entry ts → Gives cycle_of result (cycle_given ts) }
{
    let mut tokens = tokens;
    match take_name(&mut tokens) {
        Some(name) => read_named(alloc, name, tokens),
        None => read_unnamed(alloc, tokens),
    }
}

/// Removes the next token and the colon after it, and returns the token. Removes nothing if no colon is after it.
fn take_name<'a>(tokens: &mut TagTokenIter<'a>) -> Option<TagToken<'a>>
    ensures { (ts : Tokens) → AreTokens tokens.old ts → HandsOut result tokens.new ts (name_in ts) }
{
    let mut rest = *tokens;
    let name = rest.next()?;
    let colon = rest.next()?;
    if colon.as_str() == ":" {
        *tokens = rest;
        Some(name)
    } else {
        None
    }
}

/// Reads the values of a `cycle` with this name.
fn read_named(alloc: Global, name: TagToken<'_>, tokens: TagTokenIter<'_>) -> Result<Cycle, Error>
    ensures { (t : Token) → IsToken name.entry t → (ts : Tokens) → AreTokens tokens.entry ts
        → Gives cycle_of result (named_given t ts) }
{
    let name = name.expect_value(alloc)?.into_result(alloc)?;
    let values = read_values(alloc, tokens, &SEPARATORS)?;
    Ok(Cycle {
        group: Group::Named(name),
        values,
    })
}

/// Reads the values of a `cycle` without a name.
fn read_unnamed(alloc: Global, tokens: TagTokenIter<'_>) -> Result<Cycle, Error>
    ensures { (ts : Tokens) → AreTokens tokens.entry ts → Gives cycle_of result (unnamed_given ts) }
{
    let values = read_values(alloc, tokens, &SEPARATORS)?;
    let key = values_key(alloc, values.as_slice())?;
    Ok(Cycle {
        group: Group::Unnamed(key),
        values,
    })
}
