//! The tag `echo`.
ghost use Rattle.liquid_error.specs.meaning.Told.{Gives};
ghost use Rattle.liquid_parser.specs.meaning.Handed.{Tokens};
ghost use Rattle.liquid_parser.specs.meaning.Plugins.{AreTokens, registry_of};
ghost use Rattle.liquid_plugins.specs.meaning.Chain.{chain_value};
ghost use Rattle.liquid_plugins.specs.meaning.ExpressionOf.{chain_of};
ghost use Rattle.liquid_plugins.specs.meaning.TurnOf.{turn_of};
ghost use Rattle.liquid_std.specs.meaning.TagPlugins.{echo_given};
ghost use Rattle.liquid_std.specs.meaning.Tags.{echo_turn, tag_of};

use crate::tags::StdTag;
use liquid_core::model::ValueRender;
use liquid_core::parser::{FilterChain, PluginRegistry};
use liquid_core::{Error, Filter, ParseFilter, Runtime, TagTokenIter, Turn};
use liquid_tags::asked::{TOKEN_EXPECTED, alone};
use std::alloc::Global;

/// Reads the node of an `echo`.
pub(crate) fn parse_echo<F: ParseFilter>(
    alloc: Global,
    tokens: TagTokenIter<'_>,
    filters: &PluginRegistry<F>,
) -> Result<StdTag<F::Filter>, Error>
    ensures { (ts : Tokens) → AreTokens tokens.entry ts
        → Gives (tag_of F.Filter.shape) result (echo_given (registry_of F.makes filters.now) ts) }
{
    let mut tokens = tokens;
    let chain = tokens.next_filter_chain(alloc, TOKEN_EXPECTED, filters)?;
    let chain = Box::new(alloc, chain)?;
    alone(alloc, tokens, StdTag::Echo(chain))
}

/// Writes the value of a chain.
#[inline(never)]
pub(crate) fn echo<X: Filter, R: Runtime>(
    alloc: Global,
    chain: &FilterChain<X>,
    runtime: &R,
) -> Result<Turn, Error>
    ensures { Gives turn_of result (echo_turn (chain_value X.means (chain_of X.shape chain.now) (R.view runtime.now))) }
{
    let value = chain.evaluate(alloc, runtime)?;
    Ok(Turn::Text(ValueRender::new(value.as_view()).to_string(alloc)?))
}
