//! Reading the chain in the argument of a filter.
ghost use Rattle.std.specs.Prelude.{◌≡◌, option_map, string_bytes, IfOk};
ghost use Rattle.liquid_error.specs.meaning.Told.{Gives};
ghost use Rattle.liquid_plugins.specs.meaning.ExpressionOf.{chain_of};
ghost use Rattle.liquid_parser.specs.meaning.Handed.{Tokens};
ghost use Rattle.liquid_parser.specs.meaning.Plugins.{AreTokens, registry_of};
ghost use Rattle.jekyll_language.specs.meaning.expressions.Chains as Spec;

use crate::expressions::reading::{if_read, text_found};
use liquid_error::Error;
use liquid_parser::{Tag, TagTokenIter};
use liquid_plugins::{FilterChain, ParseFilter, PluginRegistry};
use liquid_tags::asked::{TOKEN_EXPECTED, alone};
use std::alloc::{AllocError, Global};

/// Returns the chain that a string is, as the tag `echo` would have it. A string that is none is an error.
pub(crate) fn read_chain<F: ParseFilter>(
    alloc: Global,
    text: &str,
    filters: &PluginRegistry<F>,
) -> Result<FilterChain<F::Filter>, Error>
    ensures { Gives (chain_of F.Filter.shape) result (Spec.chain_read (registry_of F.makes filters.now) text.now) }
{
    match chain_in(alloc, text, filters)? {
        Some(chain) => Ok(chain),
        None => Err(text_found(alloc, String::from_str(alloc, text)?)),
    }
}

/// Returns the chain that a string is, if it is one.
fn chain_in<F: ParseFilter>(
    alloc: Global,
    text: &str,
    filters: &PluginRegistry<F>,
) -> Result<Option<FilterChain<F::Filter>>, AllocError>
    ensures { IfOk result (λ c. option_map (chain_of F.Filter.shape) c ≡ Spec.chain_in (registry_of F.makes filters.now) text.now) }
{
    let source = echo_tag(alloc, text)?;
    if_read(read_tag(alloc, source.as_str(), filters))
}

fn echo_tag(alloc: Global, text: &str) -> Result<String, AllocError>
    ensures { IfOk result (λ t. string_bytes t ≡ Spec.echo_tag text.now) }
{
    format!(in alloc; "{{% echo {text} %}}")
}

/// Reads a tag whose tokens are a chain, and returns the first error otherwise.
fn read_tag<F: ParseFilter>(
    alloc: Global,
    source: &str,
    filters: &PluginRegistry<F>,
) -> Result<FilterChain<F::Filter>, Error>
    ensures { Gives (chain_of F.Filter.shape) result (Spec.tag_read (registry_of F.makes filters.now) source.now) }
{
    match Tag::new(alloc, source) {
        Ok(tag) => read_tokens(alloc, tag.into_tokens(), filters),
        Err(error) => Err(error),
    }
}

/// Reads all tokens as a chain.
fn read_tokens<F: ParseFilter>(
    alloc: Global,
    tokens: TagTokenIter<'_>,
    filters: &PluginRegistry<F>,
) -> Result<FilterChain<F::Filter>, Error>
    ensures { (ts : Tokens) → AreTokens tokens.entry ts
        → Gives (chain_of F.Filter.shape) result (Spec.chain_given (registry_of F.makes filters.now) ts) }
{
    let mut tokens = tokens;
    let chain = tokens.next_filter_chain(alloc, TOKEN_EXPECTED, filters)?;
    alone(alloc, tokens, chain)
}
