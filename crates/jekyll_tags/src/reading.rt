//! Reading the tokens of an inclusion.
ghost use Rattle.std.specs.Prelude.{◌≡◌, ◌≤◌, map, IfOk};
ghost use Rattle.liquid_error.specs.meaning.Told.{Gives};
ghost use Rattle.liquid_parser.specs.meaning.Cursors.{IsToken, Takes, bytes_left};
ghost use Rattle.liquid_parser.specs.meaning.Handed.{Token, Tokens};
ghost use Rattle.liquid_parser.specs.meaning.Plugins.{AreTokens, registry_of};
ghost use Rattle.liquid_plugins.specs.meaning.ExpressionOf.{chain_of};
ghost use Rattle.liquid_tags.specs.meaning.Partials.{pair_of};
ghost use Rattle.liquid_std.specs.meaning.inclusion.CallsGiven.{pairs_of};
ghost use Rattle.jekyll_tags.specs.meaning.Given as Spec;

use crate::plugin::JekyllTags;
use liquid_core::parser::{FilterChain, PluginRegistry, TagToken};
use liquid_core::{Error, Expression, ParseFilter, TagTokenIter};
use liquid_tags::asked::TOKEN_EXPECTED;
use std::alloc::Global;

/// Reads the name of a tag's partial: a chain, or chains between `<` and `>`. `seo` has none.
///
/// A missing token is an `Err`, "Token expected". A token that does not fit is an `Err` too, "Unexpected token".
pub fn read_name<F: ParseFilter>(
    alloc: Global,
    tag: JekyllTags,
    tokens: &mut TagTokenIter<'_>,
    filters: &PluginRegistry<F>,
) -> Result<Vec<FilterChain<F::Filter>>, Error>
    ensures { (ts : Tokens) → AreTokens tokens.old ts
        → Takes (λ v. map (chain_of F.Filter.shape) v.items) result tokens.new
        (Spec.name_given tag (registry_of F.makes filters.now) ts) }
{
    match tag {
        JekyllTags::Seo => Ok(Vec::new(alloc)),
        JekyllTags::Include | JekyllTags::IncludeCached | JekyllTags::IncludeRelative => {
            read_parts(alloc, tokens, filters)
        }
    }
}

/// Reads a chain, or chains between `<` and `>`.
pub(crate) fn read_parts<F: ParseFilter>(
    alloc: Global,
    tokens: &mut TagTokenIter<'_>,
    filters: &PluginRegistry<F>,
) -> Result<Vec<FilterChain<F::Filter>>, Error>
    ensures { (ts : Tokens) → AreTokens tokens.old ts
        → Takes (λ v. map (chain_of F.Filter.shape) v.items) result tokens.new
        (Spec.parts_given (registry_of F.makes filters.now) ts) }
{
    if comes_next(*tokens, "<") {
        tokens.next_str(alloc, TOKEN_EXPECTED, "<")?;
        return read_enclosed(alloc, tokens, filters);
    }
    let chain = tokens.next_filter_chain(alloc, TOKEN_EXPECTED, filters)?;
    let mut parts = Vec::new(alloc);
    parts.push(chain)?;
    Ok(parts)
}

/// Reads chains up to `>`.
fn read_enclosed<F: ParseFilter>(
    alloc: Global,
    tokens: &mut TagTokenIter<'_>,
    filters: &PluginRegistry<F>,
) -> Result<Vec<FilterChain<F::Filter>>, Error>
    ensures { (ts : Tokens) → AreTokens tokens.old ts
        → Takes (λ v. map (chain_of F.Filter.shape) v.items) result tokens.new
        (Spec.parts_from (registry_of F.makes filters.now) ts.following ts.left) }
{
    let mut parts = Vec::new(alloc);
    'parts: while !comes_next(*tokens, ">") {
        let chain = tokens.next_filter_chain(alloc, TOKEN_EXPECTED, filters)?;
        parts.push(chain)?;
    }
    tokens.next_str(alloc, TOKEN_EXPECTED, ">")?;
    Ok(parts)
}

/// Returns `true` if this text is the next token.
fn comes_next(tokens: TagTokenIter<'_>, text: &str) -> bool
    ensures { (ts : Tokens) → AreTokens tokens.entry ts → result ≡ Spec.comes_next text.now ts.left }
{
    let mut tokens = tokens;
    match tokens.next() {
        Some(token) => token.as_str() == text,
        None => false,
    }
}

/// Reads all tokens as pairs `name = value`.
///
/// A missing token is an `Err`, "Token expected". A token that does not fit is an `Err` too, "Unexpected token".
pub fn read_pairs(
    alloc: Global,
    tokens: TagTokenIter<'_>,
) -> Result<Vec<(String, Expression)>, Error>
    ensures { (ts : Tokens) → AreTokens tokens.entry ts → Gives pairs_of result (Spec.pairs_from ts.left) }
{
    let mut tokens = tokens;
    let mut pairs = Vec::new(alloc);
    'pairs: while let Some(first) = tokens.next() {
        let pair = read_pair(alloc, first, &mut tokens)?;
        pairs.push(pair)?;
    }
    Ok(pairs)
}

/// Reads the pair whose first token this is.
fn read_pair(
    alloc: Global,
    first: TagToken<'_>,
    tokens: &mut TagTokenIter<'_>,
) -> Result<(String, Expression), Error>
    ensures value { (t : Token) → IsToken first.entry t → (ts : Tokens) → AreTokens tokens.old ts
        → Takes pair_of result tokens.new (Spec.pair_given t ts) }
    ensures shorter { IfOk result (λ pair. bytes_left tokens.new ≤ bytes_left tokens.old) }
{
    let name = first.expect_identifier().into_result(alloc)?;
    tokens.next_str(alloc, TOKEN_EXPECTED, "=")?;
    let value = tokens.next_value(alloc, TOKEN_EXPECTED)?;
    Ok((String::from_str(alloc, name)?, value))
}
