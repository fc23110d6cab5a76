//! The tags, as plug-ins.
ghost use Rattle.liquid_error.specs.meaning.Told.{Gives};
ghost use Rattle.liquid_parser.specs.meaning.Handed.{Tokens};
ghost use Rattle.liquid_parser.specs.meaning.Plugins.{AreTokens, registry_of};
ghost use Rattle.liquid_tags.specs.meaning.Tags.{tag_of};
ghost use Rattle.liquid_tags.specs.meaning.TagPlugins.{assign_given, inclusion_given, increment_given, tag_given, tag_name};

use crate::asked::{TOKEN_EXPECTED, alone};
use crate::partial_call::call::Inclusion;
use crate::partial_call::read_call::read_call;
use crate::tags::TagNode;
use liquid_core::parser::PluginRegistry;
use liquid_core::runtime::Interrupt;
use liquid_core::{Error, Filter, ParseFilter, ParseTag, TagReflection, TagTokenIter};
use std::alloc::Global;

/// The tags of the library.
#[derive(Debug, Clone, Copy, PartialEq, Eq, Drop)]
pub enum Tags {
    Assign,
    Increment,
    Break,
    Continue,
    Include,
    Render,
}

impl TagReflection for Tags {
    ghost tag_name = { tag_name };

    fn tag(&self) -> &str {
        match self {
            Tags::Assign => "assign",
            Tags::Increment => "increment",
            Tags::Break => "break",
            Tags::Continue => "continue",
            Tags::Include => "include",
            Tags::Render => "render",
        }
    }

    fn description(&self) -> &str {
        match self {
            Tags::Assign => "Assigns what a chain comes to, and writes nothing.",
            Tags::Increment => "Writes the number of a counter, and sets it one higher.",
            Tags::Break => "Leaves the loop around it.",
            Tags::Continue => "Goes on with the next item of the loop around it.",
            Tags::Include => "Renders a partial, which sees the names around it.",
            Tags::Render => "Renders a partial, which sees the names that it is given alone.",
        }
    }
}

impl<F: ParseFilter> ParseTag<F> for Tags {
    type Node = TagNode<F::Filter>;

    ghost gives = { tag_given };

    fn parse(
        &self,
        alloc: Global,
        tokens: TagTokenIter<'_>,
        filters: &PluginRegistry<F>,
    ) -> Result<TagNode<F::Filter>, Error> {
        match self {
            Tags::Assign => parse_assign(alloc, tokens, filters),
            Tags::Increment => parse_increment(alloc, tokens),
            Tags::Break => alone(alloc, tokens, TagNode::Interrupts(Interrupt::Break)),
            Tags::Continue => alone(alloc, tokens, TagNode::Interrupts(Interrupt::Continue)),
            Tags::Include => parse_inclusion(alloc, Inclusion::Include, tokens),
            Tags::Render => parse_inclusion(alloc, Inclusion::Render, tokens),
        }
    }
}

/// Returns the node of an `assign`.
fn parse_assign<F: ParseFilter>(
    alloc: Global,
    tokens: TagTokenIter<'_>,
    filters: &PluginRegistry<F>,
) -> Result<TagNode<F::Filter>, Error>
    ensures { (ts : Tokens) → AreTokens tokens.entry ts
        → Gives (tag_of F.Filter.shape) result (assign_given (registry_of F.makes filters.now) ts) }
{
    let mut tokens = tokens;
    let name = tokens.next_identifier(alloc, TOKEN_EXPECTED)?;
    tokens.next_str(alloc, TOKEN_EXPECTED, "=")?;
    let chain = tokens.next_filter_chain(alloc, TOKEN_EXPECTED, filters)?;
    let name = String::from_str(alloc, name)?;
    let chain = Box::new(alloc, chain)?;
    alone(alloc, tokens, TagNode::Assign(name, chain))
}

/// Returns the node of an `increment`.
fn parse_increment<X: Filter>(alloc: Global, tokens: TagTokenIter<'_>) -> Result<TagNode<X>, Error>
    ensures { (ts : Tokens) → AreTokens tokens.entry ts → Gives (tag_of X.shape) result (increment_given ts) }
{
    let mut tokens = tokens;
    let name = tokens.next_identifier(alloc, TOKEN_EXPECTED)?;
    let name = String::from_str(alloc, name)?;
    alone(alloc, tokens, TagNode::Increment(name))
}

/// Returns the node of an `include` or a `render`.
fn parse_inclusion<X: Filter>(
    alloc: Global,
    inclusion: Inclusion,
    tokens: TagTokenIter<'_>,
) -> Result<TagNode<X>, Error>
    ensures { (ts : Tokens) → AreTokens tokens.entry ts → Gives (tag_of X.shape) result (inclusion_given inclusion ts) }
{
    let call = read_call(alloc, tokens)?;
    Ok(TagNode::Includes(inclusion, Box::new(alloc, call)?))
}
