//! The tags, as plug-ins.
ghost use Rattle.std.specs.Prelude.{◌≡◌};
ghost use Rattle.liquid_error.specs.meaning.Told.{Gives};
ghost use Rattle.liquid_parser.specs.meaning.Handed.{Tokens};
ghost use Rattle.liquid_parser.specs.meaning.Plugins.{AreTokens, registry_of};
ghost use Rattle.liquid_std.specs.meaning.TagPlugins.{inclusion_of, library_given, tag_given, tag_name};
ghost use Rattle.liquid_std.specs.meaning.Tags.{tag_of};

use crate::calls::parse_call;
use crate::cycle::parse_cycle;
use crate::decrement::parse_decrement;
use crate::echo::parse_echo;
use crate::tags::StdTag;
use liquid_core::parser::PluginRegistry;
use liquid_core::{Error, ParseFilter, ParseTag, TagReflection, TagTokenIter};
use liquid_tags::{Inclusion, Tags};
use std::alloc::Global;

/// The standard tags.
#[derive(Debug, Clone, Copy, PartialEq, Eq, Drop)]
pub enum StdTags {
    /// A tag of `liquid_tags`. `include` and `render` may pass a value too.
    Library(Tags),
    Decrement,
    Echo,
    Cycle,
}

impl TagReflection for StdTags {
    ghost tag_name = { tag_name };

    fn tag(&self) -> &str {
        match self {
            StdTags::Library(tag) => tag.tag(),
            StdTags::Decrement => "decrement",
            StdTags::Echo => "echo",
            StdTags::Cycle => "cycle",
        }
    }

    fn description(&self) -> &str {
        match self {
            StdTags::Library(tag) => tag.description(),
            StdTags::Decrement => "Sets a counter one lower, and writes its number.",
            StdTags::Echo => "Writes what a chain comes to.",
            StdTags::Cycle => "Writes the values of a group, one after another.",
        }
    }
}

impl<F: ParseFilter> ParseTag<F> for StdTags {
    type Node = StdTag<F::Filter>;

    ghost gives = { tag_given };

    fn parse(
        &self,
        alloc: Global,
        tokens: TagTokenIter<'_>,
        filters: &PluginRegistry<F>,
    ) -> Result<StdTag<F::Filter>, Error> {
        match self {
            StdTags::Library(tag) => parse_library(alloc, *tag, tokens, filters),
            StdTags::Decrement => parse_decrement(alloc, tokens),
            StdTags::Echo => parse_echo(alloc, tokens, filters),
            StdTags::Cycle => parse_cycle(alloc, tokens),
        }
    }
}

/// Reads the node of a tag of `liquid_tags`.
fn parse_library<F: ParseFilter>(
    alloc: Global,
    tag: Tags,
    tokens: TagTokenIter<'_>,
    filters: &PluginRegistry<F>,
) -> Result<StdTag<F::Filter>, Error>
    ensures { (ts : Tokens) → AreTokens tokens.entry ts
        → Gives (tag_of F.Filter.shape) result (library_given tag (registry_of F.makes filters.now) ts) }
{
    match inclusion_of(tag) {
        Some(inclusion) => parse_call(alloc, inclusion, tokens),
        None => Ok(StdTag::Library(tag.parse(alloc, tokens, filters)?)),
    }
}

/// Returns how a tag calls a partial, if it does.
fn inclusion_of(tag: Tags) -> Option<Inclusion>
    ensures { result ≡ inclusion_of tag }
{
    match tag {
        Tags::Include => Some(Inclusion::Include),
        Tags::Render => Some(Inclusion::Render),
        Tags::Assign | Tags::Increment | Tags::Break | Tags::Continue => None,
    }
}
