//! The test tags, as plug-ins.
ghost use Rattle.liquid_error.specs.meaning.Told.{Gives};
ghost use Rattle.liquid_parser.specs.meaning.Handed.{Tokens};
ghost use Rattle.liquid_parser.specs.meaning.Plugins.{AreTokens};
ghost use Rattle.test_plugins.specs.meaning.TagPlugins.{hostile_given, hostile_name, leaky_given, leaky_name, tag_given, tag_name};
ghost use Rattle.test_plugins.specs.meaning.Tags.{tag_of};

use crate::asked::{alone, name_alone, name_and_value};
use crate::hostile::HostileTagNode;
use crate::tags::{LeakyTagNode, TagNode};
use liquid_error::Error;
use liquid_parser::{ParseTag, TagReflection, TagTokenIter};
use liquid_plugins::{ParseFilter, PluginRegistry};
use std::alloc::Global;

/// The tags of the plain language.
#[derive(Debug, Clone, Copy, PartialEq, Eq)]
pub enum Tags {
    Set,
    Inc,
    Brk,
}

/// These tags and `leak`.
#[derive(Debug, Clone, Copy, PartialEq, Eq)]
pub enum LeakyTags {
    Plain(Tags),
    Leak,
}

/// The tags of the plain language, and two malicious ones.
#[derive(Debug, Clone, Copy, PartialEq, Eq)]
pub enum HostileTags {
    Plain(Tags),
    Spin,
    Mute,
}

impl TagReflection for Tags {
    ghost tag_name = { tag_name };

    fn tag(&self) -> &str {
        match self {
            Tags::Set => "set",
            Tags::Inc => "inc",
            Tags::Brk => "brk",
        }
    }

    fn description(&self) -> &str {
        match self {
            Tags::Set => "Sets a global to a value, and writes nothing.",
            Tags::Inc => "Renders the partial of a name, without a frame.",
            Tags::Brk => "Leaves the loop around it.",
        }
    }
}

impl<F: ParseFilter> ParseTag<F> for Tags {
    type Node = TagNode;

    ghost gives = { λ tag _ ts. tag_given tag ts };

    fn parse(
        &self,
        alloc: Global,
        tokens: TagTokenIter<'_>,
        _filters: &PluginRegistry<F>,
    ) -> Result<TagNode, Error> {
        plain_tag(alloc, *self, tokens)
    }
}

/// Returns the node of a tag of the plain language.
fn plain_tag(alloc: Global, tag: Tags, tokens: TagTokenIter<'_>) -> Result<TagNode, Error>
    ensures { (ts : Tokens) → AreTokens tokens.entry ts → Gives tag_of result (tag_given tag ts) }
{
    match tag {
        Tags::Set => {
            let (name, value) = name_and_value(alloc, tokens)?;
            Ok(TagNode::Set(name, value))
        }
        Tags::Inc => Ok(TagNode::Inc(name_alone(alloc, tokens)?)),
        Tags::Brk => alone(alloc, tokens, TagNode::Brk),
    }
}

impl TagReflection for LeakyTags {
    ghost tag_name = { leaky_name };

    fn tag(&self) -> &str {
        match self {
            LeakyTags::Plain(tag) => tag.tag(),
            LeakyTags::Leak => "leak",
        }
    }

    fn description(&self) -> &str {
        match self {
            LeakyTags::Plain(tag) => tag.description(),
            LeakyTags::Leak => "Sets a global to a value, and writes its old value.",
        }
    }
}

impl<F: ParseFilter> ParseTag<F> for LeakyTags {
    type Node = LeakyTagNode;

    ghost gives = { λ tag _ ts. leaky_given tag ts };

    fn parse(
        &self,
        alloc: Global,
        tokens: TagTokenIter<'_>,
        _filters: &PluginRegistry<F>,
    ) -> Result<LeakyTagNode, Error> {
        match self {
            LeakyTags::Plain(tag) => Ok(LeakyTagNode::Plain(plain_tag(alloc, *tag, tokens)?)),
            LeakyTags::Leak => {
                let (name, value) = name_and_value(alloc, tokens)?;
                Ok(LeakyTagNode::Leak(name, value))
            }
        }
    }
}

impl TagReflection for HostileTags {
    ghost tag_name = { hostile_name };

    fn tag(&self) -> &str {
        match self {
            HostileTags::Plain(tag) => tag.tag(),
            HostileTags::Spin => "spin",
            HostileTags::Mute => "mute",
        }
    }

    fn description(&self) -> &str {
        match self {
            HostileTags::Plain(tag) => tag.description(),
            HostileTags::Spin => "Writes `s` at each of its turns, and never ends.",
            HostileTags::Mute => "Has no turns.",
        }
    }
}

impl<F: ParseFilter> ParseTag<F> for HostileTags {
    type Node = HostileTagNode;

    ghost gives = { λ tag _ ts. hostile_given tag ts };

    fn parse(
        &self,
        alloc: Global,
        tokens: TagTokenIter<'_>,
        _filters: &PluginRegistry<F>,
    ) -> Result<HostileTagNode, Error> {
        match self {
            HostileTags::Plain(tag) => Ok(HostileTagNode::Plain(plain_tag(alloc, *tag, tokens)?)),
            HostileTags::Spin => alone(alloc, tokens, HostileTagNode::Spin),
            HostileTags::Mute => alone(alloc, tokens, HostileTagNode::Mute),
        }
    }
}
