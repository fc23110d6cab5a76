//! Tags of two types as tags of one.
ghost use Rattle.liquid_error.specs.meaning.Told.{Gives};
ghost use Rattle.liquid_parser.specs.meaning.Handed.{Tokens};
ghost use Rattle.liquid_parser.specs.meaning.Plugins.{AreTokens};
ghost use Rattle.liquid_extend.specs.meaning.Plugins.{name_beside, tag_beside};

use crate::beside::one_of::Beside;
use liquid_error::Error;
use liquid_parser::{ParseTag, TagReflection, TagTokenIter};
use liquid_plugins::{ParseFilter, PluginRegistry};
use std::alloc::Global;

impl<L: TagReflection, O: TagReflection> TagReflection for Beside<L, O> {
    ghost tag_name = { name_beside L.tag_name O.tag_name };

    fn tag(&self) -> &str {
        match self {
            Beside::Library(tag) => tag.tag(),
            Beside::Own(tag) => tag.tag(),
        }
    }

    fn description(&self) -> &str {
        match self {
            Beside::Library(tag) => tag.description(),
            Beside::Own(tag) => tag.description(),
        }
    }

    fn example(&self) -> Option<&str> {
        match self {
            Beside::Library(tag) => tag.example(),
            Beside::Own(tag) => tag.example(),
        }
    }

    fn spec(&self) -> Option<&str> {
        match self {
            Beside::Library(tag) => tag.spec(),
            Beside::Own(tag) => tag.spec(),
        }
    }
}

impl<F: ParseFilter, L: ParseTag<F>, O: ParseTag<F>> ParseTag<F> for Beside<L, O> {
    type Node = Beside<L::Node, O::Node>;

    ghost gives = { tag_beside L.gives O.gives };

    fn parse(
        &self,
        alloc: Global,
        tokens: TagTokenIter<'_>,
        filters: &PluginRegistry<F>,
    ) -> Result<Beside<L::Node, O::Node>, Error> {
        match self {
            Beside::Library(tag) => Ok(Beside::Library(tag.parse(alloc, tokens, filters)?)),
            Beside::Own(tag) => Ok(Beside::Own(tag.parse(alloc, tokens, filters)?)),
        }
    }
}
