//! Tag plug-ins.
ghost use Rattle.std.specs.Prelude.{◌≡◌, ℕ, List, Result};
ghost use Rattle.liquid_error.specs.meaning.Refusal.{Refusal};
ghost use Rattle.liquid_error.specs.meaning.Told.{Gives};
ghost use Rattle.liquid_parser.specs.meaning.Handed.{Tokens};
ghost use Rattle.liquid_parser.specs.meaning.Lang.{Filters};
ghost use Rattle.liquid_parser.specs.meaning.Plugins.{AreTokens, registry_of};

use crate::cursor::tokens::TagTokenIter;
use liquid_error::Error;
use liquid_plugins::{Meant, ParseFilter, PluginRegistry};
use std::alloc::Global;

/// What a tag says about itself.
pub trait TagReflection {
    // its name
    ghost tag_name: { Self → List ℕ };

    /// Returns the name that the tag is known by.
    fn tag(&self) -> &str
        ensures { result.now ≡ tag_name self.now };

    /// Returns a description of what the tag does.
    fn description(&self) -> &str;

    /// Returns an example of its use, if one is given.
    fn example(&self) -> Option<&str> {
        None
    }

    /// Returns a description of its tokens, if one is given.
    fn spec(&self) -> Option<&str> {
        None
    }
}

/// A tag plug-in over the filters `F`.
pub trait ParseTag<F: ParseFilter>: TagReflection + Drop {
    /// What the tag's tokens are made into.
    type Node: Meant + Drop;

    // the shape of the node that tokens make, or the refusal
    ghost gives: { Self → Filters F.Filter.Shape → Tokens → Result Self.Node.Shape Refusal };

    /// Returns the node of a tag with these tokens.
    fn parse(
        &self,
        alloc: Global,
        tokens: TagTokenIter<'_>,
        filters: &PluginRegistry<F>,
    ) -> std::result::Result<Self::Node, Error>
        ensures { (ts : Tokens) → AreTokens tokens.entry ts
            → Gives Self.Node.shape result (gives self.now (registry_of F.makes filters.now) ts) };
}
