//! Block plug-ins.
ghost use Rattle.std.specs.Prelude.{◌≡◌, map};
ghost use Rattle.liquid_error.specs.meaning.Told.{Gives};
ghost use Rattle.liquid_parser.specs.meaning.Handed.{Tokens};
ghost use Rattle.liquid_parser.specs.meaning.Lang.{Block, BlockNames};
ghost use Rattle.liquid_parser.specs.meaning.Plugins.{AreTokens, registry_of, body_of};

use crate::cursor::tokens::TagTokenIter;
use liquid_error::Error;
use liquid_plugins::{Meant, ParseFilter, PluginRegistry};
use std::alloc::Global;

/// What a block says about itself.
pub trait BlockReflection {
    // the names of its start tag and its end tag
    ghost block_names: { Self → BlockNames };

    /// Returns the name of its start tag, by which nested starts in an escaped body are found.
    fn start_tag(&self) -> &str
        ensures { result.now ≡ (block_names self.now).start_name };

    /// Returns the name of its end tag.
    fn end_tag(&self) -> &str
        ensures { result.now ≡ (block_names self.now).end_name };

    /// Returns a description of what the block does.
    fn description(&self) -> &str;

    /// Returns an example of its use, if one is given.
    fn example(&self) -> Option<&str> {
        None
    }

    /// Returns a description of its tokens and its body, if one is given.
    fn spec(&self) -> Option<&str> {
        None
    }
}

/// A block plug-in over the filters `F`.
pub trait ParseBlock<F: ParseFilter>: BlockReflection + Drop {
    /// What the block plans while its body is read.
    type Plan: Meant + Drop;

    /// What the block is made into at its end.
    type Node: Meant + Drop;

    // the block: its names, and what it means
    ghost block: { Self → Block F.Filter.Shape Self.Plan.Shape Self.Node.Shape };

    /// Returns the names of the tags that divide its body into parts.
    fn dividers(&self) -> &[&str]
        ensures { map (λ name. name.now) result.now ≡ (block self.now).means.dividers };

    /// Returns `true` if its body is taken as a text, and no element in it is read.
    fn escapes(&self) -> bool
        ensures { result ≡ (block self.now).means.escapes };

    /// Returns `true` if start tags in an escaped body must have their own end tags.
    fn nests(&self) -> bool
        ensures { result ≡ (block self.now).means.nests };

    /// Returns the plan of a block whose start tag has these tokens.
    fn begin(
        &self,
        alloc: Global,
        tokens: TagTokenIter<'_>,
        filters: &PluginRegistry<F>,
    ) -> std::result::Result<Self::Plan, Error>
        ensures { (ts : Tokens) → AreTokens tokens.entry ts
            → Gives Self.Plan.shape result ((block self.now).means.begin (registry_of F.makes filters.now) ts) };

    /// Changes the plan at a divider of this name with these tokens. After an error the plan is dropped.
    fn divide(
        &self,
        alloc: Global,
        plan: &mut Self::Plan,
        name: &str,
        tokens: TagTokenIter<'_>,
    ) -> std::result::Result<(), Error>
        ensures { (ts : Tokens) → AreTokens tokens.entry ts
            → Gives (λ _. Self.Plan.shape plan.new) result ((block self.now).means.divide (Self.Plan.shape plan.old) name.now ts) };

    /// Returns the node of a block at its end.
    fn finish(
        &self,
        alloc: Global,
        plan: Self::Plan,
        body: BlockBody<'_>,
    ) -> std::result::Result<Self::Node, Error>
        ensures { Gives Self.Node.shape result ((block self.now).means.finish (Self.Plan.shape plan) (body_of body.entry)) };

    // the names are those that it returns
    ghost named: { (b : Self) → Self.block_names b ≡ (block b).names };
}

/// The number of parts of a block, or the text of its escaped body.
#[derive(Clone, Copy)]
pub enum BlockBody<'a> {
    Parts(usize),
    Escaped(&'a str),
}
