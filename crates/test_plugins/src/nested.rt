//! A block that escapes and nests.
ghost use Rattle.std.specs.Prelude.{refl};
ghost use Rattle.test_plugins.specs.meaning.BlockPlugins.{names_told};
ghost use Rattle.test_plugins.specs.declared.block_plugins.Blocks.TheVariants.{Raw};
ghost use Rattle.test_plugins.specs.meaning.Nested.{nested_block};

use crate::block_plugins::Blocks;
use crate::blocks::BlockNode;
use liquid_error::Error;
use liquid_parser::{BlockBody, BlockReflection, ParseBlock, TagTokenIter};
use liquid_plugins::{ParseFilter, PluginRegistry};
use std::alloc::Global;

/// The block `raw`, in whose body each `raw` has its own end.
#[derive(Debug, Clone, Copy, PartialEq, Eq)]
pub struct Nested;

impl BlockReflection for Nested {
    ghost block_names = { λ _. names_told Raw };

    fn start_tag(&self) -> &str {
        "raw"
    }

    fn end_tag(&self) -> &str {
        "endraw"
    }

    fn description(&self) -> &str {
        "Writes its body as it stands, with the same blocks in it."
    }
}

impl<F: ParseFilter> ParseBlock<F> for Nested {
    type Plan = BlockNode;

    type Node = BlockNode;

    ghost block = { λ _. nested_block };

    ghost named = { λ _. refl };

    fn dividers(&self) -> &[&str] {
        &[]
    }

    fn escapes(&self) -> bool {
        true
    }

    fn nests(&self) -> bool {
        true
    }

    fn begin(
        &self,
        alloc: Global,
        tokens: TagTokenIter<'_>,
        filters: &PluginRegistry<F>,
    ) -> Result<BlockNode, Error> {
        Blocks::Raw.begin(alloc, tokens, filters)
    }

    fn divide(
        &self,
        alloc: Global,
        plan: &mut BlockNode,
        name: &str,
        tokens: TagTokenIter<'_>,
    ) -> Result<(), Error> {
        <Blocks as ParseBlock<F>>::divide(&Blocks::Raw, alloc, plan, name, tokens)
    }

    fn finish(
        &self,
        alloc: Global,
        plan: BlockNode,
        body: BlockBody<'_>,
    ) -> Result<BlockNode, Error> {
        <Blocks as ParseBlock<F>>::finish(&Blocks::Raw, alloc, plan, body)
    }
}
