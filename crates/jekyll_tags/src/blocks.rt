//! The blocks, as plug-ins.
ghost use Rattle.std.specs.Prelude.{◌≡◌, refl};
ghost use Rattle.jekyll_tags.specs.meaning.Blocks.{block_named, jekyll_block};

use crate::highlight::{Highlight, read_highlight};
use liquid_core::parser::PluginRegistry;
use liquid_core::{BlockBody, BlockReflection, Error, ParseBlock, ParseFilter, TagTokenIter};
use std::alloc::Global;

/// Jekyll's blocks.
#[derive(Debug, Clone, Copy, PartialEq, Eq, Drop)]
pub enum JekyllBlocks {
    /// The block has a language, and options, which change nothing.
    Highlight,
}

static NO_DIVIDERS: [&str; 0] = [];

impl BlockReflection for JekyllBlocks {
    ghost block_names = { block_named };

    fn start_tag(&self) -> &str {
        match self {
            JekyllBlocks::Highlight => "highlight",
        }
    }

    fn end_tag(&self) -> &str {
        match self {
            JekyllBlocks::Highlight => "endhighlight",
        }
    }

    fn description(&self) -> &str {
        match self {
            JekyllBlocks::Highlight => "Writes its part as code.",
        }
    }
}

impl<F: ParseFilter> ParseBlock<F> for JekyllBlocks {
    type Plan = Highlight;

    type Node = Highlight;

    ghost block = { jekyll_block };

    ghost named = { λ b. refl };

    fn dividers(&self) -> &[&str] {
        &NO_DIVIDERS
    }

    fn escapes(&self) -> bool {
        false
    }

    fn nests(&self) -> bool {
        false
    }

    fn begin(
        &self,
        alloc: Global,
        tokens: TagTokenIter<'_>,
        _filters: &PluginRegistry<F>,
    ) -> Result<Highlight, Error> {
        read_highlight(alloc, tokens)
    }

    fn divide(
        &self,
        alloc: Global,
        _plan: &mut Highlight,
        _name: &str,
        tokens: TagTokenIter<'_>,
    ) -> Result<(), Error> {
        tokens.expect_nothing(alloc)
    }

    fn finish(
        &self,
        _alloc: Global,
        plan: Highlight,
        _body: BlockBody<'_>,
    ) -> Result<Highlight, Error> {
        Ok(plan)
    }
}
