//! Kinds of text blocks as plug-ins. Their tags take no tokens, and their bodies have no dividers.
ghost use Rattle.std.specs.Prelude.{◌≡◌, refl};
ghost use Rattle.liquid_extend.specs.meaning.TextBlocks.{names_of, text_block};

use crate::text_blocks::kind::TextBlock;
use crate::text_blocks::node::TextBlockNode;
use liquid_error::Error;
use liquid_parser::{BlockBody, BlockReflection, ParseBlock, TagTokenIter};
use liquid_plugins::{ParseFilter, PluginRegistry};
use std::alloc::Global;

/// A kind of text block as a plug-in.
#[derive(Debug, Clone, Copy, Drop)]
pub struct TextBlockPlugin<K> {
    pub kind: K,
}

static NO_DIVIDERS: [&str; 0] = [];

impl<K: TextBlock> BlockReflection for TextBlockPlugin<K> {
    ghost block_names = { λ plugin. names_of K.sense plugin.kind };

    fn start_tag(&self) -> &str {
        self.kind.start_tag()
    }

    fn end_tag(&self) -> &str {
        self.kind.end_tag()
    }

    fn description(&self) -> &str {
        self.kind.description()
    }
}

impl<K: TextBlock, F: ParseFilter> ParseBlock<F> for TextBlockPlugin<K> {
    type Plan = TextBlockNode<K>;

    type Node = TextBlockNode<K>;

    ghost block = { λ plugin. text_block K.sense plugin.kind };

    ghost named = { λ plugin. refl };

    fn dividers(&self) -> &[&str] {
        &NO_DIVIDERS
    }

    fn escapes(&self) -> bool {
        false
    }

    fn nests(&self) -> bool {
        false
    }

    fn begin(
        &self,
        alloc: Global,
        tokens: TagTokenIter<'_>,
        _filters: &PluginRegistry<F>,
    ) -> Result<TextBlockNode<K>, Error> {
        tokens.expect_nothing(alloc)?;
        Ok(TextBlockNode { kind: self.kind })
    }

    fn divide(
        &self,
        alloc: Global,
        _plan: &mut TextBlockNode<K>,
        _name: &str,
        tokens: TagTokenIter<'_>,
    ) -> Result<(), Error> {
        tokens.expect_nothing(alloc)
    }

    fn finish(
        &self,
        _alloc: Global,
        plan: TextBlockNode<K>,
        _body: BlockBody<'_>,
    ) -> Result<TextBlockNode<K>, Error> {
        Ok(plan)
    }
}
