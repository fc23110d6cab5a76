//! The test blocks, as plug-ins.
ghost use Rattle.std.specs.Prelude.{◌≡◌, refl};
ghost use Rattle.liquid_error.specs.meaning.Told.{Gives};
ghost use Rattle.liquid_parser.specs.meaning.Handed.{Tokens};
ghost use Rattle.liquid_parser.specs.meaning.Plugins.{AreTokens, body_of};
ghost use Rattle.test_plugins.specs.meaning.BlockPlugins.{
  begun,
  dividers_of,
  escapes_of,
  finished,
  hostile_names_told,
  names_told,
  whole_block,
  whole_hostile_block,
};
ghost use Rattle.test_plugins.specs.meaning.Blocks.{block_of};

use crate::asked::{alone, name_and_value};
use crate::blocks::BlockNode;
use crate::hostile::HostileBlockNode;
use liquid_error::Error;
use liquid_parser::{BlockBody, BlockReflection, ParseBlock, TagTokenIter};
use liquid_plugins::{ParseFilter, PluginRegistry};
use std::alloc::Global;

/// The divider of `swap`.
static MID: [&str; 1] = ["mid"];

static NO_DIVIDERS: [&str; 0] = [];

/// The blocks of the plain language.
#[derive(Debug, Clone, Copy, PartialEq, Eq)]
pub enum Blocks {
    Box,
    Sbox,
    Swap,
    Raw,
    With,
    Glob,
}

/// These blocks, and three malicious ones. `Odd` is a box and has the names of one, whatever name it is registered
/// under. `Early` is a `swap` whose end has the name of its divider.
#[derive(Debug, Clone, Copy, PartialEq, Eq)]
pub enum HostileBlocks {
    Plain(Blocks),
    Far,
    Odd,
    Early,
}

impl BlockReflection for Blocks {
    ghost block_names = { names_told };

    fn start_tag(&self) -> &str {
        match self {
            Blocks::Box => "box",
            Blocks::Sbox => "sbox",
            Blocks::Swap => "swap",
            Blocks::Raw => "raw",
            Blocks::With => "with",
            Blocks::Glob => "glob",
        }
    }

    fn end_tag(&self) -> &str {
        match self {
            Blocks::Box => "endbox",
            Blocks::Sbox => "endsbox",
            Blocks::Swap => "endswap",
            Blocks::Raw => "endraw",
            Blocks::With => "endwith",
            Blocks::Glob => "endglob",
        }
    }

    fn description(&self) -> &str {
        match self {
            Blocks::Box => "Writes its body in brackets.",
            Blocks::Sbox => "Renders its body where no name is seen.",
            Blocks::Swap => "Renders what comes after `mid`, and then what comes before it.",
            Blocks::Raw => "Writes its body as it stands.",
            Blocks::With => "Renders its body with one name.",
            Blocks::Glob => "Renders its body with globals of its own.",
        }
    }
}

impl<F: ParseFilter> ParseBlock<F> for Blocks {
    type Plan = BlockNode;

    type Node = BlockNode;

    ghost block = { whole_block };

    ghost named = { λ b. refl };

    fn dividers(&self) -> &[&str] {
        match self {
            Blocks::Swap => &MID,
            _ => &NO_DIVIDERS,
        }
    }

    fn escapes(&self) -> bool {
        match self {
            Blocks::Raw => true,
            _ => false,
        }
    }

    fn nests(&self) -> bool {
        false
    }

    fn begin(
        &self,
        alloc: Global,
        tokens: TagTokenIter<'_>,
        _filters: &PluginRegistry<F>,
    ) -> Result<BlockNode, Error> {
        plain_block(alloc, *self, tokens)
    }

    fn divide(
        &self,
        alloc: Global,
        _plan: &mut BlockNode,
        _name: &str,
        tokens: TagTokenIter<'_>,
    ) -> Result<(), Error> {
        tokens.expect_nothing(alloc)
    }

    fn finish(
        &self,
        alloc: Global,
        plan: BlockNode,
        body: BlockBody<'_>,
    ) -> Result<BlockNode, Error> {
        finish_plan(alloc, plan, body)
    }
}

/// Returns the plan of a block of the plain language: the node that it will be.
fn plain_block(alloc: Global, block: Blocks, tokens: TagTokenIter<'_>) -> Result<BlockNode, Error>
    ensures { (ts : Tokens) → AreTokens tokens.entry ts → Gives block_of result (begun block ts) }
{
    match block {
        Blocks::With => {
            let (name, value) = name_and_value(alloc, tokens)?;
            Ok(BlockNode::With(name, value))
        }
        Blocks::Box => alone(alloc, tokens, BlockNode::Box),
        Blocks::Sbox => alone(alloc, tokens, BlockNode::Sbox),
        Blocks::Swap => alone(alloc, tokens, BlockNode::Swap),
        Blocks::Raw => alone(alloc, tokens, BlockNode::Raw(String::new(alloc))),
        Blocks::Glob => alone(alloc, tokens, BlockNode::Glob),
    }
}

/// Returns the node of a plan. A plan of a text takes the text of its body.
fn finish_plan(alloc: Global, plan: BlockNode, body: BlockBody<'_>) -> Result<BlockNode, Error>
    ensures { Gives block_of result (finished (block_of plan) (body_of body.entry)) }
{
    match (plan, body) {
        (BlockNode::Raw(_), BlockBody::Escaped(slice)) => {
            Ok(BlockNode::Raw(String::from_str(alloc, slice)?))
        }
        (node, _) => Ok(node),
    }
}

impl BlockReflection for HostileBlocks {
    ghost block_names = { hostile_names_told };

    fn start_tag(&self) -> &str {
        match self {
            HostileBlocks::Plain(block) => block.start_tag(),
            HostileBlocks::Far => "far",
            HostileBlocks::Odd => "box",
            HostileBlocks::Early => "early",
        }
    }

    fn end_tag(&self) -> &str {
        match self {
            HostileBlocks::Plain(block) => block.end_tag(),
            HostileBlocks::Far => "endfar",
            HostileBlocks::Odd => "endbox",
            HostileBlocks::Early => "mid",
        }
    }

    fn description(&self) -> &str {
        match self {
            HostileBlocks::Plain(block) => block.description(),
            HostileBlocks::Far => "Asks for a part that it does not have.",
            HostileBlocks::Odd => "A box by any name.",
            HostileBlocks::Early => "Ends at its own divider.",
        }
    }
}

impl<F: ParseFilter> ParseBlock<F> for HostileBlocks {
    type Plan = HostileBlockNode;

    type Node = HostileBlockNode;

    ghost block = { whole_hostile_block };

    ghost named = { λ b. refl };

    fn dividers(&self) -> &[&str] {
        match self {
            HostileBlocks::Plain(Blocks::Swap) | HostileBlocks::Early => &MID,
            _ => &NO_DIVIDERS,
        }
    }

    fn escapes(&self) -> bool {
        match self {
            HostileBlocks::Plain(Blocks::Raw) => true,
            _ => false,
        }
    }

    fn nests(&self) -> bool {
        false
    }

    fn begin(
        &self,
        alloc: Global,
        tokens: TagTokenIter<'_>,
        _filters: &PluginRegistry<F>,
    ) -> Result<HostileBlockNode, Error> {
        match self {
            HostileBlocks::Plain(block) => {
                Ok(HostileBlockNode::Plain(plain_block(alloc, *block, tokens)?))
            }
            HostileBlocks::Far => alone(alloc, tokens, HostileBlockNode::Far),
            HostileBlocks::Odd => alone(alloc, tokens, HostileBlockNode::Plain(BlockNode::Box)),
            HostileBlocks::Early => alone(alloc, tokens, HostileBlockNode::Plain(BlockNode::Swap)),
        }
    }

    fn divide(
        &self,
        alloc: Global,
        _plan: &mut HostileBlockNode,
        _name: &str,
        tokens: TagTokenIter<'_>,
    ) -> Result<(), Error> {
        tokens.expect_nothing(alloc)
    }

    fn finish(
        &self,
        alloc: Global,
        plan: HostileBlockNode,
        body: BlockBody<'_>,
    ) -> Result<HostileBlockNode, Error> {
        match plan {
            HostileBlockNode::Plain(plan) => {
                Ok(HostileBlockNode::Plain(finish_plan(alloc, plan, body)?))
            }
            HostileBlockNode::Far => Ok(HostileBlockNode::Far),
        }
    }
}
