//! Blocks of two types as blocks of one.
ghost use Rattle.std.specs.Prelude.{◌≡◌, IfSome};
ghost use Rattle.liquid_error.specs.meaning.Told.{Gives, told};
ghost use Rattle.liquid_parser.specs.meaning.Handed.{Tokens};
ghost use Rattle.liquid_parser.specs.meaning.Plugins.{AreTokens, body_of};
ghost use Rattle.liquid_extend.specs.meaning.Plugins.{block_beside, names_beside, other_plan};
ghost use Rattle.liquid_extend.specs.laws.Named.{named_beside};

use crate::beside::one_of::Beside;
use liquid_error::Error;
use liquid_parser::{BlockBody, BlockReflection, ParseBlock, TagTokenIter};
use liquid_plugins::{ParseFilter, PluginRegistry};
use std::alloc::Global;

impl<L: BlockReflection, O: BlockReflection> BlockReflection for Beside<L, O> {
    ghost block_names = { names_beside L.block_names O.block_names };

    fn start_tag(&self) -> &str {
        match self {
            Beside::Library(block) => block.start_tag(),
            Beside::Own(block) => block.start_tag(),
        }
    }

    fn end_tag(&self) -> &str {
        match self {
            Beside::Library(block) => block.end_tag(),
            Beside::Own(block) => block.end_tag(),
        }
    }

    fn description(&self) -> &str {
        match self {
            Beside::Library(block) => block.description(),
            Beside::Own(block) => block.description(),
        }
    }

    fn example(&self) -> Option<&str> {
        match self {
            Beside::Library(block) => block.example(),
            Beside::Own(block) => block.example(),
        }
    }

    fn spec(&self) -> Option<&str> {
        match self {
            Beside::Library(block) => block.spec(),
            Beside::Own(block) => block.spec(),
        }
    }
}

impl<F: ParseFilter, L: ParseBlock<F>, O: ParseBlock<F>> ParseBlock<F> for Beside<L, O> {
    type Plan = Beside<L::Plan, O::Plan>;

    type Node = Beside<L::Node, O::Node>;

    ghost block = { block_beside L.block O.block };

    ghost named = { named_beside L.block_names O.block_names L.block O.block L.named O.named };

    fn dividers(&self) -> &[&str] {
        match self {
            Beside::Library(block) => block.dividers(),
            Beside::Own(block) => block.dividers(),
        }
    }

    fn escapes(&self) -> bool {
        match self {
            Beside::Library(block) => block.escapes(),
            Beside::Own(block) => block.escapes(),
        }
    }

    fn nests(&self) -> bool {
        match self {
            Beside::Library(block) => block.nests(),
            Beside::Own(block) => block.nests(),
        }
    }

    fn begin(
        &self,
        alloc: Global,
        tokens: TagTokenIter<'_>,
        filters: &PluginRegistry<F>,
    ) -> Result<Beside<L::Plan, O::Plan>, Error> {
        match self {
            Beside::Library(block) => Ok(Beside::Library(block.begin(alloc, tokens, filters)?)),
            Beside::Own(block) => Ok(Beside::Own(block.begin(alloc, tokens, filters)?)),
        }
    }

    // A block is handed the plan that it has begun. A plan of the other type is an error.
    fn divide(
        &self,
        alloc: Global,
        plan: &mut Beside<L::Plan, O::Plan>,
        name: &str,
        tokens: TagTokenIter<'_>,
    ) -> Result<(), Error> {
        match (self, plan) {
            (Beside::Library(block), Beside::Library(plan)) => {
                block.divide(alloc, plan, name, tokens)
            }
            (Beside::Own(block), Beside::Own(plan)) => block.divide(alloc, plan, name, tokens),
            (Beside::Library(_), Beside::Own(_)) => Err(other_plan(alloc)),
            (Beside::Own(_), Beside::Library(_)) => Err(other_plan(alloc)),
        }
    }

    fn finish(
        &self,
        alloc: Global,
        plan: Beside<L::Plan, O::Plan>,
        body: BlockBody<'_>,
    ) -> Result<Beside<L::Node, O::Node>, Error> {
        match (self, plan) {
            (Beside::Library(block), Beside::Library(plan)) => {
                Ok(Beside::Library(block.finish(alloc, plan, body)?))
            }
            (Beside::Own(block), Beside::Own(plan)) => {
                Ok(Beside::Own(block.finish(alloc, plan, body)?))
            }
            (Beside::Library(_), Beside::Own(_)) => Err(other_plan(alloc)),
            (Beside::Own(_), Beside::Library(_)) => Err(other_plan(alloc)),
        }
    }
}

/// Returns the error of a block that is handed the plan of another one.
fn other_plan(alloc: Global) -> Error
    ensures { IfSome (told result) (λ r. r ≡ other_plan) }
{
    Error::with_msg(alloc, "Plan of another block")
}
