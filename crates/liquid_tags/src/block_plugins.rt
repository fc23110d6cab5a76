//! The blocks, as plug-ins.
ghost use Rattle.std.specs.Prelude.{◌≡◌, refl, IfOk};
ghost use Rattle.liquid_error.specs.meaning.Told.{Gives};
ghost use Rattle.liquid_parser.specs.meaning.Cursors.{IsToken, Takes, Tries};
ghost use Rattle.liquid_parser.specs.meaning.Handed.{Token, Tokens};
ghost use Rattle.liquid_parser.specs.meaning.Plugins.{AreTokens, body_of};
ghost use Rattle.liquid_tags.specs.meaning.Asked.{next_as};
ghost use Rattle.liquid_tags.specs.meaning.Series.{series_of};
ghost use Rattle.liquid_tags.specs.meaning.Blocks.{block_of};
ghost use Rattle.liquid_tags.specs.meaning.Conditions.{condition_of};
ghost use Rattle.liquid_tags.specs.declared.block_plugins.Blocks.TheVariants.{If, For};
ghost use Rattle.liquid_tags.specs.meaning.BlockPlugins.{begun, expect_series, names_told, plan_of, planned, whole_block, with_condition};

use crate::asked::{TOKEN_EXPECTED, alone};
use crate::blocks::{BlockNode, BlockShape};
use crate::for_block::series::Series;
use crate::if_block::condition::Condition;
use crate::if_block::read_condition::read_condition;
use liquid_core::parser::{Meant, PluginRegistry, TagToken, TryMatchToken};
use liquid_core::{BlockBody, BlockReflection, Error, ParseBlock, ParseFilter, TagTokenIter};
use std::alloc::{AllocError, Global};

/// The dividers of `if`.
static IF_DIVIDERS: [&str; 2] = ["elsif", "else"];

/// The divider of `for`.
static FOR_DIVIDERS: [&str; 1] = ["else"];

static NO_DIVIDERS: [&str; 0] = [];

/// The blocks of the library.
#[derive(Debug, Clone, Copy, PartialEq, Eq, Drop)]
pub enum Blocks {
    If,
    For,
    Raw,
}

/// What is planned while a block is read: the node so far, and whether its `else` was read.
#[derive(Drop)]
pub struct BlockPlan {
    pub node: BlockNode,
    pub is_closed: bool,
}

/// Marks the shape of a plan.
pub struct PlanShape {
    pub node: BlockShape,
    pub is_closed: bool,
}

impl Meant for BlockPlan {
    type Shape = PlanShape;

    ghost shape = { plan_of };
}

impl BlockReflection for Blocks {
    ghost block_names = { names_told };

    fn start_tag(&self) -> &str {
        match self {
            Blocks::If => "if",
            Blocks::For => "for",
            Blocks::Raw => "raw",
        }
    }

    fn end_tag(&self) -> &str {
        match self {
            Blocks::If => "endif",
            Blocks::For => "endfor",
            Blocks::Raw => "endraw",
        }
    }

    fn description(&self) -> &str {
        match self {
            Blocks::If => "Renders the part after the first condition that holds.",
            Blocks::For => "Renders its body for each item of an array, an object or a range.",
            Blocks::Raw => "Writes its body as it stands.",
        }
    }
}

impl<F: ParseFilter> ParseBlock<F> for Blocks {
    type Plan = BlockPlan;

    type Node = BlockNode;

    ghost block = { whole_block };

    ghost named = { λ b. refl };

    fn dividers(&self) -> &[&str] {
        match self {
            Blocks::If => &IF_DIVIDERS,
            Blocks::For => &FOR_DIVIDERS,
            Blocks::Raw => &NO_DIVIDERS,
        }
    }

    fn escapes(&self) -> bool {
        match self {
            Blocks::Raw => true,
            Blocks::If | Blocks::For => false,
        }
    }

    fn nests(&self) -> bool {
        false
    }

    fn begin(
        &self,
        alloc: Global,
        tokens: TagTokenIter<'_>,
        _filters: &PluginRegistry<F>,
    ) -> Result<BlockPlan, Error> {
        begin_block(alloc, *self, tokens)
    }

    fn divide(
        &self,
        alloc: Global,
        plan: &mut BlockPlan,
        name: &str,
        tokens: TagTokenIter<'_>,
    ) -> Result<(), Error> {
        if plan.is_closed {
            return Err(tokens.raise_error(alloc, "Divider after else"));
        }
        if name == "else" {
            tokens.expect_nothing(alloc)?;
            plan.is_closed = true;
            return Ok(());
        }
        let condition = read_condition(alloc, tokens)?;
        Ok(add_condition(&mut plan.node, condition)?)
    }

    fn finish(
        &self,
        alloc: Global,
        plan: BlockPlan,
        body: BlockBody<'_>,
    ) -> Result<BlockNode, Error> {
        match body {
            BlockBody::Escaped(text) => Ok(BlockNode::Raw(String::from_str(alloc, text)?)),
            BlockBody::Parts(_) => Ok(plan.node),
        }
    }
}

/// Returns the plan of a block's start tag.
fn begin_block(alloc: Global, block: Blocks, tokens: TagTokenIter<'_>) -> Result<BlockPlan, Error>
    ensures { (ts : Tokens) → AreTokens tokens.entry ts → Gives plan_of result (begun block ts) }
{
    match block {
        Blocks::If => begin_if(alloc, tokens),
        Blocks::For => begin_for(alloc, tokens),
        Blocks::Raw => alone(alloc, tokens, plan_for(BlockNode::Raw(String::new(alloc)))),
    }
}

/// Adds a condition to an `if`.
fn add_condition(node: &mut BlockNode, condition: Condition) -> Result<(), AllocError>
    ensures { IfOk result (λ _. block_of node.new ≡ with_condition (condition_of condition) (block_of node.old)) }
{
    match node {
        BlockNode::If(conditions) => {
            conditions.push(condition)?;
            Ok(())
        }
        BlockNode::For(_, _) | BlockNode::Raw(_) => Ok(()),
    }
}

fn plan_for(node: BlockNode) -> BlockPlan
    ensures { plan_of result ≡ planned (block_of node) }
{
    BlockPlan {
        node,
        is_closed: false,
    }
}

fn begin_if(alloc: Global, tokens: TagTokenIter<'_>) -> Result<BlockPlan, Error>
    ensures { (ts : Tokens) → AreTokens tokens.entry ts → Gives plan_of result (begun If ts) }
{
    let first = read_condition(alloc, tokens)?;
    let mut conditions = Vec::new(alloc);
    conditions.push(first)?;
    Ok(plan_for(BlockNode::If(conditions)))
}

fn begin_for(alloc: Global, tokens: TagTokenIter<'_>) -> Result<BlockPlan, Error>
    ensures { (ts : Tokens) → AreTokens tokens.entry ts → Gives plan_of result (begun For ts) }
{
    let mut tokens = tokens;
    let name = tokens.next_identifier(alloc, TOKEN_EXPECTED)?;
    tokens.next_str(alloc, TOKEN_EXPECTED, "in")?;
    let series = next_series(alloc, &mut tokens)?;
    let name = String::from_str(alloc, name)?;
    let series = Box::new(alloc, series)?;
    alone(alloc, tokens, plan_for(BlockNode::For(name, series)))
}

/// Returns the range or the value that the next token is.
pub fn next_series(alloc: Global, tokens: &mut TagTokenIter<'_>) -> Result<Series, Error>
    ensures { (ts : Tokens) → AreTokens tokens.old ts → Takes series_of result tokens.new (next_as expect_series ts) }
{
    let token = tokens.expect_next(alloc, TOKEN_EXPECTED)?;
    expect_series(alloc, token)?.into_result(alloc)
}

/// Reads a range, or a value without filters.
#[tactic(auto, using(crate::proofs::SeriesTokens::range_as_series, crate::proofs::SeriesTokens::value_as_series))]
fn expect_series<'a>(
    alloc: Global,
    token: TagToken<'a>,
) -> Result<TryMatchToken<'a, Series>, AllocError>
    ensures { (t : Token) → IsToken token.entry t → IfOk result (λ m. Tries series_of token.entry m (expect_series t)) }
{
    match token.expect_range(alloc)? {
        TryMatchToken::Matches((from, to)) => {
            Ok(TryMatchToken::Matches(Series::Between(from, to)))
        }
        TryMatchToken::Fails(token) => match token.expect_value(alloc)? {
            TryMatchToken::Matches(value) => Ok(TryMatchToken::Matches(Series::Of(value))),
            TryMatchToken::Fails(token) => Ok(TryMatchToken::Fails(token)),
        },
    }
}
