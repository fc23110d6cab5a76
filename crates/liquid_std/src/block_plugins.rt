//! The blocks, as plug-ins.
ghost use Rattle.std.specs.Prelude.{◌≡◌, refl};
ghost use Rattle.liquid_error.specs.meaning.Told.{Gives};
ghost use Rattle.liquid_parser.specs.meaning.Handed.{Tokens};
ghost use Rattle.liquid_parser.specs.meaning.Plugins.{AreTokens};
ghost use Rattle.liquid_std.specs.meaning.BlockPlugins.{begun, finished_escaped, names_told, node_divided, plan_of, planned, whole_block};
ghost use Rattle.liquid_std.specs.meaning.Blocks.{block_of};

use crate::blocks::{StdBlock, StdBlockShape};
use crate::capture::begin_capture;
use crate::case::{begin_case, push_alternatives};
use crate::conditionals::{begin_if, begin_unless, push_condition};
use crate::conditions::Equality;
use crate::iteration::OverScalar;
use crate::loops::{begin_for, begin_tablerow};
use liquid_core::parser::{Meant, PluginRegistry};
use liquid_core::{BlockBody, BlockReflection, Error, ParseBlock, ParseFilter, TagTokenIter};
use liquid_tags::asked::alone;
use std::alloc::Global;

/// The dividers of `if` and `unless`.
static IF_DIVIDERS: [&str; 2] = ["elsif", "else"];

/// The dividers of `case`.
static CASE_DIVIDERS: [&str; 2] = ["when", "else"];

/// The divider of `for`.
static FOR_DIVIDERS: [&str; 1] = ["else"];

/// The dividers of the other blocks.
static NO_DIVIDERS: [&str; 0] = [];

/// The standard blocks.
#[derive(Debug, Clone, Copy, PartialEq, Eq, Drop)]
pub enum StdBlocks {
    /// `if`, whose conditions compare by this equality.
    If(Equality),
    /// `unless`, whose conditions compare by this equality.
    Unless(Equality),
    /// `case`, whose values are compared by this equality.
    Case(Equality),
    /// `for`, with what it goes over if its series is a scalar.
    For(OverScalar),
    Tablerow,
    Capture,
    Ifchanged,
    Comment,
    Raw,
}

/// A block that is being read: its node so far, and whether its `else` has come.
#[derive(Drop)]
pub struct StdPlan {
    pub node: StdBlock,
    pub is_closed: bool,
}

/// Marks the shape of a plan.
pub struct StdPlanShape {
    pub node: StdBlockShape,
    pub is_closed: bool,
}

impl Meant for StdPlan {
    type Shape = StdPlanShape;

    ghost shape = { plan_of };
}

impl StdPlan {
    /// Returns a plan that no `else` has closed yet.
    pub(crate) fn new(node: StdBlock) -> StdPlan
        ensures { plan_of result ≡ planned (block_of node) }
    {
        StdPlan {
            node,
            is_closed: false,
        }
    }
}

impl BlockReflection for StdBlocks {
    ghost block_names = { names_told };

    fn start_tag(&self) -> &str {
        match self {
            StdBlocks::If(_) => "if",
            StdBlocks::Unless(_) => "unless",
            StdBlocks::Case(_) => "case",
            StdBlocks::For(_) => "for",
            StdBlocks::Tablerow => "tablerow",
            StdBlocks::Capture => "capture",
            StdBlocks::Ifchanged => "ifchanged",
            StdBlocks::Comment => "comment",
            StdBlocks::Raw => "raw",
        }
    }

    fn end_tag(&self) -> &str {
        match self {
            StdBlocks::If(_) => "endif",
            StdBlocks::Unless(_) => "endunless",
            StdBlocks::Case(_) => "endcase",
            StdBlocks::For(_) => "endfor",
            StdBlocks::Tablerow => "endtablerow",
            StdBlocks::Capture => "endcapture",
            StdBlocks::Ifchanged => "endifchanged",
            StdBlocks::Comment => "endcomment",
            StdBlocks::Raw => "endraw",
        }
    }

    fn description(&self) -> &str {
        match self {
            StdBlocks::If(_) => "Renders the part after the first condition that holds.",
            StdBlocks::Unless(_) =>
                "Renders its first part if its condition does not hold, else as an if does.",
            StdBlocks::Case(_) => "Renders the part of the first when that has an equal value.",
            StdBlocks::For(_) =>
                "Renders its body for each item of an array, an object or a range.",
            StdBlocks::Tablerow => "Renders its body in a cell of a table for each item.",
            StdBlocks::Capture => "Assigns the text of its part to a name.",
            StdBlocks::Ifchanged =>
                "Renders its part, unless its text is that of the last ifchanged.",
            StdBlocks::Comment => "Writes nothing.",
            StdBlocks::Raw => "Writes its body as it stands.",
        }
    }
}

impl<F: ParseFilter> ParseBlock<F> for StdBlocks {
    type Plan = StdPlan;

    type Node = StdBlock;

    ghost block = { whole_block };

    ghost named = { λ b. refl };

    fn dividers(&self) -> &[&str] {
        match self {
            StdBlocks::If(_) | StdBlocks::Unless(_) => &IF_DIVIDERS,
            StdBlocks::Case(_) => &CASE_DIVIDERS,
            StdBlocks::For(_) => &FOR_DIVIDERS,
            StdBlocks::Tablerow
            | StdBlocks::Capture
            | StdBlocks::Ifchanged
            | StdBlocks::Comment
            | StdBlocks::Raw => &NO_DIVIDERS,
        }
    }

    fn escapes(&self) -> bool {
        match self {
            StdBlocks::Comment | StdBlocks::Raw => true,
            StdBlocks::If(_)
            | StdBlocks::Unless(_)
            | StdBlocks::Case(_)
            | StdBlocks::For(_)
            | StdBlocks::Tablerow
            | StdBlocks::Capture
            | StdBlocks::Ifchanged => false,
        }
    }

    fn nests(&self) -> bool {
        match self {
            StdBlocks::Comment => true,
            StdBlocks::If(_)
            | StdBlocks::Unless(_)
            | StdBlocks::Case(_)
            | StdBlocks::For(_)
            | StdBlocks::Tablerow
            | StdBlocks::Capture
            | StdBlocks::Ifchanged
            | StdBlocks::Raw => false,
        }
    }

    fn begin(
        &self,
        alloc: Global,
        tokens: TagTokenIter<'_>,
        _filters: &PluginRegistry<F>,
    ) -> Result<StdPlan, Error> {
        begin_block(alloc, *self, tokens)
    }

    fn divide(
        &self,
        alloc: Global,
        plan: &mut StdPlan,
        name: &str,
        tokens: TagTokenIter<'_>,
    ) -> Result<(), Error> {
        if plan.is_closed {
            return Err(tokens.raise_error(alloc, "Divider after else"));
        }
        if name == "else" {
            tokens.expect_nothing(alloc)?;
            plan.is_closed = true;
            return Ok(());
        }
        divide_node(alloc, &mut plan.node, tokens)
    }

    fn finish(&self, alloc: Global, plan: StdPlan, body: BlockBody<'_>) -> Result<StdBlock, Error> {
        match body {
            BlockBody::Escaped(text) => finish_escaped(alloc, plan.node, text),
            BlockBody::Parts(_) => Ok(plan.node),
        }
    }
}

/// Reads the start tag of a block.
fn begin_block(alloc: Global, block: StdBlocks, tokens: TagTokenIter<'_>) -> Result<StdPlan, Error>
    ensures { (ts : Tokens) → AreTokens tokens.entry ts → Gives plan_of result (begun block ts) }
{
    match block {
        StdBlocks::If(equality) => begin_if(alloc, equality, tokens),
        StdBlocks::Unless(equality) => begin_unless(alloc, equality, tokens),
        StdBlocks::Case(equality) => begin_case(alloc, equality, tokens),
        StdBlocks::For(over) => begin_for(alloc, over, tokens),
        StdBlocks::Tablerow => begin_tablerow(alloc, tokens),
        StdBlocks::Capture => begin_capture(alloc, tokens),
        StdBlocks::Ifchanged => alone(alloc, tokens, StdPlan::new(StdBlock::Ifchanged)),
        StdBlocks::Comment => alone(alloc, tokens, StdPlan::new(StdBlock::Comment)),
        StdBlocks::Raw => alone(
            alloc,
            tokens,
            StdPlan::new(StdBlock::Raw(String::new(alloc))),
        ),
    }
}

/// Reads a divider that is not `else`: the condition of an `elsif`, or the alternatives of a `when`.
fn divide_node(alloc: Global, node: &mut StdBlock, tokens: TagTokenIter<'_>) -> Result<(), Error>
    ensures { (ts : Tokens) → AreTokens tokens.entry ts → Gives (λ _. block_of node.new) result (node_divided (block_of node.old) ts) }
{
    match node {
        StdBlock::If(_, conditions) => push_condition(alloc, conditions, tokens),
        StdBlock::Unless(_, conditions) => push_condition(alloc, conditions, tokens),
        StdBlock::Case(_, case) => push_alternatives(alloc, &mut **case, tokens),
        StdBlock::For(_, _)
        | StdBlock::Tablerow(_)
        | StdBlock::Capture(_)
        | StdBlock::Ifchanged
        | StdBlock::Comment
        | StdBlock::Raw(_) => tokens.expect_nothing(alloc),
    }
}

/// Returns the node of a block with an escaped body, which is the text of a `raw`.
fn finish_escaped(alloc: Global, node: StdBlock, text: &str) -> Result<StdBlock, Error>
    ensures { Gives block_of result (finished_escaped (block_of node) text.now) }
{
    match node {
        StdBlock::Raw(_) => Ok(StdBlock::Raw(String::from_str(alloc, text)?)),
        other => Ok(other),
    }
}
