//! The block `stock` with its divider `soldout`, which renders one of two parts.
ghost use Rattle.std.specs.Prelude.{◌≡◌, option_and_then, refl};
ghost use Rattle.liquid_scalar.specs.meaning.Scalar.{to_integer};
ghost use Rattle.liquid_value.specs.meaning.Parts.{as_scalar};
ghost use Rattle.liquid_value.specs.meaning.View.{view as tree_of};
ghost use Rattle.liquid_plugins.specs.meaning.ExpressionOf.{expression_of};
ghost use Rattle.example_shop.specs.laws.StockLaws.{stock_hides};
ghost use Rattle.example_shop.specs.meaning.Stocks.{part_for, stock, stock_block, stock_names};

use liquid_core::Error;
use liquid_core::model::Value;
use liquid_core::parser::{
    BlockBody, BlockReflection, Discreet, Meant, ParseBlock, ParseFilter, PluginRegistry,
    TagTokenIter,
};
use liquid_core::runtime::{Expression, ExpressionMark, Frame, Fresh, Renderable, Runtime, Turn};
use std::alloc::Global;

/// The plug-in, which reads the tokens of the block's tags.
#[derive(Debug, Clone, Copy, PartialEq, Eq, Drop)]
pub struct Stock;

static DIVIDERS: [&str; 1] = ["soldout"];

impl BlockReflection for Stock {
    ghost block_names = { λ _. stock_names };

    fn start_tag(&self) -> &str {
        "stock"
    }

    fn end_tag(&self) -> &str {
        "endstock"
    }

    fn description(&self) -> &str {
        "Renders its first part where a number is above 0, else the part after `soldout`."
    }
}

/// What it plans is the node that it will be.
impl<F: ParseFilter> ParseBlock<F> for Stock {
    type Plan = StockNode;

    type Node = StockNode;

    ghost block = { λ _. stock_block };

    // The names above are those of the block.
    ghost named = { λ _. refl };

    fn dividers(&self) -> &[&str] {
        &DIVIDERS
    }

    fn escapes(&self) -> bool {
        false
    }

    fn nests(&self) -> bool {
        false
    }

    fn begin(
        &self,
        alloc: Global,
        tokens: TagTokenIter<'_>,
        _filters: &PluginRegistry<F>,
    ) -> Result<StockNode, Error> {
        let mut tokens = tokens;
        let left = tokens.next_value(alloc, "Value expected")?;
        tokens.expect_nothing(alloc)?;
        Ok(StockNode { left })
    }

    fn divide(
        &self,
        alloc: Global,
        _plan: &mut StockNode,
        _name: &str,
        tokens: TagTokenIter<'_>,
    ) -> Result<(), Error> {
        tokens.expect_nothing(alloc)
    }

    fn finish(
        &self,
        _alloc: Global,
        plan: StockNode,
        _body: BlockBody<'_>,
    ) -> Result<StockNode, Error> {
        Ok(plan)
    }
}

/// The node, which is rendered.
#[derive(Drop)]
pub struct StockNode {
    pub left: Expression,
}

impl Meant for StockNode {
    type Shape = ExpressionMark;

    ghost shape = { λ node. expression_of node.left };
}

/// Its start chooses a part, which is the progress; its one turn renders that part.
impl<V: Fresh> Renderable<V> for StockNode {
    type Progress = u64;

    ghost means = { stock };

    fn start<R: Runtime<Register = V>>(
        &self,
        alloc: Global,
        runtime: &mut R,
    ) -> Result<u64, Error> {
        let value = self.left.evaluate(alloc, &*runtime)?;
        Ok(part_for(value.as_view()))
    }

    fn turns(_progress: &u64) -> u64 {
        1
    }

    fn turn<R: Runtime<Register = V>>(
        &self,
        _alloc: Global,
        progress: &mut u64,
        _runtime: &mut R,
    ) -> Result<Turn, Error> {
        Ok(Turn::Body(*progress, Frame::None, None))
    }

    fn caught(&self, _progress: &mut u64, text: String) {
        drop(text);
    }
}

/// The promise that lets it be rendered in a sandbox.
impl<V: Fresh> Discreet<V> for StockNode {
    ghost hides = { stock_hides };
}

/// Returns the first part for a number above 0, else the second.
fn part_for(left: &Value) -> u64
    ensures { result ≡ part_for (tree_of left.now) }
{
    match number_of(left) {
        Some(number) => if number <= 0 { 1 } else { 0 },
        None => 1,
    }
}

/// Returns the integer of a value, if it is one.
fn number_of(value: &Value) -> Option<i64>
    ensures { result ≡ option_and_then to_integer (as_scalar (tree_of value.now)) }
{
    match value {
        Value::Scalar(scalar) => scalar.to_integer(),
        _ => None,
    }
}
