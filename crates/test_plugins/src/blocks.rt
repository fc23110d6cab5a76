//! Blocks for tests: what they are made into, and how that is rendered.
ghost use Rattle.std.specs.FinMap.{empty, insert};
ghost use Rattle.std.specs.Prelude.{◌≡◌, IfOk, string_bytes};
ghost use Rattle.liquid_error.specs.meaning.Told.{Gives};
ghost use Rattle.liquid_value.specs.meaning.View.{view as tree_of};
ghost use Rattle.liquid_runtime.specs.meaning.Calls.{frame_of};
ghost use Rattle.liquid_runtime.specs.meaning.Maps.{names_of};
ghost use Rattle.liquid_plugins.specs.meaning.Evaluation.{evaluate};
ghost use Rattle.liquid_plugins.specs.meaning.ExpressionOf.{expression_of};
ghost use Rattle.test_plugins.specs.meaning.Blocks.{block_nodes, block_of, bound, next_stage};
ghost use Rattle.test_plugins.specs.laws.BlockLaws.{blocks_hide};

use liquid_error::Error;
use liquid_plugins::{Bytes, Discreet, Expression, ExpressionMark, Meant, Renderable, Turn};
use liquid_runtime::{Frame, Fresh, Runtime};
use liquid_value::{Object, Value};
use std::alloc::{AllocError, Global};

/// What a block is made into.
#[derive(Drop)]
pub enum BlockNode {
    /// `[`, the body without a frame, and `]`.
    Box,
    /// The body under a sandboxed frame without names.
    Sbox,
    /// The second part, and then the first, without a frame.
    Swap,
    /// A text that is written unchanged.
    Raw(String),
    /// The body under a stack frame of one name, whose value is that of an expression.
    With(String, Box<Expression>),
    /// The body under a global frame.
    Glob,
}

/// Marks the shape of a block.
pub enum BlockShape {
    Box,
    Sbox,
    Swap,
    Raw(Bytes),
    With(Bytes, ExpressionMark),
    Glob,
}

/// The next turn of a block.
#[derive(Debug, Clone, Copy, PartialEq, Eq)]
pub enum Stage {
    First,
    Second,
    Third,
    Over,
}

impl Meant for BlockNode {
    type Shape = BlockShape;

    ghost shape = { block_of };
}

impl Meant for Stage {
    type Shape = Stage;

    ghost shape = { λ stage. stage };
}

impl<V: Fresh> Renderable<V> for BlockNode {
    type Progress = Stage;

    ghost means = { block_nodes };

    fn start<R: Runtime<Register = V>>(
        &self,
        _alloc: Global,
        _runtime: &mut R,
    ) -> Result<Stage, Error> {
        Ok(Stage::First)
    }

    fn turns(_progress: &Stage) -> u64 {
        3
    }

    fn turn<R: Runtime<Register = V>>(
        &self,
        alloc: Global,
        progress: &mut Stage,
        runtime: &mut R,
    ) -> Result<Turn, Error> {
        let stage = *progress;
        *progress = next_stage(stage);
        match (self, stage) {
            (BlockNode::Box, Stage::First) => Ok(Turn::Text(String::from_str(alloc, "[")?)),
            (BlockNode::Box, Stage::Second) => Ok(Turn::Body(0, Frame::None, None)),
            (BlockNode::Box, Stage::Third) => Ok(Turn::Text(String::from_str(alloc, "]")?)),
            (BlockNode::Sbox, Stage::First) => {
                Ok(Turn::Body(0, Frame::Sandboxed(no_names(alloc), None), None))
            }
            (BlockNode::Swap, Stage::First) => Ok(Turn::Body(1, Frame::None, None)),
            (BlockNode::Swap, Stage::Second) => Ok(Turn::Body(0, Frame::None, None)),
            (BlockNode::Raw(text), Stage::First) => Ok(Turn::Text(text.clone()?)),
            (BlockNode::With(name, expression), Stage::First) => {
                let frame = bind_name(alloc, name, &**expression, &*runtime)?;
                Ok(Turn::Body(0, frame, None))
            }
            (BlockNode::Glob, Stage::First) => Ok(Turn::Body(0, Frame::Global, None)),
            _ => Ok(Turn::End),
        }
    }

    fn caught(&self, _progress: &mut Stage, text: String) {
        drop(text);
    }
}

impl<V: Fresh> Discreet<V> for BlockNode {
    ghost hides = { blocks_hide };
}

/// Returns the turn after a turn.
fn next_stage(stage: Stage) -> Stage
    ensures { result ≡ next_stage stage }
{
    match stage {
        Stage::First => Stage::Second,
        Stage::Second => Stage::Third,
        Stage::Third | Stage::Over => Stage::Over,
    }
}

/// Returns a stack frame of one name, with the value of the expression.
fn bind_name<R: Runtime>(
    alloc: Global,
    name: &String,
    expression: &Expression,
    runtime: &R,
) -> Result<Frame, Error>
    ensures { Gives frame_of result (bound (string_bytes name.now) (evaluate (R.view runtime.now) (expression_of expression.now))) }
{
    let value = expression.evaluate(alloc, runtime)?;
    let names = one_name(alloc, name, value.into_owned()?)?;
    Ok(Frame::Stack(names, None))
}

/// Returns an object of one name, which has this value.
#[tactic(auto, using(liquid_runtime::proofs::ObjectNames::changed_objects))]
fn one_name(alloc: Global, name: &String, value: Value) -> Result<Object, AllocError>
    ensures { IfOk result (λ object. names_of object ≡ insert empty (string_bytes name.now) (tree_of value)) }
{
    let mut names = no_names(alloc);
    names.insert(name.clone()?, value)?;
    Ok(names)
}

/// Returns an object without names.
#[tactic(auto, using(liquid_runtime::proofs::ObjectNames::changed_objects))]
fn no_names(alloc: Global) -> Object
    ensures { names_of result ≡ empty }
{
    Object::new(alloc)
}
