//! Malicious tags and blocks: they request turns and parts that don't exist.
ghost use Rattle.test_plugins.specs.meaning.Hostile.{
  hostile_block_nodes,
  hostile_block_of,
  hostile_tag_nodes,
  hostile_tag_of,
};

use crate::blocks::{BlockNode, BlockShape, Stage};
use crate::tags::{TagNode, TagShape};
use liquid_error::Error;
use liquid_plugins::{Meant, Renderable, Turn};
use liquid_runtime::{Frame, Fresh, Runtime};
use std::alloc::Global;

/// What a tag is made into in a language with malicious tags.
#[derive(Drop)]
pub enum HostileTagNode {
    /// A tag of the plain language.
    Plain(TagNode),
    /// Says that it has three turns, and writes `s` at every turn that it is given.
    Spin,
    /// Says that it has no turns, and would write `s` at every turn that it is given.
    Mute,
}

/// Marks the shape of such a tag.
pub enum HostileTagShape {
    Plain(TagShape),
    Spin,
    Mute,
}

/// What a block is made into in a language with malicious blocks.
#[derive(Drop)]
pub enum HostileBlockNode {
    /// A block of the plain language.
    Plain(BlockNode),
    /// Requests a tenth part, and then ends.
    Far,
}

/// Marks the shape of such a block.
pub enum HostileBlockShape {
    Plain(BlockShape),
    Far,
}

impl Meant for HostileTagNode {
    type Shape = HostileTagShape;

    ghost shape = { hostile_tag_of };
}

/// The progress is the number of turns.
impl<V: Fresh> Renderable<V> for HostileTagNode {
    type Progress = u64;

    ghost means = { hostile_tag_nodes };

    fn start<R: Runtime<Register = V>>(
        &self,
        _alloc: Global,
        _runtime: &mut R,
    ) -> Result<u64, Error> {
        match self {
            HostileTagNode::Plain(_) => Ok(1),
            HostileTagNode::Spin => Ok(3),
            HostileTagNode::Mute => Ok(0),
        }
    }

    fn turns(progress: &u64) -> u64 {
        *progress
    }

    fn turn<R: Runtime<Register = V>>(
        &self,
        alloc: Global,
        progress: &mut u64,
        runtime: &mut R,
    ) -> Result<Turn, Error> {
        match self {
            HostileTagNode::Plain(tag) => tag.turn(alloc, progress, runtime),
            HostileTagNode::Spin | HostileTagNode::Mute => {
                Ok(Turn::Text(String::from_str(alloc, "s")?))
            }
        }
    }

    fn caught(&self, _progress: &mut u64, text: String) {
        drop(text);
    }
}

impl Meant for HostileBlockNode {
    type Shape = HostileBlockShape;

    ghost shape = { hostile_block_of };
}

impl<V: Fresh> Renderable<V> for HostileBlockNode {
    type Progress = Stage;

    ghost means = { hostile_block_nodes };

    fn start<R: Runtime<Register = V>>(
        &self,
        _alloc: Global,
        _runtime: &mut R,
    ) -> Result<Stage, Error> {
        Ok(Stage::First)
    }

    fn turns(_progress: &Stage) -> u64 {
        3
    }

    fn turn<R: Runtime<Register = V>>(
        &self,
        alloc: Global,
        progress: &mut Stage,
        runtime: &mut R,
    ) -> Result<Turn, Error> {
        match self {
            HostileBlockNode::Plain(block) => block.turn(alloc, progress, runtime),
            HostileBlockNode::Far => {
                let stage = *progress;
                *progress = Stage::Over;
                match stage {
                    Stage::First => Ok(Turn::Body(9, Frame::None, None)),
                    _ => Ok(Turn::End),
                }
            }
        }
    }

    fn caught(&self, _progress: &mut Stage, text: String) {
        drop(text);
    }
}
