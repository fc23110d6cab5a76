//! The nodes of tags, and how they are rendered.
ghost use Rattle.liquid_tags.specs.meaning.Tags.{tag_nodes, tag_of};
ghost use Rattle.liquid_tags.specs.laws.TagLaws.{tags_hide};

use crate::assign::assign;
use crate::increment::increment;
use crate::partial_call::call::{Call, Inclusion, include};
use liquid_core::parser::{Bytes, ChainMark, FilterChain, ListOf, Meant};
use liquid_core::runtime::{ExpressionMark, Interrupt};
use liquid_core::{Discreet, Error, Filter, Fresh, Renderable, Runtime, Turn};
use std::alloc::Global;

/// What a tag is made into, over filters `X`.
#[derive(Drop)]
pub enum TagNode<X> {
    /// Assigns the value of a chain.
    Assign(String, Box<FilterChain<X>>),
    /// Writes an index variable, and increases it by one.
    Increment(String),
    /// Sets this interrupt.
    Interrupts(Interrupt),
    /// Renders a partial.
    Includes(Inclusion, Box<Call>),
}

/// Marks the shape of a tag, over filters of shape `S`.
pub enum TagShape<S> {
    Assign(Bytes, ChainMark<S>),
    Increment(Bytes),
    Interrupts(Interrupt),
    Includes(Inclusion, ExpressionMark, ListOf<(Bytes, ExpressionMark)>),
}

impl<X: Filter> Meant for TagNode<X> {
    type Shape = TagShape<X::Shape>;

    ghost shape = { tag_of X.shape };
}

/// Each tag takes one turn; the progress is the number of turns.
impl<X: Filter, V: Fresh> Renderable<V> for TagNode<X> {
    type Progress = u64;

    ghost means = { tag_nodes X.means };

    #[inline(always)]
    fn start<R: Runtime<Register = V>>(
        &self,
        _alloc: Global,
        _runtime: &mut R,
    ) -> Result<u64, Error> {
        Ok(1)
    }

    fn turns(progress: &u64) -> u64 {
        *progress
    }

    #[inline(always)]
    fn turn<R: Runtime<Register = V>>(
        &self,
        alloc: Global,
        _progress: &mut u64,
        runtime: &mut R,
    ) -> Result<Turn, Error> {
        match self {
            TagNode::Assign(name, chain) => assign(alloc, name, &**chain, runtime),
            TagNode::Increment(name) => increment(alloc, name, runtime),
            TagNode::Interrupts(interrupt) => {
                runtime.registers_mut().interrupt.set(*interrupt);
                Ok(Turn::End)
            }
            TagNode::Includes(inclusion, call) => include(alloc, *inclusion, &**call, &*runtime),
        }
    }

    fn caught(&self, _progress: &mut u64, text: String) {
        drop(text);
    }
}

impl<X: Filter, V: Fresh> Discreet<V> for TagNode<X> {
    ghost hides = { tags_hide X.means };
}
