//! The nodes of tags, and how they are rendered.
ghost use Rattle.std.specs.Prelude.{◌≡◌};
ghost use Rattle.liquid_std.specs.laws.TagLaws.{tags_hide};
ghost use Rattle.liquid_std.specs.meaning.Tags.{progress_of, tag_count, tag_nodes, tag_of};

use crate::decrement::decrement;
use crate::echo::echo;
use crate::inclusion::calls::PartialCallShape;
use crate::inclusion::rounds::CallRoundsShape;
use crate::inclusion::{CallRounds, PartialCall, call_rounds, call_turn};
use crate::isolated::isolate;
use crate::marks::cycle::CycleShape;
use crate::marks::{Cycle, HoldsMarks, cycle_turn};
use liquid_core::parser::{Bytes, ChainMark, FilterChain, Meant};
use liquid_core::{Discreet, Error, Filter, Renderable, Runtime, Turn};
use liquid_tags::TagNode;
use liquid_tags::tags::TagShape;
use std::alloc::Global;

/// The node of a tag, over filters `X`.
#[derive(Drop)]
pub enum StdTag<X> {
    /// A tag of `liquid_tags`. A partial that it renders sees what the partial itself assigns.
    Library(TagNode<X>),
    /// Decrements this index variable, and writes the new number.
    Decrement(String),
    /// Writes the value of a chain.
    Echo(Box<FilterChain<X>>),
    /// Writes the next value of a group.
    Cycle(Box<Cycle>),
    /// Renders a partial with a value, or for each item of one.
    Calls(Box<PartialCall>),
}

/// Marks the shape of a tag, over filters of shape `S`.
pub enum StdTagShape<S> {
    Library(TagShape<S>),
    Decrement(Bytes),
    Echo(ChainMark<S>),
    Cycle(CycleShape),
    Calls(PartialCallShape),
}

/// The progress of a tag.
#[derive(Drop)]
pub enum StdTagProgress {
    /// This number of turns.
    Turns(u64),
    /// The rounds of a call.
    Rounds(Box<CallRounds>),
}

/// Marks the shape of a tag's progress.
pub enum StdTagProgressShape {
    Turns(u64),
    Rounds(CallRoundsShape),
}

impl StdTagProgress {
    /// Returns the greatest number of turns.
    pub fn turns(&self) -> u64
        ensures { result ≡ tag_count (progress_of self.now) }
    {
        match self {
            StdTagProgress::Turns(turns) => *turns,
            StdTagProgress::Rounds(rounds) => rounds.turns(),
        }
    }
}

impl Meant for StdTagProgress {
    type Shape = StdTagProgressShape;

    ghost shape = { progress_of };
}

impl<X: Filter> Meant for StdTag<X> {
    type Shape = StdTagShape<X::Shape>;

    ghost shape = { tag_of X.shape };
}

/// A call with a value takes a turn for each item that it passes, and any other tag takes one turn.
impl<X: Filter, V: HoldsMarks> Renderable<V> for StdTag<X> {
    type Progress = StdTagProgress;

    ghost means = { tag_nodes V.holds X.means };

    fn start<R: Runtime<Register = V>>(
        &self,
        alloc: Global,
        runtime: &mut R,
    ) -> Result<StdTagProgress, Error> {
        match self {
            StdTag::Calls(call) => {
                let rounds = call_rounds(alloc, &**call, &*runtime)?;
                Ok(StdTagProgress::Rounds(rounds))
            }
            StdTag::Library(_) | StdTag::Decrement(_) | StdTag::Echo(_) | StdTag::Cycle(_) => {
                Ok(StdTagProgress::Turns(1))
            }
        }
    }

    fn turns(progress: &StdTagProgress) -> u64 {
        progress.turns()
    }

    #[inline(always)]
    fn turn<R: Runtime<Register = V>>(
        &self,
        alloc: Global,
        progress: &mut StdTagProgress,
        runtime: &mut R,
    ) -> Result<Turn, Error> {
        match (self, progress) {
            (StdTag::Library(tag), StdTagProgress::Turns(turns)) => {
                Ok(isolate(tag.turn(alloc, turns, runtime)?))
            }
            (StdTag::Calls(_), StdTagProgress::Rounds(rounds)) => {
                Ok(call_turn(alloc, &mut **rounds)?)
            }
            (StdTag::Decrement(name), _) => decrement(alloc, name, runtime),
            (StdTag::Echo(chain), _) => echo(alloc, &**chain, &*runtime),
            (StdTag::Cycle(cycle), _) => cycle_turn(alloc, &**cycle, runtime),
            (StdTag::Library(_), StdTagProgress::Rounds(_))
            | (StdTag::Calls(_), StdTagProgress::Turns(_)) => Ok(Turn::End),
        }
    }

    fn caught(&self, _progress: &mut StdTagProgress, text: String) {
        drop(text);
    }
}

impl<X: Filter, V: HoldsMarks> Discreet<V> for StdTag<X> {
    ghost hides = { tags_hide V.holds X.means };
}
