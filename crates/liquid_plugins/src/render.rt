//! What a node does in its turns.
ghost use Rattle.std.specs.Prelude.{◌≡◌, Result, Some, OnSome, string_bytes};
ghost use Rattle.liquid_error.specs.meaning.Told.{Gives};
ghost use Rattle.liquid_runtime.specs.meaning.View.{View};
ghost use Rattle.liquid_runtime.specs.meaning.Written.{SameFrames, with_written};
ghost use Rattle.liquid_plugins.specs.meaning.Turns.{NodeMeaning};
ghost use Rattle.liquid_plugins.specs.meaning.TurnOf.{turn_of, Leaves, LeavesProgress};
ghost use Rattle.liquid_plugins.specs.meaning.Discreet.{Discreet};

use crate::meant::Meant;
use liquid_error::Error;
use liquid_runtime::{Frame, Fresh, LoopFrame, Runtime};
use std::alloc::Global;

/// What a turn returns. A part is a number, from 0. A frame begins before it and ends after it. A trace, if one is
/// given, is added to an error of the part.
#[derive(Drop)]
pub enum Turn {
    /// A text, which is written.
    Text(String),
    /// A part of the node, which is rendered.
    Body(u64, Frame, Option<String>),
    /// The partial of this name, which is rendered.
    Partial(String, Frame, Option<String>),
    /// A part of the node, which is rendered into a text of its own. Nothing of it is written; `caught` gets the text.
    Capture(u64, Frame, Option<String>),
    /// The node has ended.
    End,
}

/// A node that is rendered in turns.
pub trait Renderable<V: Fresh>: Meant + Drop {
    type Progress: Meant + Drop;

    // what each call returns and leaves, by the shapes of the node and of the progress, and the view
    ghost means: { NodeMeaning Self.Shape Self.Progress.Shape V.Shape };

    fn start<R: Runtime<Register = V>>(
        &self,
        alloc: Global,
        runtime: &mut R,
    ) -> Result<Self::Progress, Error>
        ensures answer { Gives Self.Progress.shape result (means.starts (Self.shape self.now) (R.view runtime.old)).answer }
        ensures after { Leaves result (means.starts (Self.shape self.now) (R.view runtime.old)).written
            (R.view runtime.old) (R.view runtime.new) }
        ensures frames { SameFrames (R.view runtime.old) (R.view runtime.new) }
        ensures store { R.store runtime.new ≡ R.store runtime.old }
        ensures owes { R.restores runtime.new ≡ R.restores runtime.old }
        ensures borrows { R.lent runtime.new ≡ R.lent runtime.old };

    fn turns(progress: &Self::Progress) -> u64
        ensures { result ≡ means.count (Self.Progress.shape progress.now) };

    fn turn<R: Runtime<Register = V>>(
        &self,
        alloc: Global,
        progress: &mut Self::Progress,
        runtime: &mut R,
    ) -> Result<Turn, Error>
        ensures answer { Gives turn_of result (means.takes (Self.shape self.now) (Self.Progress.shape progress.old)
            (R.view runtime.old)).answer }
        ensures after { Leaves result (means.takes (Self.shape self.now) (Self.Progress.shape progress.old) (R.view runtime.old)).written
            (R.view runtime.old) (R.view runtime.new) }
        ensures progress { LeavesProgress result (means.takes (Self.shape self.now) (Self.Progress.shape progress.old)
            (R.view runtime.old)).progress
            (Self.Progress.shape progress.new) }
        ensures frames { SameFrames (R.view runtime.old) (R.view runtime.new) }
        ensures store { R.store runtime.new ≡ R.store runtime.old }
        ensures owes { R.restores runtime.new ≡ R.restores runtime.old }
        ensures borrows { R.lent runtime.new ≡ R.lent runtime.old };

    /// Takes the text of the part that the last turn captured. The next turn follows. This is not called if the part
    /// had an error. A node that returns no `Turn::Capture` drops the text.
    fn caught(&self, progress: &mut Self::Progress, text: String)
        ensures { Self.Progress.shape progress.new
            ≡ means.catches (Self.shape self.now) (Self.Progress.shape progress.old) (string_bytes text) };

    /// Takes back the loop's frame of the turn that has ended, so that the next turn can write over it. The
    /// meaning of the progress does not change. A node that has no use for it keeps the default.
    fn recycle(&self, progress: &mut Self::Progress, frame: Box<LoopFrame>)
        ensures { Self.Progress.shape progress.new ≡ Self.Progress.shape progress.old }
    {
        drop(frame)
    }
}

/// A node whose meaning does not depend on hidden globals.
pub trait Discreet<V: Fresh>: Renderable<V> {
    // each start and each turn is discreet
    ghost hides: { Discreet Self.means };
}
