//! Frames as values, and runtimes on which they are pushed and popped.
ghost use Rattle.std.specs.Prelude.{◌≡◌, ℕ, List, [], ◌∷◌, ◌<◌, length, None, IfErr, OnOk, OnErr};
ghost use Rattle.liquid_error.specs.meaning.Told.{told};
ghost use Rattle.liquid_runtime.specs.meaning.View.{View};
ghost use Rattle.liquid_runtime.specs.meaning.Frames.{Restore, scope_base, beginning, restored_by};
ghost use Rattle.liquid_runtime.specs.meaning.OpenFrames.{opened, EndsFirst};
ghost use Rattle.liquid_runtime.specs.meaning.Calls.{frame_of};

use crate::loop_frame::LoopFrame;
use crate::registers::Fresh;
use crate::runtime::Runtime;
use liquid_error::Error;
use liquid_value::Object;
use std::alloc::Global;

/// A frame, as a value.
#[derive(Drop)]
pub enum Frame {
    /// No frame. It is pushed and popped like any other.
    None,
    /// Names that hide those below, with the name of the template if it sets one.
    Stack(Object, Option<String>),
    /// The names of a loop's turn, which hide those below.
    Loop(Box<LoopFrame>),
    /// These names alone, with a fresh interrupt and a fresh register. What is assigned goes to the frames below, and
    /// is not seen.
    Sandboxed(Object, Option<String>),
    /// A sandboxed frame in which what is assigned is seen, and ends with the frame.
    Isolated(Object, Option<String>),
    /// A frame that takes what a template assigns.
    Global,
}

/// A runtime over one base, on which frames are pushed and popped.
pub trait Scopes: Runtime {
    type Base: Runtime<Register = Self::Register, Store = Self::Store>;

    /// Returns scopes over this base, without a frame of their own.
    fn new(alloc: Global, base: Self::Base) -> Self
        ensures view { Self.view result ≡ Self.Base.view base }
        ensures store { Self.store result ≡ Self.Base.store base }
        ensures owes { Self.restores result ≡ scope_base ∷ Self.Base.restores base }
        ensures borrows { Self.lent result ≡ Self.Base.lent base };

    /// Begins a frame. A `None` frame changes nothing and counts like any other. An `Err` means out of memory, and
    /// leaves everything as it was.
    fn push(&mut self, frame: Frame) -> Result<(), Error>
        ensures ok { OnOk result (Self.view self.new ≡ beginning Self.Register.fresh (frame_of frame) (Self.view self.old)) }
        ensures opens { OnOk result (Self.restores self.new ≡ restored_by (frame_of frame) (Self.view self.old) ∷ Self.restores self.old) }
        ensures err { IfErr result (λ e. told e ≡ None) }
        ensures unchanged { OnErr result (Self.view self.new ≡ Self.view self.old) }
        ensures owes { OnErr result (Self.restores self.new ≡ Self.restores self.old) }
        ensures store { Self.store self.new ≡ Self.store self.old }
        ensures borrows { Self.lent self.new ≡ Self.lent self.old };

    /// Ends the frame that was begun last. The caller has pushed one that it has not popped.
    fn pop(&mut self)
        requires { 0 < length (opened (Self.restores self.old)) }
        ensures ends { EndsFirst (Self.restores self.old) (Self.view self.old) (Self.restores self.new) (Self.view self.new) }
        ensures store { Self.store self.new ≡ Self.store self.old }
        ensures borrows { Self.lent self.new ≡ Self.lent self.old };

    /// Ends the frame that was begun last, as `pop` does, and returns it if it is that of a loop.
    fn pop_loop(&mut self) -> Option<Box<LoopFrame>>
        requires { 0 < length (opened (Self.restores self.old)) }
        ensures ends { EndsFirst (Self.restores self.old) (Self.view self.old) (Self.restores self.new) (Self.view self.new) }
        ensures store { Self.store self.new ≡ Self.store self.old }
        ensures borrows { Self.lent self.new ≡ Self.lent self.old }
    {
        self.pop();
        None
    }

    /// Returns the number of open frames.
    fn frames(&self) -> usize
        ensures { result ≡ length (opened (Self.restores self.now)) };

    /// Returns the base. The caller has popped every frame.
    fn into_base(self) -> Self::Base
        requires { opened (Self.restores self) ≡ [] }
        ensures view { Self.Base.view result ≡ Self.view self }
        ensures store { Self.Base.store result ≡ Self.store self }
        ensures owes { scope_base ∷ Self.Base.restores result ≡ Self.restores self }
        ensures borrows { Self.Base.lent result ≡ Self.lent self };
}
