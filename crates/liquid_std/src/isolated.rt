//! Partials in frames of their own.
ghost use Rattle.std.specs.Prelude.{◌≡◌};
ghost use Rattle.liquid_runtime.specs.meaning.Calls.{frame_of};
ghost use Rattle.liquid_plugins.specs.meaning.TurnOf.{turn_of};
ghost use Rattle.liquid_std.specs.meaning.Isolated.{isolated, isolated_from};

use liquid_core::{Frame, Turn};

/// Returns the turn, with an isolated frame for its partial if it had a sandboxed one.
pub(crate) fn isolate(turn: Turn) -> Turn
    ensures { turn_of result ≡ isolated (turn_of turn) }
{
    match turn {
        Turn::Partial(name, frame, trace) => Turn::Partial(name, isolate_frame(frame), trace),
        other => other,
    }
}

/// Returns an isolated frame in place of a sandboxed one, and any other frame unchanged.
fn isolate_frame(frame: Frame) -> Frame
    ensures { frame_of result ≡ isolated_from (frame_of frame) }
{
    match frame {
        Frame::Sandboxed(names, own) => Frame::Isolated(names, own),
        other => other,
    }
}
