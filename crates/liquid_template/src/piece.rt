//! Writing one piece to a sink.
ghost use Rattle.std.specs.Prelude.{◌≡◌, IsOk};
ghost use Rattle.liquid_template.specs.steps.PiecePut.{PiecePut};

use crate::sink::{Sink, SinkFault};
use crate::trace::refuse;
use liquid_error::Error;
use std::alloc::Global;

/// Puts a piece until the sink has all of it. An empty piece makes no put. If the sink fails, `answer` is "Failed to
/// render".
#[inline(always)]
pub(crate) fn write_piece<K: Sink>(
    alloc: Global,
    sink: &mut K,
    piece: &str,
    answer: &mut Result<(), Error>,
)
    requires { IsOk answer.old }
    ensures { PiecePut piece.now (K.sunk sink.old) (K.sunk sink.new) answer.new }
{
    let mut rest = piece.as_bytes();
    while !rest.is_empty() {
        match sink.put(rest) {
            Ok(count) => rest = &rest[count..],
            Err(SinkFault::Failed) => {
                refuse(answer, Error::with_msg(alloc, "Failed to render"));
                return;
            }
            Err(SinkFault::Memory) => {
                refuse(answer, Error::Memory);
                return;
            }
        }
    }
}
