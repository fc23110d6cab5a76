//! Where rendered bytes go.
ghost use Rattle.std.specs.Prelude.{◌≡◌, ◌+◌, ◌<◌, ◌≤◌, ◌++◌, length, Some, IfOk};
ghost use Rattle.std.specs.Io.KnownBytes.{Appends};
ghost use Rattle.liquid_template.specs.meaning.FaultText.{fault_text};
ghost use Rattle.liquid_template.specs.meaning.Put.{taken_part, failure_count};
ghost use Rattle.liquid_template.specs.meaning.Sunk.{Sunk, borrowed};

use std::{error, fmt};

/// Why a sink takes nothing of a piece.
#[derive(Clone, Copy, Debug, PartialEq, Eq)]
pub enum SinkFault {
    /// The sink failed. It may take later pieces.
    Failed,
    /// The sink had no memory for the piece.
    Memory,
}

impl fmt::Display for SinkFault {
    ghost output = { λ fault. Some (fault_text fault) };

    fn fmt<W: fmt::Write>(&self, f: &mut fmt::Formatter<W>) -> fmt::Result {
        match self {
            SinkFault::Failed => f.write_str("sink failed"),
            SinkFault::Memory => f.write_str("out of memory"),
        }
    }
}

impl error::Error for SinkFault {}

/// A destination for bytes. It means the bytes taken so far and how often a put failed.
pub trait Sink {
    // every byte taken so far, how many puts returned `SinkFault::Failed`, the bytes in the destination of the sink,
    // and what the sink borrows
    ghost sunk: { Self → Sunk };

    /// Takes the first bytes of a piece, at least one, and returns how many; or takes nothing and returns why.
    fn put(&mut self, piece: &[u8]) -> Result<usize, SinkFault>
        requires { 0 < length piece.now }
        ensures some { IfOk result (λ count. 0 < count) }
        ensures bound { IfOk result (λ count. count ≤ length piece.now) }
        ensures bytes { (sunk self.new).taken ≡ (sunk self.old).taken ++ taken_part result piece.now }
        ensures count { (sunk self.new).failures ≡ (sunk self.old).failures + failure_count result }
        ensures destination { Appends (sunk self.old).destination (sunk self.new).destination (taken_part result piece.now) }
        ensures borrows { (sunk self.new).lent ≡ (sunk self.old).lent };
}

impl<K: Sink> Sink for &mut K {
    ghost sunk = { λ sink. borrowed sink.ghost_name (K.sunk sink.now) };

    fn put(&mut self, piece: &[u8]) -> Result<usize, SinkFault> {
        Sink::put(&mut **self, piece)
    }
}
