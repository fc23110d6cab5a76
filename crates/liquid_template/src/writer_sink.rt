//! A sink over any writer.
ghost use Rattle.std.specs.Prelude.{◌≡◌, ◌+◌, ◌<◌, ◌≤◌, [], ◌∷◌, ◌++◌, length, IfOk, IfErr};
ghost use Rattle.std.specs.Io.KnownBytes.{Appends};
ghost use Rattle.liquid_template.specs.meaning.Put.{taken_part, failure_count};
ghost use Rattle.liquid_template.specs.meaning.Sunk.{sunk as sunk_of};

use crate::history::History;
use crate::sink::{Sink, SinkFault};
use std::io::Write;

/// Passes each piece to a writer, with one `write` for each put. An error of the writer, and a write of nothing, is a
/// failure.
///
/// It takes no memory of its own.
#[derive(Drop)]
pub struct WriterSink<'w, W: Write> {
    writer: &'w mut W,
    history: History,
}

impl<'w, W: Write> WriterSink<'w, W> {
    /// Returns a sink that has taken nothing yet. The bytes in its destination are the writer's content.
    pub fn new(writer: &'w mut W) -> WriterSink<'w, W>
        ensures taken { (⟦<WriterSink<'w, W> as Sink>⟧.sunk result).taken ≡ [] }
        ensures failures { (⟦<WriterSink<'w, W> as Sink>⟧.sunk result).failures ≡ 0 }
        ensures destination { (⟦<WriterSink<'w, W> as Sink>⟧.sunk result).destination ≡ W.contents writer.entry.now }
        ensures borrows { (⟦<WriterSink<'w, W> as Sink>⟧.sunk result).lent ≡ writer.entry.ghost_name ∷ [] }
    {
        WriterSink {
            writer,
            history: History::new(),
        }
    }

    /// Returns the writer, with what was written to it.
    pub fn into_inner(self) -> &'w mut W
        ensures destination { W.contents result.now ≡ (⟦<WriterSink<'w, W> as Sink>⟧.sunk self.entry).destination }
        ensures borrows { result.ghost_name ∷ [] ≡ (⟦<WriterSink<'w, W> as Sink>⟧.sunk self.entry).lent }
    {
        let WriterSink { writer, history } = self;
        drop(history);
        writer
    }
}

impl<'w, W: Write> Sink for WriterSink<'w, W> {
    ghost sunk = { λ sink. sunk_of sink.history.taken sink.history.failures (W.contents sink.writer.now)
        (sink.writer.ghost_name ∷ []) };

    /// It takes no memory, and so the only fault is `SinkFault::Failed`.
    fn put(&mut self, piece: &[u8]) -> Result<usize, SinkFault>
        ensures some { IfOk result (λ count. 0 < count) }
        ensures bound { IfOk result (λ count. count ≤ length piece.now) }
        ensures bytes { self.new.history.taken ≡ self.old.history.taken ++ taken_part result piece.now }
        ensures count { self.new.history.failures ≡ self.old.history.failures + failure_count result }
        ensures destination { Appends (W.contents self.old.writer.now) (W.contents self.new.writer.now)
            (taken_part result piece.now) }
        ensures borrows { self.new.writer.ghost_name ∷ [] ≡ self.old.writer.ghost_name ∷ [] }
        ensures fault { IfErr result (λ fault. fault ≡ SinkFault.Failed) }
    {
        match self.writer.write(piece) {
            Ok(0) | Err(_) => {
                self.history.failed();
                Err(SinkFault::Failed)
            }
            Ok(count) => {
                self.history.took(&piece[..count]);
                Ok(count)
            }
        }
    }
}
