//! A sink that takes one byte at a time, and fails.
ghost use Rattle.std.specs.Prelude.{◌≡◌, ◌+◌, ◌<◌, ◌≤◌, [], ◌++◌, length, IfOk};
ghost use Rattle.liquid_template.specs.meaning.Put.{taken_part, failure_count};
ghost use Rattle.liquid_template.specs.meaning.Sunk.{alone};
ghost use Rattle.test_plugins.specs.meaning.Drips.{puts_left, Drips};

use liquid_template::{History, Sink, SinkFault};
use std::alloc::Global;

/// A sink that takes one byte with each put, and fails from a chosen put on.
#[derive(Drop)]
pub struct Dripping {
    bytes: Vec<u8>,
    puts_left: u64,
    history: History,
}

impl Dripping {
    /// Returns a sink that takes `puts` bytes, one with each put, and then fails at each put.
    pub fn new(alloc: Global, puts: u64) -> Dripping
        ensures taken { (⟦<Dripping as Sink>⟧.sunk result).taken ≡ [] }
        ensures failures { (⟦<Dripping as Sink>⟧.sunk result).failures ≡ 0 }
        ensures puts { puts_left result ≡ puts }
    {
        Dripping {
            bytes: Vec::new(alloc),
            puts_left: puts,
            history: History::new(),
        }
    }

    /// Returns the bytes taken so far.
    pub fn as_bytes(&self) -> &[u8]
        ensures { result.now ≡ (⟦<Dripping as Sink>⟧.sunk self.now).taken }
    {
        self.bytes.as_slice()
    }
}

impl Sink for Dripping {
    ghost sunk = { λ sink. alone sink.bytes.items sink.history.failures };

    fn put(&mut self, piece: &[u8]) -> Result<usize, SinkFault>
        requires { 0 < length piece.now }
        ensures some { IfOk result (λ count. 0 < count) }
        ensures bound { IfOk result (λ count. count ≤ length piece.now) }
        ensures bytes { self.new.bytes.items ≡ self.old.bytes.items ++ taken_part result piece.now }
        ensures count { self.new.history.failures ≡ self.old.history.failures + failure_count result }
        ensures drips { Drips (puts_left self.old) (puts_left self.new) result }
    {
        if self.puts_left == 0 {
            self.history.failed();
            return Err(SinkFault::Failed);
        }
        match self.bytes.extend_from_slice(&piece[..1]) {
            Ok(()) => {
                self.puts_left -= 1;
                Ok(1)
            }
            Err(_) => Err(SinkFault::Memory),
        }
    }
}
