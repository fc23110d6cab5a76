//! A sink over memory.
ghost use Rattle.std.specs.Prelude.{◌≡◌, [], IfOk, IsOk, string_bytes};
ghost use Rattle.std.specs.Prelude.{IsUtf8};
ghost use Rattle.liquid_template.specs.meaning.Sunk.{alone};

use crate::sink::{Sink, SinkFault};
use std::alloc::Global;
use std::string::FromUtf8Error;

/// Collects what it takes in memory. It never fails. It refuses a piece only if it is out of memory.
#[derive(Drop)]
pub struct TextSink {
    bytes: Vec<u8>,
}

impl TextSink {
    /// Returns an empty sink, which takes no memory yet.
    pub fn new(alloc: Global) -> TextSink
        ensures { (⟦<TextSink as Sink>⟧.sunk result).taken ≡ [] }
    {
        TextSink {
            bytes: Vec::new(alloc),
        }
    }

    /// Returns the bytes taken so far.
    pub fn as_bytes(&self) -> &[u8]
        ensures { result.now ≡ (⟦<TextSink as Sink>⟧.sunk self.now).taken }
    {
        self.bytes.as_slice()
    }

    /// Returns the bytes taken as a text. Fails if they are not UTF-8.
    pub fn into_string(self) -> Result<String, FromUtf8Error>
        ensures value { IfOk result (λ text. string_bytes text ≡ (⟦<TextSink as Sink>⟧.sunk self).taken) }
        ensures succeeds { IsUtf8 (⟦<TextSink as Sink>⟧.sunk self).taken → IsOk result }
    {
        String::from_utf8(self.bytes)
    }
}

impl Sink for TextSink {
    ghost sunk = { λ sink. alone sink.bytes.items 0 };

    fn put(&mut self, piece: &[u8]) -> Result<usize, SinkFault> {
        match self.bytes.extend_from_slice(piece) {
            Ok(()) => Ok(piece.len()),
            Err(_) => Err(SinkFault::Memory),
        }
    }
}
