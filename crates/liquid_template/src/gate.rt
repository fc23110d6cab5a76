//! A host's limit on work.
ghost use Rattle.std.specs.Prelude.{◌≡◌, ◌↔◌, true, false, ◌+◌, ◌<◌, ◌≤◌, min, Some};
ghost use Rattle.liquid_template.specs.meaning.Output.{Gated, IsPast, gated_by, passed, asked};

use crate::history::History;
use crate::sink::Sink;

/// Decides whether rendering may continue. If it may not, the error is "Rendering was stopped", the frames are as they
/// were, and the text up to then is written.
///
/// A host with a clock, or with a flag that a user sets, writes its own gate. `Limits` counts turns and bytes.
pub trait Gate {
    // how many turns and bytes it has let pass, how often it refused, and how many it lets pass in all, if that is known
    ghost gated: { Self → Gated };

    /// Called before each turn of a tag or a block. Returns whether the turn may be taken. A limit that is known is the
    /// only reason to refuse.
    fn turn(&mut self) -> bool
        ensures turns { (gated self.new).turns ≡ asked result 1 (gated self.old).turns }
        ensures past { result ≡ false → IsPast (gated self.old).turns 1 }
        ensures bytes { (gated self.new).bytes ≡ (gated self.old).bytes };

    /// Called before a piece of that many bytes, at least one, is put to the sink. Returns whether it may be put. It is
    /// put whole or not at all.
    fn bytes(&mut self, count: u64) -> bool
        ensures bytes { (gated self.new).bytes ≡ asked result count (gated self.old).bytes }
        ensures past { result ≡ false → IsPast (gated self.old).bytes count }
        ensures turns { (gated self.new).turns ≡ (gated self.old).turns };
}

/// A sink with a gate, for `Template::render_within`.
#[derive(Drop)]
pub struct GatedSink<K: Sink, G: Gate> {
    pub(crate) sink: K,
    pub(crate) gate: G,
}

impl<K: Sink, G: Gate> GatedSink<K, G> {
    /// Returns the sink with the gate that is asked before anything is put to it.
    pub fn new(sink: K, gate: G) -> GatedSink<K, G>
        ensures { (result.sink ≡ sink) × (result.gate ≡ gate) }
    {
        GatedSink { sink, gate }
    }

    /// Returns the sink, with what it took.
    pub fn sink(&self) -> &K
        ensures { result.now ≡ self.now.sink }
    {
        &self.sink
    }

    /// Returns the gate, with what it was asked.
    pub fn gate(&self) -> &G
        ensures { result.now ≡ self.now.gate }
    {
        &self.gate
    }

    /// Returns the sink alone.
    pub fn into_sink(self) -> K
    where
        G: Drop,
        ensures { result ≡ self.sink }
    {
        let GatedSink { sink, gate } = self;
        drop(gate);
        sink
    }
}

/// A gate that lets a number of turns and of bytes pass, and no more.
#[derive(Drop)]
pub struct Limits {
    max_turns: u64,
    max_bytes: u64,
    turns: u64,
    bytes: u64,
    turns_refused: History,
    bytes_refused: History,
}

impl Limits {
    /// Lets at most that many turns and bytes pass from now on.
    pub fn new(max_turns: u64, max_bytes: u64) -> Limits
        ensures none { (⟦<Limits as Gate>⟧.gated result) ≡ gated_by (passed 0 0 (Some max_turns)) (passed 0 0 (Some max_bytes)) }
    {
        Limits {
            max_turns,
            max_bytes,
            turns: 0,
            bytes: 0,
            turns_refused: History::new(),
            bytes_refused: History::new(),
        }
    }

    /// Returns the number of turns that have passed.
    pub fn turns_passed(&self) -> u64
        ensures { result ≡ (⟦<Limits as Gate>⟧.gated self.now).turns.count }
    {
        self.turns.min(self.max_turns)
    }

    /// Returns the number of bytes that have passed.
    pub fn bytes_passed(&self) -> u64
        ensures { result ≡ (⟦<Limits as Gate>⟧.gated self.now).bytes.count }
    {
        self.bytes.min(self.max_bytes)
    }
}

impl Gate for Limits {
    ghost gated = { λ limits. record {
      turns = passed (min limits.turns limits.max_turns) limits.turns_refused.failures (Some limits.max_turns);
      bytes = passed (min limits.bytes limits.max_bytes) limits.bytes_refused.failures (Some limits.max_bytes);
    } };

    /// Lets a turn pass if fewer than the limit have passed.
    fn turn(&mut self) -> bool
        ensures turns { (⟦<Limits as Gate>⟧.gated self.new).turns ≡ asked result 1 (⟦<Limits as Gate>⟧.gated self.old).turns }
        ensures past { result ≡ false → IsPast (⟦<Limits as Gate>⟧.gated self.old).turns 1 }
        ensures bytes { (⟦<Limits as Gate>⟧.gated self.new).bytes ≡ (⟦<Limits as Gate>⟧.gated self.old).bytes }
        ensures passes { (result ≡ true) ↔ ((⟦<Limits as Gate>⟧.gated self.old).turns.count < self.old.max_turns) }
    {
        if self.turns < self.max_turns {
            self.turns += 1;
            true
        } else {
            self.turns_refused.failed();
            false
        }
    }

    /// Lets bytes pass if no more than the limit have passed with them.
    fn bytes(&mut self, count: u64) -> bool
        ensures bytes { (⟦<Limits as Gate>⟧.gated self.new).bytes ≡ asked result count (⟦<Limits as Gate>⟧.gated self.old).bytes }
        ensures past { result ≡ false → IsPast (⟦<Limits as Gate>⟧.gated self.old).bytes count }
        ensures turns { (⟦<Limits as Gate>⟧.gated self.new).turns ≡ (⟦<Limits as Gate>⟧.gated self.old).turns }
        ensures passes { (result ≡ true) ↔ ((⟦<Limits as Gate>⟧.gated self.old).bytes.count + count ≤ self.old.max_bytes) }
    {
        let passed = self.bytes_passed();
        if let Some(left) = self.max_bytes.checked_sub(passed) {
            if count <= left {
                self.bytes = self.max_bytes - (left - count);
                return true;
            }
        }
        self.bytes_refused.failed();
        false
    }
}
