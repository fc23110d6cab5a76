//! Gates that are open as long as a host says so: until a deadline, or until someone cancels.
ghost use Rattle.std.specs.Prelude.{◌≡◌, ◌+◌, ◌-◌, false, Bool, None};
ghost use Rattle.liquid_template.specs.meaning.Output.{IsPast, asked, gated_by, passed};
ghost use Rattle.liquid_template.specs.meaning.Watching.{PassesWatch};

use crate::gate::Gate;
use crate::history::History;

/// Says whether rendering may continue.
pub trait Watch {
    // what an answer means: the watch before it, the watch after it, and the answer. `λ before after answer. Unit`
    // says nothing
    ghost answers: { Self → Self → Bool → Type 0 };

    /// Called before each turn and before each piece. Once it returns `false`, rendering ends with "Rendering was
    /// stopped".
    fn is_open(&mut self) -> bool
        ensures { answers self.old self.new result };
}

/// A gate that lets everything pass while its watch is open, and counts what has passed.
#[derive(Drop)]
pub struct Watched<W: Watch> {
    watch: W,
    turns: u64,
    bytes: u64,
    turns_refused: History,
    bytes_refused: History,
}

impl<W: Watch> Watched<W> {
    /// Returns a gate with this watch, through which nothing has passed.
    pub fn new(watch: W) -> Watched<W>
        ensures none { (⟦<Watched<W> as Gate>⟧.gated result) ≡ gated_by (passed 0 0 None) (passed 0 0 None) }
    {
        Watched {
            watch,
            turns: 0,
            bytes: 0,
            turns_refused: History::new(),
            bytes_refused: History::new(),
        }
    }

    /// Returns the number of turns that have passed.
    pub fn turns_passed(&self) -> u64
        ensures { result ≡ (⟦<Watched<W> as Gate>⟧.gated self.now).turns.count }
    {
        self.turns
    }

    /// Returns the number of bytes that have passed.
    pub fn bytes_passed(&self) -> u64
        ensures { result ≡ (⟦<Watched<W> as Gate>⟧.gated self.now).bytes.count }
    {
        self.bytes
    }
}

impl<W: Watch> Gate for Watched<W> {
    ghost gated = { λ w. record {
      turns = passed w.turns w.turns_refused.failures None;
      bytes = passed w.bytes w.bytes_refused.failures None;
    } };

    /// Lets a turn pass if the watch is open. A gate also refuses what its counts have no room for.
    fn turn(&mut self) -> bool
        ensures turns { (⟦<Watched<W> as Gate>⟧.gated self.new).turns ≡ asked result 1 (⟦<Watched<W> as Gate>⟧.gated self.old).turns }
        ensures past { result ≡ false → IsPast (⟦<Watched<W> as Gate>⟧.gated self.old).turns 1 }
        ensures bytes { (⟦<Watched<W> as Gate>⟧.gated self.new).bytes ≡ (⟦<Watched<W> as Gate>⟧.gated self.old).bytes }
        ensures watched { PassesWatch W.answers self.old.watch self.new.watch (⟦<Watched<W> as Gate>⟧.gated self.old).turns 1 result }
    {
        if self.watch.is_open() {
            if let Some(turns) = self.turns.checked_add(1) {
                self.turns = turns;
                return true;
            }
        }
        self.turns_refused.failed();
        false
    }

    /// Lets bytes pass if the watch is open. A gate also refuses what its counts have no room for.
    fn bytes(&mut self, count: u64) -> bool
        ensures bytes { (⟦<Watched<W> as Gate>⟧.gated self.new).bytes ≡ asked result count (⟦<Watched<W> as Gate>⟧.gated self.old).bytes }
        ensures past { result ≡ false → IsPast (⟦<Watched<W> as Gate>⟧.gated self.old).bytes count }
        ensures turns { (⟦<Watched<W> as Gate>⟧.gated self.new).turns ≡ (⟦<Watched<W> as Gate>⟧.gated self.old).turns }
        ensures watched { PassesWatch W.answers self.old.watch self.new.watch (⟦<Watched<W> as Gate>⟧.gated self.old).bytes count result }
    {
        if self.watch.is_open() {
            if let Some(bytes) = self.bytes.checked_add(count) {
                self.bytes = bytes;
                return true;
            }
        }
        self.bytes_refused.failed();
        false
    }
}
