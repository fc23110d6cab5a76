//! Which limit of a page stopped it.
ghost use Rattle.std.specs.Prelude.{◌≡◌, false, true, Some};
ghost use Rattle.liquid_template.specs.meaning.Output.{IsPast, asked};
ghost use Rattle.liquid_pages.specs.declared.gate.PageLimit.TheVariants as limit;
ghost use Rattle.liquid_pages.specs.meaning.Limited.{fresh_gate};

use crate::options::Room;
use liquid_template::{Gate, Limits};

/// A limit of a page.
#[derive(Clone, Copy, Debug, PartialEq, Eq)]
pub enum PageLimit {
    /// That of the turns of tags and blocks.
    Turns,
    /// That of the bytes.
    Bytes,
}

/// The limits of a page. They keep which of them was the last to refuse something.
#[derive(Drop)]
pub(crate) struct PageGate {
    pub(crate) limits: Limits,
    pub(crate) refused: Option<PageLimit>,
}

impl PageGate {
    /// Returns limits that leave this room.
    pub(crate) fn new(room: Room) -> PageGate
        ensures { (⟦<PageGate as Gate>⟧.gated result) ≡ fresh_gate room }
    {
        PageGate {
            limits: Limits::new(room.turns, room.bytes),
            refused: None,
        }
    }
}

impl Gate for PageGate {
    ghost gated = { λ gate. ⟦<Limits as Gate>⟧.gated gate.limits };

    /// Lets a turn pass if fewer than the limit have passed.
    fn turn(&mut self) -> bool
        ensures turns { (⟦<PageGate as Gate>⟧.gated self.new).turns ≡ asked result 1 (⟦<PageGate as Gate>⟧.gated self.old).turns }
        ensures past { result ≡ false → IsPast (⟦<PageGate as Gate>⟧.gated self.old).turns 1 }
        ensures bytes { (⟦<PageGate as Gate>⟧.gated self.new).bytes ≡ (⟦<PageGate as Gate>⟧.gated self.old).bytes }
        ensures kept { result ≡ true → self.new.refused ≡ self.old.refused }
        ensures refused { result ≡ false → self.new.refused ≡ Some limit.Turns }
    {
        let passes = self.limits.turn();
        if !passes {
            self.refused = Some(PageLimit::Turns);
        }
        passes
    }

    /// Lets bytes pass if no more than the limit have passed with them.
    fn bytes(&mut self, count: u64) -> bool
        ensures bytes { (⟦<PageGate as Gate>⟧.gated self.new).bytes ≡ asked result count (⟦<PageGate as Gate>⟧.gated self.old).bytes }
        ensures past { result ≡ false → IsPast (⟦<PageGate as Gate>⟧.gated self.old).bytes count }
        ensures turns { (⟦<PageGate as Gate>⟧.gated self.new).turns ≡ (⟦<PageGate as Gate>⟧.gated self.old).turns }
        ensures kept { result ≡ true → self.new.refused ≡ self.old.refused }
        ensures refused { result ≡ false → self.new.refused ≡ Some limit.Bytes }
    {
        let passes = self.limits.bytes(count);
        if !passes {
            self.refused = Some(PageLimit::Bytes);
        }
        passes
    }
}
