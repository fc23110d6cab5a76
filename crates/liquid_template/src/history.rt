//! What a sink has taken so far, used only by clauses.
ghost use Rattle.std.specs.Prelude.{◌≡◌, ℕ, ◌+◌, List, [], ◌++◌};
ghost use Rattle.std.specs.Borrow.{ftrue};

use std::marker::{Model, PhantomData};

/// The bytes that a sink took and the count of its failures. It takes no memory, and its methods do nothing at run
/// time.
#[derive(Drop)]
pub struct History {
    marker: PhantomData<u8>,
    pub ghost taken: { List ℕ },
    pub ghost failures: { ℕ },
}

impl Model for History {
    ghost also_owns = { λ _. ftrue };
}

impl History {
    /// Returns a history in which nothing has happened yet.
    #[inline(always)]
    pub fn new() -> History
        ensures { (result.taken ≡ []) × (result.failures ≡ 0) }
    {
        History {
            marker: PhantomData,
        }
    }

    /// Records that a piece was taken whole.
    #[inline(always)]
    pub fn took(&mut self, _piece: &[u8])
        ensures { self.new ≡ record self.old { taken = self.old.taken ++ _piece.now } }
    {}

    /// Records that a put failed.
    #[inline(always)]
    pub fn failed(&mut self)
        ensures { self.new ≡ record self.old { failures = self.old.failures + 1 } }
    {}
}
