//! Registers that hold marks.
ghost use Rattle.std.specs.Prelude.{◌≡◌, refl, string_bytes, OnErr, OnOk};
ghost use Rattle.liquid_std.specs.meaning.marks.Held.{marks_alone, KeepsMarks, MarksIn};
ghost use Rattle.liquid_std.specs.meaning.marks.Marks.{marks_of, with_last, with_place};

use crate::marks::marks::Marks;
use liquid_core::Fresh;
use std::alloc::{AllocError, Global};

/// A register that holds marks, so that a template over it may use `cycle` and `ifchanged`.
///
/// `Marks` is one. A caller that keeps more in its register puts the marks into a field of it, and passes these calls
/// on to that field.
pub trait HoldsMarks: Fresh {
    // the marks in what contracts see of the register, and the same with other marks
    ghost holds: { MarksIn Self.Shape };

    ghost keeps: { KeepsMarks holds };

    /// Returns the marks.
    fn marks(&self) -> &Marks
        ensures { marks_of result.now ≡ holds.marks (Self.shape self.now) };

    /// Gives the group with this key a place, as `Marks::set_place` does. If memory runs out, nothing changes.
    fn move_group(&mut self, alloc: Global, key: String, place: u64) -> Result<(), AllocError>
        ensures ok { OnOk result (Self.shape self.new
            ≡ holds.with_marks (with_place (string_bytes key) place (holds.marks (Self.shape self.old))) (Self.shape self.old)) }
        ensures err { OnErr result (Self.shape self.new ≡ Self.shape self.old) };

    /// Sets the text of the last `ifchanged`, as `Marks::set_last` does.
    fn keep_last(&mut self, text: String)
        ensures { Self.shape self.new
            ≡ holds.with_marks (with_last (string_bytes text) (holds.marks (Self.shape self.old))) (Self.shape self.old) };
}

/// Marks hold themselves.
impl HoldsMarks for Marks {
    ghost holds = { marks_alone };

    ghost keeps = { record { put = λ m r. refl; same = λ r. refl; again = λ m n r. refl } };

    fn marks(&self) -> &Marks {
        self
    }

    fn move_group(&mut self, alloc: Global, key: String, place: u64) -> Result<(), AllocError> {
        self.set_place(alloc, key, place)
    }

    fn keep_last(&mut self, text: String) {
        self.set_last(text)
    }
}
