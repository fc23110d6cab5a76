//! A register of a host's own that holds the marks of the standard tags.
ghost use Rattle.std.specs.Prelude.{refl};
ghost use Rattle.liquid_std.specs.meaning.marks.Marks.{marks_of, no_marks};

use liquid_core::Fresh;
use liquid_std::marks::marks::MarksShape;
use liquid_std::marks::{HoldsMarks, Marks};
use std::alloc::{AllocError, Global};

/// Marks, and the number of visits.
#[derive(Drop)]
pub struct Desk {
    pub marks: Marks,
    pub visits: u8,
}

/// What contracts see of a desk.
pub struct DeskShape {
    pub marks: MarksShape,
    pub visits: u8,
}

impl Fresh for Desk {
    type Shape = DeskShape;

    ghost shape = { λ d. record { marks = marks_of d.marks; visits = d.visits } };

    ghost fresh = { record { marks = no_marks; visits = 0 } };

    fn fresh() -> Desk {
        Desk {
            marks: Marks::fresh(),
            visits: 0,
        }
    }
}

impl HoldsMarks for Desk {
    ghost holds = { record { marks = λ d. d.marks; with_marks = λ m d. record d { marks = m } } };

    ghost keeps = { record { put = λ m d. refl; same = λ d. refl; again = λ m n d. refl } };

    fn marks(&self) -> &Marks {
        &self.marks
    }

    fn move_group(&mut self, alloc: Global, key: String, place: u64) -> Result<(), AllocError> {
        self.marks.set_place(alloc, key, place)
    }

    fn keep_last(&mut self, text: String) {
        self.marks.set_last(text)
    }
}
