//! The register of marks.
ghost use Rattle.std.specs.Prelude.{◌≡◌, string_bytes, OnErr, OnOk};
ghost use Rattle.liquid_std.specs.meaning.marks.Marks.{is_last, marks_of, no_marks, place_of, with_last, with_place};

use crate::marks::places::Places;
use liquid_core::Fresh;
use liquid_core::parser::Bytes;
use std::alloc::{AllocError, Global};

/// The marks of `cycle` and `ifchanged`: the place of each group, and the text of the last `ifchanged`.
///
/// Marks are first made without an allocator, so their fields start as `None`.
#[derive(Drop)]
pub struct Marks {
    places: Option<Places>,
    last: Option<String>,
}

/// Marks what contracts see of the marks.
pub struct MarksShape {
    pub places: Places,
    pub last: Option<Bytes>,
}

impl Fresh for Marks {
    type Shape = MarksShape;

    ghost shape = { marks_of };

    ghost fresh = { no_marks };

    fn fresh() -> Marks {
        Marks {
            places: None,
            last: None,
        }
    }
}

impl Marks {
    /// Returns the place of the group with this key. It is 0 for a group that has no place yet.
    #[tactic(auto, using(crate::proofs::MarkLemmas::no_place))]
    pub fn place(&self, key: &str) -> u64
        ensures { result ≡ place_of (marks_of self.now) key.now }
    {
        match &self.places {
            Some(places) => places.get(key).unwrap_or(0),
            None => 0,
        }
    }

    /// Gives the group with this key a place. If memory runs out, nothing changes.
    pub fn set_place(&mut self, alloc: Global, key: String, place: u64) -> Result<(), AllocError>
        ensures ok { OnOk result (marks_of self.new ≡ with_place (string_bytes key) place (marks_of self.old)) }
        ensures err { OnErr result (marks_of self.new ≡ marks_of self.old) }
    {
        let mut places = match self.places.take() {
            Some(places) => places,
            None => Places::new(alloc),
        };
        let answer = places.set(key, place);
        self.places = Some(places);
        answer
    }

    /// Returns `true` if this is the text of the last `ifchanged`.
    pub fn is_last(&self, text: &str) -> bool
        ensures { result ≡ is_last text.now (marks_of self.now) }
    {
        match &self.last {
            Some(last) => last.as_str() == text,
            None => false,
        }
    }

    /// Sets the text of the last `ifchanged`.
    pub fn set_last(&mut self, text: String)
        ensures { marks_of self.new ≡ with_last (string_bytes text) (marks_of self.old) }
    {
        self.last = Some(text);
    }
}
