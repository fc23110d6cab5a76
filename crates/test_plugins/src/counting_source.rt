//! A source of a host: it passes on another source's texts, and counts how often a text is requested.
ghost use Rattle.std.specs.Prelude.{◌≡◌};

use liquid_partials::PartialSource;
use std::alloc::{AllocError, Global};
use std::borrow::CowStr;
use std::cell::Cell;
use std::rc::Rc;

/// The texts of another source. The function that makes a source shares its count.
#[derive(Drop)]
pub struct CountingSource<S> {
    pub source: S,
    pub asked: Rc<Cell<u64>>,
}

impl<S: PartialSource> PartialSource for CountingSource<S> {
    ghost texts = { λ counting. S.texts counting.source };

    fn contains(&self, name: &str) -> bool {
        self.source.contains(name)
    }

    fn names(&self, alloc: Global) -> Result<Vec<&str>, AllocError> {
        self.source.names(alloc)
    }

    fn try_get(&self, alloc: Global, name: &str) -> Result<Option<CowStr<'_>>, AllocError> {
        self.asked.set(self.asked.get().saturating_add(1));
        self.source.try_get(alloc, name)
    }
}
