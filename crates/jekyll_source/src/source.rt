//! A source of partials as Jekyll's authors write them.
ghost use Rattle.std.specs.Prelude.{◌≡◌};
ghost use Rattle.liquid_partials.specs.meaning.Each.{each};
ghost use Rattle.jekyll_source.specs.meaning.Pieces.{jekyll_text as rewritten_text};

use crate::text::jekyll_text;
use liquid_partials::PartialSource;
use std::alloc::{AllocError, Global};
use std::borrow::CowStr;

/// The texts of another source, each as [`jekyll_text`] returns it.
#[derive(Drop)]
pub struct JekyllSource<S> {
    source: S,
}

impl<S: PartialSource> JekyllSource<S> {
    /// Returns the texts of this source with their tags in this engine's grammar.
    pub fn new(source: S) -> JekyllSource<S>
        ensures { result.source ≡ source }
    {
        JekyllSource { source }
    }
}

impl<S: PartialSource> PartialSource for JekyllSource<S> {
    ghost texts = { λ jekyll. each rewritten_text (S.texts jekyll.source) };

    fn contains(&self, name: &str) -> bool {
        self.source.contains(name)
    }

    fn names(&self, alloc: Global) -> Result<Vec<&str>, AllocError> {
        self.source.names(alloc)
    }

    fn try_get(&self, alloc: Global, name: &str) -> Result<Option<CowStr<'_>>, AllocError> {
        match self.source.try_get(alloc, name)? {
            Some(text) => Ok(Some(CowStr::Owned(jekyll_text(alloc, text.as_str())?))),
            None => Ok(None),
        }
    }
}
