//! What texts are read as.
ghost use Rattle.std.specs.Prelude.{◌≡◌, ℕ, List, IfOk};
ghost use Rattle.std.specs.Cow.{cow_str_bytes};
ghost use Rattle.jekyll_source.specs.meaning.Pieces.{jekyll_text as text_of_jekyll};

use jekyll_source::jekyll_text;
use std::alloc::{AllocError, Global};
use std::borrow::CowStr;

/// A way to read texts: each is read as another text, in which the same lines are in the same places.
pub trait Rewrite {
    /// What a text is read as.
    ghost rewritten: { List ℕ → List ℕ };

    /// Returns what a text is read as. An `Err` means out of memory.
    fn rewrite(alloc: Global, text: &str) -> Result<CowStr<'_>, AllocError>
        ensures { IfOk result (λ read. cow_str_bytes read ≡ rewritten text.now) };
}

/// Each text is read as it is.
#[derive(Clone, Copy, Debug, PartialEq, Eq)]
pub struct AsItIs;

impl Rewrite for AsItIs {
    ghost rewritten = { λ text. text };

    fn rewrite(_alloc: Global, text: &str) -> Result<CowStr<'_>, AllocError> {
        Ok(CowStr::Borrowed(text))
    }
}

/// Each text is read as `jekyll_text` returns it: as Jekyll's authors write it.
#[derive(Clone, Copy, Debug, PartialEq, Eq)]
pub struct FromJekyll;

impl Rewrite for FromJekyll {
    ghost rewritten = { text_of_jekyll };

    fn rewrite(alloc: Global, text: &str) -> Result<CowStr<'_>, AllocError> {
        Ok(CowStr::Owned(jekyll_text(alloc, text)?))
    }
}
