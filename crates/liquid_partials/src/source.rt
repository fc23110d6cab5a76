//! Sources of partials.
ghost use Rattle.std.specs.Prelude.{◌≡◌, is_some, map, option_map, ok_or, IfOk};
ghost use Rattle.std.specs.Cow.{cow_str_bytes};
ghost use Rattle.std.specs.FinMap.{get, keys};
ghost use Rattle.liquid_error.specs.meaning.Told.{Gives};
ghost use Rattle.liquid_template.specs.meaning.Partials.{unknown_partial};
ghost use Rattle.liquid_partials.specs.meaning.Sources.{Texts};

use liquid_error::Error;
use liquid_template::unknown_partial;
use std::alloc::{AllocError, Global};
use std::borrow::CowStr;

/// A source of partials: a finite map from names to texts.
pub trait PartialSource: Drop {
    ghost texts: { Self → Texts };

    /// Returns `true` if there is a text of this name.
    fn contains(&self, name: &str) -> bool
        ensures { result ≡ is_some (get (texts self.now) name.now) };

    /// Returns the names, in byte order. An `Err` means out of memory.
    fn names(&self, alloc: Global) -> Result<Vec<&str>, AllocError>
        ensures { IfOk result (λ names. map (λ name. name.now) names.items ≡ keys (texts self.now)) };

    /// Returns the text of a name, or `None` if there is none of this name. An `Err` means out of memory.
    fn try_get(&self, alloc: Global, name: &str) -> Result<Option<CowStr<'_>>, AllocError>
        ensures { IfOk result (λ text. option_map cow_str_bytes text ≡ get (texts self.now) name.now) };

    /// Returns the text of a name. For an unknown name the error is "Unknown partial-template", with the contexts
    /// `requested partial` and `available partials`.
    fn get(&self, alloc: Global, name: &str) -> Result<CowStr<'_>, Error>
        ensures { Gives cow_str_bytes result (ok_or (get (texts self.now) name.now) (unknown_partial name.now (keys (texts self.now)))) }
    {
        match self.try_get(alloc, name) {
            Ok(Some(text)) => Ok(text),
            Ok(None) => match self.names(alloc) {
                Ok(names) => Err(unknown_partial(alloc, name, names.as_slice())),
                Err(_) => Err(Error::Memory),
            },
            Err(_) => Err(Error::Memory),
        }
    }
}
