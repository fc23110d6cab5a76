//! A source over memory.
ghost use Rattle.std.specs.Prelude.{◌≡◌, is_some, string_bytes, IfOk, OnOk, OnErr};
ghost use Rattle.std.specs.FinMap.{empty, get, insert};

use crate::source::PartialSource;
use std::alloc::{AllocError, Global};
use std::borrow::CowStr;
use std::collections::BTreeMap;
use std::default::MadeWith;
use std::marker::Model;

/// Texts with names, held in memory.
#[derive(Drop)]
pub struct InMemorySource {
    texts: BTreeMap<String, String>,
}

impl Model for InMemorySource {
    ghost use Rattle.std.specs.Coded.{coded_list, coded_ℕ};
    ghost use Rattle.std.specs.FinMap.{code};
    ghost use Rattle.liquid_partials.specs.meaning.Sources.{Texts, texts_in};

    ghost Value = { Texts };

    ghost coded = { code (coded_list coded_ℕ) (coded_list coded_ℕ) };

    ghost view = { λ source. texts_in source.texts };
}

impl InMemorySource {
    /// Returns a source without texts. It takes no memory.
    #[tactic(auto, using(crate::proofs::EachLemmas::sources))]
    pub fn new(alloc: Global) -> InMemorySource
        ensures { result ≡ empty }
    {
        InMemorySource {
            texts: BTreeMap::new(alloc),
        }
    }

    /// Adds the text under the name, and returns whether it replaced another, which is dropped.
    ///
    /// If memory runs out, the source is left as it was, and the name and the text are dropped.
    #[tactic(auto, using(crate::proofs::EachLemmas::sources))]
    pub fn add(&mut self, name: String, source: String) -> Result<bool, AllocError>
        ensures replaced { IfOk result (λ replaced. replaced ≡ is_some (get self.old (string_bytes name))) }
        ensures ok { OnOk result (self.new ≡ insert self.old (string_bytes name) (string_bytes source)) }
        ensures err { OnErr result (self.new ≡ self.old) }
    {
        let old = self.texts.insert(name, source)?;
        Ok(old.is_some())
    }
}

impl Clone for InMemorySource {
    ghost is_clone = { λ source copy. copy ≡ source };

    #[tactic(auto, using(crate::proofs::EachLemmas::sources))]
    fn clone(&self) -> Result<InMemorySource, AllocError> {
        Ok(InMemorySource {
            texts: self.texts.clone()?,
        })
    }
}

impl MadeWith<Global> for InMemorySource {
    ghost is_made_with = { λ source. source ≡ empty };

    fn made_with(alloc: Global) -> InMemorySource {
        InMemorySource::new(alloc)
    }
}

impl PartialSource for InMemorySource {
    ghost texts = { λ source. source };

    #[tactic(auto, using(crate::proofs::EachLemmas::sources))]
    fn contains(&self, name: &str) -> bool {
        self.texts.contains_key(name)
    }

    #[tactic(auto, using(crate::proofs::EachLemmas::sources))]
    fn names(&self, alloc: Global) -> Result<Vec<&str>, AllocError> {
        let mut names = Vec::new(alloc);
        for name in self.texts.keys() {
            names.push(name.as_str())?;
        }
        Ok(names)
    }

    #[tactic(auto, using(crate::proofs::EachLemmas::sources))]
    fn try_get(&self, _alloc: Global, name: &str) -> Result<Option<CowStr<'_>>, AllocError> {
        match self.texts.get(name) {
            Some(text) => Ok(Some(CowStr::Borrowed(text.as_str()))),
            None => Ok(None),
        }
    }
}
