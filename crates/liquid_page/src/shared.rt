//! Partials that the pages of a site share.
ghost use Rattle.std.specs.Prelude.{◌≡◌, IfOk, is_some, map, option_map};
ghost use Rattle.std.specs.FinMap.{get, keys};
ghost use Rattle.liquid_partials.specs.meaning.Each.{each};
ghost use Rattle.liquid_partials.specs.meaning.Sources.{texts_in};

use crate::rewriting::Rewrite;
use liquid_partials::PartialSource;
use page_site::Partials;
use std::alloc::{AllocError, Global};
use std::borrow::CowStr;
use std::marker::PhantomData;
use std::rc::Rc;

/// A source of partials that is shared and not copied, and whose texts are read as `R` says.
#[derive(Drop)]
pub struct SharedSource<R> {
    texts: Rc<Partials>,
    read_as: PhantomData<R>,
}

impl<R: Rewrite> SharedSource<R> {
    /// Returns a source that shares these texts.
    pub fn new(texts: Rc<Partials>) -> SharedSource<R>
        ensures { result.texts ≡ texts }
    {
        SharedSource {
            texts,
            read_as: PhantomData,
        }
    }
}

impl<R: Rewrite> PartialSource for SharedSource<R> {
    ghost texts = { λ source. each R.rewritten (texts_in source.texts.value) };

    fn contains(&self, name: &str) -> bool {
        has_text(&self.texts, name)
    }

    fn names(&self, alloc: Global) -> Result<Vec<&str>, AllocError> {
        names_in(alloc, &self.texts)
    }

    fn try_get(&self, alloc: Global, name: &str) -> Result<Option<CowStr<'_>>, AllocError> {
        match text_at(&self.texts, name) {
            Some(text) => Ok(Some(R::rewrite(alloc, text)?)),
            None => Ok(None),
        }
    }
}

/// Returns whether there is a text of this name.
#[tactic(auto, using(liquid_partials::proofs::EachLemmas::sources))]
fn has_text(texts: &Partials, name: &str) -> bool
    ensures { result ≡ is_some (get (texts_in texts.now) name.now) }
{
    texts.contains_key(name)
}

/// Returns the names of the texts.
#[tactic(auto, using(liquid_partials::proofs::EachLemmas::sources))]
fn names_in(alloc: Global, texts: &Partials) -> Result<Vec<&str>, AllocError>
    ensures { IfOk result (λ names. map (λ name. name.now) names.items ≡ keys (texts_in texts.now)) }
{
    let mut names = Vec::new(alloc);
    for name in texts.keys() {
        names.push(name.as_str())?;
    }
    Ok(names)
}

/// Returns the text of this name.
#[tactic(auto, using(liquid_partials::proofs::EachLemmas::sources))]
fn text_at<'t>(texts: &'t Partials, name: &str) -> Option<&'t str>
    ensures { option_map (λ text. text.now) result ≡ get (texts_in texts.now) name.now }
{
    match texts.get(name) {
        Some(text) => Some(text.as_str()),
        None => None,
    }
}
