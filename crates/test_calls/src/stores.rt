//! The calls of the three stores of partials.
use liquid_core::parser::{Language, Meant, ParseBlock, ParseFilter, ParseTag};
use liquid_core::partials::{
    EagerCompiler, EagerStore, InMemorySource, LazyCompiler, LazyStore, OnDemandCompiler,
    OnDemandStore, PartialCompiler, PartialSource,
};
use liquid_core::{Filter, PartialStore};
use std::alloc::{AllocError, Global};
use std::cell::Cell;
use std::rc::Rc;
use test_plugins::{CountingSource, language};

/// A kind of store of the texts of a source.
trait Kind<S: PartialSource, F: ParseFilter, T: ParseTag<F>, B: ParseBlock<F>> {
    type Store: PartialStore<F::Filter, T::Node, B::Node> + Drop;

    /// Returns a store of these texts.
    fn store(
        alloc: Global,
        source: S,
        language: Rc<Language<F, T, B>>,
    ) -> Result<Self::Store, AllocError>;
}

struct OnDemand;

impl<S, F, T, B> Kind<S, F, T, B> for OnDemand
where
    S: PartialSource,
    F: ParseFilter,
    T: ParseTag<F>,
    B: ParseBlock<F>,
{
    type Store = OnDemandStore<S, F, T, B>;

    fn store(
        alloc: Global,
        source: S,
        language: Rc<Language<F, T, B>>,
    ) -> Result<OnDemandStore<S, F, T, B>, AllocError> {
        PartialCompiler::compile(OnDemandCompiler::new(source), alloc, language)
    }
}

struct Lazy;

impl<S, F, T, B> Kind<S, F, T, B> for Lazy
where
    S: PartialSource,
    F: ParseFilter,
    T: ParseTag<F>,
    B: ParseBlock<F>,
{
    type Store = LazyStore<S, F, T, B>;

    fn store(
        alloc: Global,
        source: S,
        language: Rc<Language<F, T, B>>,
    ) -> Result<LazyStore<S, F, T, B>, AllocError> {
        PartialCompiler::compile(LazyCompiler::new(source), alloc, language)
    }
}

struct Eager;

impl<S, F, T, B> Kind<S, F, T, B> for Eager
where
    S: PartialSource,
    F: ParseFilter,
    T: ParseTag<F>,
    B: ParseBlock<F>,
{
    type Store = EagerStore<S, F, T, B>;

    fn store(
        alloc: Global,
        source: S,
        language: Rc<Language<F, T, B>>,
    ) -> Result<EagerStore<S, F, T, B>, AllocError> {
        PartialCompiler::compile(EagerCompiler::new(source), alloc, language)
    }
}

/// Returns a store of a kind of the texts of a source, or `None` if there is no source or if memory runs out.
fn store_of<S, F, T, B, K>(
    alloc: Global,
    source: Option<S>,
    language: &Rc<Language<F, T, B>>,
) -> Option<K::Store>
where
    S: PartialSource,
    F: ParseFilter,
    T: ParseTag<F>,
    B: ParseBlock<F>,
    K: Kind<S, F, T, B>,
{
    match source.zip(language.clone().ok()) {
        Some((source, language)) => K::store(alloc, source, language).ok(),
        None => None,
    }
}

/// The partials that are requested: two texts, and one that can't be read.
static PARTIALS: [(&str, &str); 3] = [("p", "P"), ("q", "Q"), ("bad", "{% nope %}")];

/// Adds a text under a name, and returns `true` if it takes the place of another.
fn add(
    alloc: Global,
    source: &mut InMemorySource,
    name: &str,
    text: &str,
) -> Result<bool, AllocError> {
    let name = String::from_str(alloc, name)?;
    source.add(name, String::from_str(alloc, text)?)
}

/// Returns the source of the partials, or `None` if memory runs out.
fn source(alloc: Global) -> Option<InMemorySource> {
    let mut source = InMemorySource::new(alloc);
    for (name, text) in &PARTIALS {
        if add(alloc, &mut source, name, text).is_err() {
            return None;
        }
    }
    Some(source)
}

/// Returns the sources, which count how often they are asked.
fn counting(alloc: Global, asked: &Rc<Cell<u64>>) -> Option<CountingSource<InMemorySource>> {
    match source(alloc).zip(asked.clone().ok()) {
        Some((source, asked)) => Some(CountingSource { source, asked }),
        None => None,
    }
}

/// Returns `true` if `try_get` returns a tree, or if it returns none and `is_tree` is false.
fn requests<S, X, T, B>(alloc: Global, store: &mut S, name: &str, is_tree: bool) -> bool
where
    S: PartialStore<X, T, B>,
    X: Filter,
    T: Meant + Drop,
    B: Meant + Drop,
{
    match PartialStore::<X, T, B>::try_get(store, alloc, name) {
        Ok(found) => found.is_some() == is_tree,
        Err(_) => false,
    }
}

/// Returns `true` if `get` returns a tree, or if it has an error and `is_tree` is false.
fn gets<S, X, T, B>(alloc: Global, store: &mut S, name: &str, is_tree: bool) -> bool
where
    S: PartialStore<X, T, B>,
    X: Filter,
    T: Meant + Drop,
    B: Meant + Drop,
{
    PartialStore::<X, T, B>::get(store, alloc, name).is_ok() == is_tree
}

/// Returns `true` if a store has the names `bad` and `p`, and lists three.
fn has_its_names<S, X, T, B>(alloc: Global, store: &S) -> bool
where
    S: PartialStore<X, T, B>,
    X: Filter,
    T: Meant + Drop,
    B: Meant + Drop,
{
    PartialStore::<X, T, B>::contains(store, "bad")
        && !PartialStore::<X, T, B>::contains(store, "none")
        && match PartialStore::<X, T, B>::names(store, alloc) {
            Ok(names) => names.len() == 3,
            Err(_) => false,
        }
}

/// Returns `true` if a store was made, and returns what it has for each name.
fn answers<S, X, T, B>(alloc: Global, store: Option<S>) -> bool
where
    S: PartialStore<X, T, B> + Drop,
    X: Filter,
    T: Meant + Drop,
    B: Meant + Drop,
{
    match store {
        Some(mut store) => {
            requests::<S, X, T, B>(alloc, &mut store, "p", true)
                && requests::<S, X, T, B>(alloc, &mut store, "none", false)
                && gets::<S, X, T, B>(alloc, &mut store, "q", true)
                && gets::<S, X, T, B>(alloc, &mut store, "bad", false)
                && has_its_names::<S, X, T, B>(alloc, &store)
        }
        None => false,
    }
}

/// Returns a store of a kind of the sources, which count how often they are asked.
fn store<F, T, B, K>(
    alloc: Global,
    language: &Rc<Language<F, T, B>>,
    asked: &Rc<Cell<u64>>,
) -> Option<K::Store>
where
    F: ParseFilter,
    T: ParseTag<F>,
    B: ParseBlock<F>,
    K: Kind<CountingSource<InMemorySource>, F, T, B>,
{
    store_of::<CountingSource<InMemorySource>, F, T, B, K>(alloc, counting(alloc, asked), language)
}

/// Returns `true` if each kind of store returns what it has.
fn each_answers<F, T, B>(alloc: Global, language: Result<Language<F, T, B>, AllocError>) -> bool
where
    F: ParseFilter,
    T: ParseTag<F>,
    B: ParseBlock<F>,
{
    match share_language(alloc, language).zip(Rc::new(alloc, Cell::new(0)).ok()) {
        Some((language, asked)) => {
            answers::<_, F::Filter, T::Node, B::Node>(
                alloc,
                store::<F, T, B, OnDemand>(alloc, &language, &asked),
            ) && answers::<_, F::Filter, T::Node, B::Node>(
                alloc,
                store::<F, T, B, Eager>(alloc, &language, &asked),
            ) && answers::<_, F::Filter, T::Node, B::Node>(
                alloc,
                store::<F, T, B, Lazy>(alloc, &language, &asked),
            )
        }
        None => false,
    }
}

/// Returns a language to be shared, or `None` if memory runs out.
fn share_language<F, T, B>(
    alloc: Global,
    language: Result<Language<F, T, B>, AllocError>,
) -> Option<Rc<Language<F, T, B>>>
where
    F: Drop,
    T: Drop,
    B: Drop,
{
    match language {
        Ok(language) => Rc::new(alloc, language).ok(),
        Err(_) => None,
    }
}

/// Returns `true` if the stores of each kind answer over the language of the test plug-ins.
pub fn stores_answer(alloc: Global) -> bool {
    each_answers(alloc, language(alloc))
}
