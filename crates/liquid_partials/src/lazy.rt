//! Partials that are parsed when they are first requested, and kept.
ghost use Rattle.std.specs.Prelude.{◌≡◌, ◌+◌, true, false, is_ok, not, option_map, string_bytes, IfOk, IfSome, OnOk, OnErr};
ghost use Rattle.std.specs.Borrow.{sem, Lends};
ghost use Rattle.std.specs.FinMap.{contains_key, empty, get, insert};
ghost use Rattle.liquid_error.specs.meaning.Told.{Gives};
ghost use Rattle.liquid_parser.specs.meaning.Plugins.{language_of};
ghost use Rattle.liquid_partials.specs.meaning.Compiled.{Compiled, once};
ghost use Rattle.liquid_partials.specs.contracts.lazy.LazyCompiler.{the_row};
ghost use Rattle.liquid_partials.specs.meaning.Keeping.{is_answer};
ghost use Rattle.liquid_partials.specs.meaning.Kept.{all_kept, kept_as, kept_or_read, readings, shared_nodes, Known};
ghost use Rattle.liquid_partials.specs.meaning.Stores.{finds_in, kept_next, parsed_for};
ghost use Rattle.liquid_template.specs.meaning.Partials.{partial_in, read_tree, tree_in};

use crate::compiler::PartialCompiler;
use crate::source::PartialSource;
use crate::texts::Texts;
use liquid_error::Error;
use liquid_parser::{Language, ParseBlock, ParseTag};
use liquid_plugins::{Filter, Meant, ParseFilter};
use liquid_template::{PartialStore, Template};
use std::alloc::{AllocError, Global};
use std::collections::BTreeMap;
use std::default::MadeWith;
use std::rc::Rc;

/// Makes stores that parse a text when its name is first requested, and keep the result.
#[derive(Drop)]
pub struct LazyCompiler<S> {
    source: S,
}

impl<S: PartialSource> LazyCompiler<S> {
    /// Returns a compiler of this source.
    pub fn new(source: S) -> LazyCompiler<S>
        ensures { result.source ≡ source }
    {
        LazyCompiler { source }
    }

    /// Returns the source.
    pub fn source(&self) -> &S
        ensures { result.now ≡ self.now.source }
    {
        &self.source
    }

    /// Returns the source, to be changed in place.
    pub fn source_mut(&mut self) -> &mut S
        ensures* writes_back { sem 𝓛 (Lends (the_row S.row) S.row self.entry result (λ source. record { source = source })) }
        ensures value { result.now ≡ self.old.source }
    {
        &mut self.source
    }
}

impl<S: PartialSource + MadeWith<Global>> LazyCompiler<S> {
    /// Returns a compiler of an empty source.
    pub fn empty(alloc: Global) -> LazyCompiler<S>
        ensures { S.is_made_with result.source }
    {
        LazyCompiler {
            source: S::made_with(alloc),
        }
    }
}

impl<S, F, T, B> PartialCompiler<F, T, B> for LazyCompiler<S>
where
    S: PartialSource,
    F: ParseFilter,
    T: ParseTag<F>,
    B: ParseBlock<F>,
{
    type Store = LazyStore<S, F, T, B>;

    ghost texts = { λ compiler. S.texts compiler.source };

    /// Parses no text yet, keeps nothing yet, and takes no memory.
    fn compile(
        self,
        alloc: Global,
        language: Rc<Language<F, T, B>>,
    ) -> Result<LazyStore<S, F, T, B>, AllocError>
        ensures compiled { let meant = language_of F.makes T.gives B.block in
            IfOk result (λ s. Compiled (meant language.value) (S.texts self.source)
            (finds_in (shared_nodes F.Filter.shape T.Node.shape B.Node.shape) meant S.texts s.texts s.kept)) }
        ensures source { IfOk result (λ store. store.texts.source ≡ self.source) }
        ensures kept { IfOk result (λ store. (all_kept (shared_nodes F.Filter.shape T.Node.shape B.Node.shape) store.kept) ≡ empty) }
        ensures count { IfOk result (λ store. store.texts.readings.count ≡ 0) }
    {
        let texts = Texts::new(self.source, language);
        let kept = BTreeMap::new(alloc);
        Ok(LazyStore { texts, kept })
    }
}

/// What is kept of a text: its template, or its fault.
type Kept<X, T, B> = Result<Rc<Template<X, T, B>>, Error>;

/// A store that parses a text when its name is first requested, and keeps its template or its fault under the name. It
/// keeps no out-of-memory error and no unknown name.
#[derive(Drop)]
pub struct LazyStore<S, F, T, B>
where
    S: PartialSource,
    F: ParseFilter,
    T: ParseTag<F>,
    B: ParseBlock<F>,
{
    texts: Texts<S, F, T, B>,
    kept: BTreeMap<String, Kept<F::Filter, T::Node, B::Node>>,
    ghost known: { Known kept (S.texts texts.source) },
}

impl<S, F, T, B> LazyStore<S, F, T, B>
where
    S: PartialSource,
    F: ParseFilter,
    T: ParseTag<F>,
    B: ParseBlock<F>,
{
    /// Returns `true` if the result for this name is kept. It takes no memory.
    #[tactic(auto, using(crate::proofs::EachLemmas::sources))]
    pub fn is_kept(&self, name: &str) -> bool
        ensures { result ≡ contains_key (all_kept (shared_nodes F.Filter.shape T.Node.shape B.Node.shape) self.now.kept) name.now }
    {
        self.kept.contains_key(name)
    }

    /// Returns the texts that it parses.
    pub(crate) fn texts(&self) -> &Texts<S, F, T, B>
        ensures { result.now ≡ self.now.texts }
    {
        &self.texts
    }

    /// Returns what is kept under a name.
    #[tactic(auto, using(crate::proofs::EachLemmas::sources))]
    fn under(&self, name: &str) -> Option<&Kept<F::Filter, T::Node, B::Node>>
        ensures { option_map (λ kept. kept_as (shared_nodes F.Filter.shape T.Node.shape B.Node.shape) kept.now) result
            ≡ get (all_kept (shared_nodes F.Filter.shape T.Node.shape B.Node.shape) self.now.kept) name.now }
    {
        self.kept.get(name)
    }

    /// Parses the text of a name for which nothing is kept, and keeps the result. Returns `None` if the source doesn't
    /// have the name. An `Err` means out of memory, and then nothing more is kept.
    fn read(
        &mut self,
        alloc: Global,
        name: &str,
    ) -> Result<Option<Kept<F::Filter, T::Node, B::Node>>, AllocError>
        requires { contains_key (all_kept (shared_nodes F.Filter.shape T.Node.shape B.Node.shape) self.old.kept) name.now ≡ false }
        ensures gives { let of = shared_nodes F.Filter.shape T.Node.shape B.Node.shape in
            IfOk result (λ answer. option_map (kept_as of) answer ≡ get
            (finds_in of (language_of F.makes T.gives B.block) S.texts self.old.texts self.old.kept) name.now) }
        ensures told { IfOk result (λ answer. IfSome answer (λ kept. is_answer kept ≡ true)) }
        ensures same { let finds = finds_in (shared_nodes F.Filter.shape T.Node.shape B.Node.shape)
            (language_of F.makes T.gives B.block) S.texts in
            finds self.new.texts self.new.kept ≡ finds self.old.texts self.old.kept }
        ensures keeps { let of = shared_nodes F.Filter.shape T.Node.shape B.Node.shape in
            all_kept of self.new.kept ≡ kept_next of (language_of F.makes T.gives B.block)
            S.texts self.old.texts self.old.kept (is_ok result) name.now }
        ensures source { self.new.texts.source ≡ self.old.texts.source }
        ensures count { self.new.texts.readings.count ≡ self.old.texts.readings.count
            + parsed_for (shared_nodes F.Filter.shape T.Node.shape B.Node.shape)
            (language_of F.makes T.gives B.block) S.texts self.old.texts self.old.kept name.now }
    {
        match parse_for_store(alloc, &mut self.texts, name)? {
            Some(answer) => {
                let copy = copy_kept(&answer)?;
                keep(&mut self.kept, String::from_str(alloc, name)?, copy)?;
                Ok(Some(answer))
            }
            None => Ok(None),
        }
    }
}

impl<S, F, T, B> PartialStore<F::Filter, T::Node, B::Node> for LazyStore<S, F, T, B>
where
    S: PartialSource,
    F: ParseFilter,
    T: ParseTag<F>,
    B: ParseBlock<F>,
{
    ghost finds = { λ store. kept_or_read (shared_nodes F.Filter.shape T.Node.shape B.Node.shape)
        (language_of F.makes T.gives B.block store.texts.parser.language.value) store.kept (S.texts store.texts.source) };

    fn contains(&self, name: &str) -> bool {
        self.texts.contains(name)
    }

    fn names(&self, alloc: Global) -> Result<Vec<&str>, AllocError> {
        self.texts.names(alloc)
    }

    /// Parses a text only if the source has the name and nothing is kept for it, and then one.
    fn try_get(
        &mut self,
        alloc: Global,
        name: &str,
    ) -> Result<Option<Rc<Template<F::Filter, T::Node, B::Node>>>, AllocError>
        ensures gives { let of = shared_nodes F.Filter.shape T.Node.shape B.Node.shape in
            IfOk result (λ found. option_map of found ≡ tree_in
            (finds_in of (language_of F.makes T.gives B.block) S.texts self.old.texts self.old.kept) name.now) }
        ensures kept { let finds = finds_in (shared_nodes F.Filter.shape T.Node.shape B.Node.shape)
            (language_of F.makes T.gives B.block) S.texts in
            finds self.new.texts self.new.kept ≡ finds self.old.texts self.old.kept }
        ensures keeps { let of = shared_nodes F.Filter.shape T.Node.shape B.Node.shape in
            all_kept of self.new.kept ≡ kept_next of (language_of F.makes T.gives B.block)
            S.texts self.old.texts self.old.kept (is_ok result) name.now }
        ensures source { self.new.texts.source ≡ self.old.texts.source }
        ensures count { self.new.texts.readings.count ≡ self.old.texts.readings.count
            + parsed_for (shared_nodes F.Filter.shape T.Node.shape B.Node.shape)
            (language_of F.makes T.gives B.block) S.texts self.old.texts self.old.kept name.now }
    {
        match self.under(name) {
            Some(answer) => tree_of(answer),
            None => match self.read(alloc, name)? {
                Some(Ok(template)) => Ok(Some(template)),
                Some(Err(_)) => Ok(None),
                None => Ok(None),
            },
        }
    }

    /// Parses a text only if the source has the name and nothing is kept for it, and then one.
    fn get(
        &mut self,
        alloc: Global,
        name: &str,
    ) -> Result<Rc<Template<F::Filter, T::Node, B::Node>>, Error>
        ensures gives { let of = shared_nodes F.Filter.shape T.Node.shape B.Node.shape in
            Gives of result (partial_in
            (finds_in of (language_of F.makes T.gives B.block) S.texts self.old.texts self.old.kept) name.now) }
        ensures kept { let finds = finds_in (shared_nodes F.Filter.shape T.Node.shape B.Node.shape)
            (language_of F.makes T.gives B.block) S.texts in
            finds self.new.texts self.new.kept ≡ finds self.old.texts self.old.kept }
        ensures keeps { let of = shared_nodes F.Filter.shape T.Node.shape B.Node.shape in
            all_kept of self.new.kept ≡ kept_next of (language_of F.makes T.gives B.block)
            S.texts self.old.texts self.old.kept (is_answer result) name.now }
        ensures source { self.new.texts.source ≡ self.old.texts.source }
        ensures count { self.new.texts.readings.count ≡ self.old.texts.readings.count
            + parsed_for (shared_nodes F.Filter.shape T.Node.shape B.Node.shape)
            (language_of F.makes T.gives B.block) S.texts self.old.texts self.old.kept name.now }
    {
        match self.under(name) {
            Some(answer) => answer_of(answer),
            None => match self.read(alloc, name) {
                Ok(Some(answer)) => answer,
                Ok(None) => Err(self.texts.unknown(alloc, name)),
                Err(_) => Err(Error::Memory),
            },
        }
    }
}

/// Returns what has to be kept for a name, and `None` if the source doesn't have the name. It returns `Err` exactly if
/// memory runs out while it reads the text.
fn parse_for_store<S, F, T, B>(
    alloc: Global,
    texts: &mut Texts<S, F, T, B>,
    name: &str,
) -> Result<Option<Kept<F::Filter, T::Node, B::Node>>, AllocError>
where
    S: PartialSource,
    F: ParseFilter,
    T: ParseTag<F>,
    B: ParseBlock<F>,
    ensures gives { IfOk result (λ kept. option_map (kept_as (shared_nodes F.Filter.shape T.Node.shape B.Node.shape)) kept
        ≡ get (readings (language_of F.makes T.gives B.block texts.old.parser.language.value) (S.texts texts.old.source)) name.now) }
    ensures told { IfOk result (λ kept. IfSome kept (λ answer. is_answer answer ≡ true)) }
    ensures source { texts.new.source ≡ texts.old.source }
    ensures language { texts.new.parser ≡ texts.old.parser }
    ensures count { texts.new.readings.count ≡ texts.old.readings.count + once (contains_key (S.texts texts.old.source) name.now) }
    ensures lost { texts.new.readings.lost ≡ texts.old.readings.lost + once (not (is_ok result)) }
{
    match texts.read(alloc, name) {
        Ok(Some(template)) => Ok(Some(Ok(template))),
        Ok(None) => Ok(None),
        Err(error) => {
            if error.is_memory() {
                Err(AllocError)
            } else {
                Ok(Some(Err(error)))
            }
        }
    }
}

/// Keeps the result of parsing a name's text.
#[tactic(auto, using(crate::proofs::EachLemmas::insert_kept, crate::proofs::EachLemmas::unchanged_kept))]
fn keep<X: Filter, T: Meant + Drop, B: Meant + Drop>(
    kept: &mut BTreeMap<String, Kept<X, T, B>>,
    name: String,
    answer: Kept<X, T, B>,
) -> Result<(), AllocError>
    ensures ok { OnOk result (all_kept (shared_nodes X.shape T.shape B.shape) kept.new
        ≡ insert (all_kept (shared_nodes X.shape T.shape B.shape) kept.old) (string_bytes name)
        (kept_as (shared_nodes X.shape T.shape B.shape) answer)) }
    ensures err { OnErr result
        (all_kept (shared_nodes X.shape T.shape B.shape) kept.new ≡ all_kept
        (shared_nodes X.shape T.shape B.shape) kept.old) }
{
    match kept.insert(name, answer) {
        Ok(_) => Ok(()),
        Err(_) => Err(AllocError),
    }
}

/// Returns what is kept, as an owned result.
fn answer_of<X: Filter, T: Meant + Drop, B: Meant + Drop>(
    kept: &Kept<X, T, B>,
) -> Result<Rc<Template<X, T, B>>, Error>
    ensures { Gives (shared_nodes X.shape T.shape B.shape) result (kept_as (shared_nodes X.shape T.shape B.shape) kept.now) }
{
    match kept {
        Ok(template) => Ok(template.clone()?),
        Err(error) => Err(error.clone()?),
    }
}

/// Returns the template that is kept, or `None` for a fault.
fn tree_of<X: Filter, T: Meant + Drop, B: Meant + Drop>(
    kept: &Kept<X, T, B>,
) -> Result<Option<Rc<Template<X, T, B>>>, AllocError>
    ensures { IfOk result
        (λ found. option_map (shared_nodes X.shape T.shape B.shape) found ≡ read_tree
        (kept_as (shared_nodes X.shape T.shape B.shape) kept.now)) }
{
    match kept {
        Ok(template) => Ok(Some(template.clone()?)),
        Err(_) => Ok(None),
    }
}

/// Returns a copy of what has to be kept.
fn copy_kept<X: Filter, T: Meant + Drop, B: Meant + Drop>(
    kept: &Kept<X, T, B>,
) -> Result<Kept<X, T, B>, AllocError>
    ensures { IfOk result
        (λ copy. kept_as (shared_nodes X.shape T.shape B.shape) copy ≡ kept_as
        (shared_nodes X.shape T.shape B.shape) kept.now) }
{
    match kept {
        Ok(template) => Ok(Ok(template.clone()?)),
        Err(error) => Ok(Err(error.clone()?)),
    }
}
