//! Partials that are all parsed beforehand.
ghost use Rattle.std.specs.Prelude.{◌≡◌, map, option_map, string_bytes, IfOk};
ghost use Rattle.std.specs.Borrow.{sem, Lends};
ghost use Rattle.std.specs.FinMap.{keys, len};
ghost use Rattle.liquid_error.specs.meaning.Told.{Gives};
ghost use Rattle.liquid_parser.specs.meaning.Plugins.{language_of};
ghost use Rattle.liquid_partials.specs.meaning.Compiled.{Compiled};
ghost use Rattle.liquid_partials.specs.contracts.eager.EagerCompiler.{the_row};
ghost use Rattle.liquid_partials.specs.meaning.Kept.{kept_or_read, shared_nodes, HasAll};
ghost use Rattle.liquid_partials.specs.meaning.Stores.{finds_in};
ghost use Rattle.liquid_template.specs.meaning.Partials.{partial_in, tree_in};

use crate::compiler::PartialCompiler;
use crate::lazy::{LazyCompiler, LazyStore};
use crate::source::PartialSource;
use crate::texts::Texts;
use liquid_error::Error;
use liquid_parser::{Language, ParseBlock, ParseTag};
use liquid_plugins::ParseFilter;
use liquid_template::{PartialStore, Template};
use std::alloc::{AllocError, Global};
use std::default::MadeWith;
use std::rc::Rc;

/// Makes stores that parse every text at once.
#[derive(Drop)]
pub struct EagerCompiler<S> {
    source: S,
}

impl<S: PartialSource> EagerCompiler<S> {
    /// Returns a compiler of this source.
    pub fn new(source: S) -> EagerCompiler<S>
        ensures { result.source ≡ source }
    {
        EagerCompiler { source }
    }

    /// Returns the source.
    pub fn source(&self) -> &S
        ensures { result.now ≡ self.now.source }
    {
        &self.source
    }

    /// Returns the source, to be changed in place.
    pub fn source_mut(&mut self) -> &mut S
        ensures* writes_back { sem 𝓛 (Lends (the_row S.row) S.row self.entry result (λ source. record { source = source })) }
        ensures value { result.now ≡ self.old.source }
    {
        &mut self.source
    }
}

impl<S: PartialSource + MadeWith<Global>> EagerCompiler<S> {
    /// Returns a compiler of an empty source.
    pub fn empty(alloc: Global) -> EagerCompiler<S>
        ensures { S.is_made_with result.source }
    {
        EagerCompiler {
            source: S::made_with(alloc),
        }
    }
}

impl<S, F, T, B> PartialCompiler<F, T, B> for EagerCompiler<S>
where
    S: PartialSource,
    F: ParseFilter,
    T: ParseTag<F>,
    B: ParseBlock<F>,
{
    type Store = EagerStore<S, F, T, B>;

    ghost texts = { λ compiler. S.texts compiler.source };

    /// Requests every name once, so that its text is parsed and kept.
    fn compile(
        self,
        alloc: Global,
        language: Rc<Language<F, T, B>>,
    ) -> Result<EagerStore<S, F, T, B>, AllocError>
        ensures compiled { let meant = language_of F.makes T.gives B.block in
            IfOk result (λ s. Compiled (meant language.value) (S.texts self.source)
            (finds_in (shared_nodes F.Filter.shape T.Node.shape B.Node.shape) meant S.texts s.lazy.texts s.lazy.kept)) }
        ensures count { IfOk result (λ store. store.lazy.texts.readings.count ≡ len (S.texts self.source)) }
    {
        let mut lazy = LazyCompiler::new(self.source).compile(alloc, language)?;
        for name in copy_names(alloc, lazy.texts())? {
            let _ = lazy.try_get(alloc, name.as_str())?;
        }
        Ok(EagerStore { lazy })
    }
}

/// Returns the names of a source, each as an owned text.
fn copy_names<S, F, T, B>(
    alloc: Global,
    texts: &Texts<S, F, T, B>,
) -> Result<Vec<String>, AllocError>
where
    S: PartialSource,
    F: ParseFilter,
    T: ParseTag<F>,
    B: ParseBlock<F>,
    ensures { IfOk result (λ names. map (λ name. string_bytes name) names.items ≡ keys (S.texts texts.now.source)) }
{
    let names = texts.names(alloc)?;
    let mut owned = Vec::new(alloc);
    for name in names.as_slice() {
        owned.push(String::from_str(alloc, name)?)?;
    }
    Ok(owned)
}

/// A store of which every text was parsed and kept when it was made. It no longer parses anything.
#[derive(Drop)]
pub struct EagerStore<S, F, T, B>
where
    S: PartialSource,
    F: ParseFilter,
    T: ParseTag<F>,
    B: ParseBlock<F>,
{
    lazy: LazyStore<S, F, T, B>,
    ghost whole: { HasAll lazy.kept (S.texts lazy.texts.source) },
}

impl<S, F, T, B> PartialStore<F::Filter, T::Node, B::Node> for EagerStore<S, F, T, B>
where
    S: PartialSource,
    F: ParseFilter,
    T: ParseTag<F>,
    B: ParseBlock<F>,
{
    ghost finds = { λ store. kept_or_read (shared_nodes F.Filter.shape T.Node.shape B.Node.shape)
        (language_of F.makes T.gives B.block store.lazy.texts.parser.language.value) store.lazy.kept
        (S.texts store.lazy.texts.source) };

    fn contains(&self, name: &str) -> bool {
        self.lazy.contains(name)
    }

    fn names(&self, alloc: Global) -> Result<Vec<&str>, AllocError> {
        self.lazy.names(alloc)
    }

    fn try_get(
        &mut self,
        alloc: Global,
        name: &str,
    ) -> Result<Option<Rc<Template<F::Filter, T::Node, B::Node>>>, AllocError>
        ensures gives { let of = shared_nodes F.Filter.shape T.Node.shape B.Node.shape in
            IfOk result (λ found. option_map of found ≡ tree_in
            (finds_in of (language_of F.makes T.gives B.block) S.texts self.old.lazy.texts self.old.lazy.kept) name.now) }
        ensures kept { let finds = finds_in (shared_nodes F.Filter.shape T.Node.shape B.Node.shape)
            (language_of F.makes T.gives B.block) S.texts in
            finds self.new.lazy.texts self.new.lazy.kept ≡ finds self.old.lazy.texts self.old.lazy.kept }
        ensures count { self.new.lazy.texts.readings.count ≡ self.old.lazy.texts.readings.count }
    {
        self.lazy.try_get(alloc, name)
    }

    fn get(
        &mut self,
        alloc: Global,
        name: &str,
    ) -> Result<Rc<Template<F::Filter, T::Node, B::Node>>, Error>
        ensures gives { let of = shared_nodes F.Filter.shape T.Node.shape B.Node.shape in
            Gives of result (partial_in
            (finds_in of (language_of F.makes T.gives B.block) S.texts self.old.lazy.texts self.old.lazy.kept) name.now) }
        ensures kept { let finds = finds_in (shared_nodes F.Filter.shape T.Node.shape B.Node.shape)
            (language_of F.makes T.gives B.block) S.texts in
            finds self.new.lazy.texts self.new.lazy.kept ≡ finds self.old.lazy.texts self.old.lazy.kept }
        ensures count { self.new.lazy.texts.readings.count ≡ self.old.lazy.texts.readings.count }
    {
        self.lazy.get(alloc, name)
    }
}
