//! Partials that are parsed at each request.
ghost use Rattle.std.specs.Prelude.{◌≡◌, ◌+◌, true, is_ok, not, option_map, IfOk};
ghost use Rattle.std.specs.Borrow.{sem, Lends};
ghost use Rattle.std.specs.FinMap.{contains_key};
ghost use Rattle.liquid_error.specs.meaning.Told.{Gives};
ghost use Rattle.liquid_parser.specs.meaning.Plugins.{language_of};
ghost use Rattle.liquid_partials.specs.meaning.Compiled.{Compiled, once};
ghost use Rattle.liquid_partials.specs.contracts.on_demand.OnDemandCompiler.{the_row};
ghost use Rattle.liquid_partials.specs.meaning.Keeping.{is_answer};
ghost use Rattle.liquid_partials.specs.meaning.Kept.{readings, shared_nodes};
ghost use Rattle.liquid_template.specs.meaning.Partials.{partial_in, tree_in};

use crate::compiler::PartialCompiler;
use crate::source::PartialSource;
use crate::texts::Texts;
use liquid_error::Error;
use liquid_parser::{Language, ParseBlock, ParseTag};
use liquid_plugins::ParseFilter;
use liquid_template::{PartialStore, Template};
use std::alloc::{AllocError, Global};
use std::default::MadeWith;
use std::rc::Rc;

/// Makes stores that parse a text whenever its name is requested.
#[derive(Drop)]
pub struct OnDemandCompiler<S> {
    source: S,
}

impl<S: PartialSource> OnDemandCompiler<S> {
    /// Returns a compiler of this source.
    pub fn new(source: S) -> OnDemandCompiler<S>
        ensures { result.source ≡ source }
    {
        OnDemandCompiler { source }
    }

    /// Returns the source.
    pub fn source(&self) -> &S
        ensures { result.now ≡ self.now.source }
    {
        &self.source
    }

    /// Returns the source, to be changed in place.
    pub fn source_mut(&mut self) -> &mut S
        ensures* writes_back { sem 𝓛 (Lends (the_row S.row) S.row self.entry result (λ source. record { source = source })) }
        ensures value { result.now ≡ self.old.source }
    {
        &mut self.source
    }
}

impl<S: PartialSource + MadeWith<Global>> OnDemandCompiler<S> {
    /// Returns a compiler of an empty source.
    pub fn empty(alloc: Global) -> OnDemandCompiler<S>
        ensures { S.is_made_with result.source }
    {
        OnDemandCompiler {
            source: S::made_with(alloc),
        }
    }
}

impl<S, F, T, B> PartialCompiler<F, T, B> for OnDemandCompiler<S>
where
    S: PartialSource,
    F: ParseFilter,
    T: ParseTag<F>,
    B: ParseBlock<F>,
{
    type Store = OnDemandStore<S, F, T, B>;

    ghost texts = { λ compiler. S.texts compiler.source };

    /// Parses no text yet, and takes no memory.
    fn compile(
        self,
        _alloc: Global,
        language: Rc<Language<F, T, B>>,
    ) -> Result<OnDemandStore<S, F, T, B>, AllocError>
        ensures compiled { IfOk result (λ store. Compiled (language_of F.makes T.gives B.block language.value) (S.texts self.source)
            (readings (language_of F.makes T.gives B.block store.texts.parser.language.value) (S.texts store.texts.source))) }
        ensures count { IfOk result (λ store. store.texts.readings.count ≡ 0) }
    {
        Ok(OnDemandStore {
            texts: Texts::new(self.source, language),
        })
    }
}

/// A store that parses a text whenever its name is requested.
#[derive(Drop)]
pub struct OnDemandStore<S, F, T, B> {
    texts: Texts<S, F, T, B>,
}

impl<S, F, T, B> PartialStore<F::Filter, T::Node, B::Node> for OnDemandStore<S, F, T, B>
where
    S: PartialSource,
    F: ParseFilter,
    T: ParseTag<F>,
    B: ParseBlock<F>,
{
    ghost finds = { λ store. readings (language_of F.makes T.gives B.block store.texts.parser.language.value)
        (S.texts store.texts.source) };

    fn contains(&self, name: &str) -> bool {
        self.texts.contains(name)
    }

    fn names(&self, alloc: Global) -> Result<Vec<&str>, AllocError> {
        self.texts.names(alloc)
    }

    /// Parses the text of the name. It returns `Err` exactly if memory runs out while it reads the text.
    fn try_get(
        &mut self,
        alloc: Global,
        name: &str,
    ) -> Result<Option<Rc<Template<F::Filter, T::Node, B::Node>>>, AllocError>
        ensures gives { IfOk result
            (λ found. option_map (shared_nodes F.Filter.shape T.Node.shape B.Node.shape) found
            ≡ tree_in (readings (language_of F.makes T.gives B.block self.old.texts.parser.language.value)
            (S.texts self.old.texts.source)) name.now) }
        ensures kept { readings (language_of F.makes T.gives B.block self.new.texts.parser.language.value)
            (S.texts self.new.texts.source) ≡ readings
            (language_of F.makes T.gives B.block self.old.texts.parser.language.value) (S.texts self.old.texts.source) }
        ensures count { self.new.texts.readings.count ≡ self.old.texts.readings.count
            + once (contains_key (S.texts self.old.texts.source) name.now) }
        ensures lost { self.new.texts.readings.lost ≡ self.old.texts.readings.lost + once (not (is_ok result)) }
    {
        match self.texts.read(alloc, name) {
            Ok(found) => Ok(found),
            Err(error) => {
                if error.is_memory() {
                    Err(AllocError)
                } else {
                    Ok(None)
                }
            }
        }
    }

    /// Parses the text of the name. If the source has the name, it returns `Error::Memory` exactly if memory runs out while
    /// it reads the text.
    fn get(
        &mut self,
        alloc: Global,
        name: &str,
    ) -> Result<Rc<Template<F::Filter, T::Node, B::Node>>, Error>
        ensures gives { Gives (shared_nodes F.Filter.shape T.Node.shape B.Node.shape) result
            (partial_in (readings (language_of F.makes T.gives B.block self.old.texts.parser.language.value)
            (S.texts self.old.texts.source)) name.now) }
        ensures kept { readings (language_of F.makes T.gives B.block self.new.texts.parser.language.value)
            (S.texts self.new.texts.source) ≡ readings
            (language_of F.makes T.gives B.block self.old.texts.parser.language.value) (S.texts self.old.texts.source) }
        ensures count { self.new.texts.readings.count ≡ self.old.texts.readings.count
            + once (contains_key (S.texts self.old.texts.source) name.now) }
        ensures lost { contains_key (S.texts self.old.texts.source) name.now ≡ true
            → self.new.texts.readings.lost ≡ self.old.texts.readings.lost + once (not (is_answer result)) }
    {
        match self.texts.read(alloc, name)? {
            Some(template) => Ok(template),
            None => Err(self.texts.unknown(alloc, name)),
        }
    }
}
