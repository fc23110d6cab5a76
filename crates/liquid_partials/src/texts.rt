//! The texts of a source, parsed in a language.
ghost use Rattle.std.specs.Prelude.{◌≡◌, ◌+◌, is_some, map, not, option_map, IfOk, IfSome};
ghost use Rattle.std.specs.FinMap.{contains_key, get, keys};
ghost use Rattle.liquid_error.specs.meaning.Told.{told, Gives};
ghost use Rattle.liquid_parser.specs.meaning.Plugins.{language_of};
ghost use Rattle.liquid_partials.specs.meaning.Compiled.{once};
ghost use Rattle.liquid_partials.specs.meaning.Keeping.{is_answer};
ghost use Rattle.liquid_partials.specs.meaning.Kept.{readings, shared_nodes, tried};
ghost use Rattle.liquid_template.specs.meaning.Partials.{unknown_partial};

use crate::readings::{CountedSource, Readings, TextParser};
use crate::source::PartialSource;
use liquid_error::Error;
use liquid_parser::{Language, ParseBlock, ParseTag};
use liquid_plugins::ParseFilter;
use liquid_template::{Template, unknown_partial};
use std::alloc::{AllocError, Global};
use std::rc::Rc;

/// A source and the language that its texts are parsed in.
///
/// Both are private to it. Only `read` reads a text: it requests it from the source, which counts that, and parses it
/// once. The other calls return names, or whether the source has a name. They can't read a text, since they don't
/// change the count.
#[derive(Drop)]
pub struct Texts<S, F, T, B> {
    source: CountedSource<S>,
    parser: TextParser<F, T, B>,
    readings: Readings,
}

impl<S, F, T, B> Texts<S, F, T, B>
where
    S: PartialSource,
    F: ParseFilter,
    T: ParseTag<F>,
    B: ParseBlock<F>,
{
    /// Returns the texts of a source, of which none is read yet.
    pub fn new(source: S, language: Rc<Language<F, T, B>>) -> Texts<S, F, T, B>
        ensures source { result.source ≡ source }
        ensures language { result.parser.language ≡ language }
        ensures count { result.readings.count ≡ 0 }
        ensures lost { result.readings.lost ≡ 0 }
    {
        let (source, readings) = CountedSource::new(source);
        Texts {
            source,
            parser: TextParser::new(language),
            readings,
        }
    }

    /// Returns `true` if the source has a text of this name.
    pub fn contains(&self, name: &str) -> bool
        ensures { result ≡ is_some (get (S.texts self.now.source) name.now) }
    {
        self.source.contains(name)
    }

    /// Returns the names of the texts, in byte order.
    pub fn names(&self, alloc: Global) -> Result<Vec<&str>, AllocError>
        ensures { IfOk result (λ names. map (λ name. name.now) names.items ≡ keys (S.texts self.now.source)) }
    {
        self.source.names(alloc)
    }

    /// Returns the error for a name that the source doesn't have.
    pub fn unknown(&self, alloc: Global, name: &str) -> Error
        ensures { IfSome (told result) (λ refusal. refusal ≡ unknown_partial name.now (keys (S.texts self.now.source))) }
    {
        match self.names(alloc) {
            Ok(names) => unknown_partial(alloc, name, names.as_slice()),
            Err(_) => Error::Memory,
        }
    }

    /// Returns the template of a name's text, or its fault, and `None` if the source doesn't have the name.
    pub fn read(
        &mut self,
        alloc: Global,
        name: &str,
    ) -> Result<Option<Rc<Template<F::Filter, T::Node, B::Node>>>, Error>
        ensures gives { Gives (option_map (shared_nodes F.Filter.shape T.Node.shape B.Node.shape)) result
            (tried (readings (language_of F.makes T.gives B.block self.old.parser.language.value) (S.texts self.old.source)) name.now) }
        ensures source { self.new.source ≡ self.old.source }
        ensures language { self.new.parser ≡ self.old.parser }
        ensures count { self.new.readings.count ≡ self.old.readings.count + once (contains_key (S.texts self.old.source) name.now) }
        ensures lost { self.new.readings.lost ≡ self.old.readings.lost + once (not (is_answer result)) }
    {
        if !self.source.contains(name) {
            return Ok(None);
        }
        match self.source.try_get(alloc, name, &mut self.readings)? {
            Some(text) => Ok(Some(self.parser.parse(alloc, text, &mut self.readings)?)),
            None => Ok(None),
        }
    }
}
