//! What a store reads: texts of a source, parsed in a language. The readings are counted, for clauses alone.
ghost use Rattle.std.specs.Prelude.{◌≡◌, ℕ, ◌+◌, is_ok, is_some, map, not, option_map, IfOk};
ghost use Rattle.std.specs.Borrow.{ftrue};
ghost use Rattle.std.specs.Cow.{cow_str_bytes};
ghost use Rattle.std.specs.FinMap.{get, keys};
ghost use Rattle.liquid_error.specs.meaning.Told.{Gives};
ghost use Rattle.liquid_parser.specs.meaning.Plugins.{language_of};
ghost use Rattle.liquid_partials.specs.meaning.Compiled.{as_tree, once};
ghost use Rattle.liquid_partials.specs.meaning.Keeping.{is_answer};
ghost use Rattle.liquid_partials.specs.meaning.Kept.{reading, shared_nodes};
ghost use Rattle.liquid_template.specs.meaning.TemplateOf.{template_nodes};

use crate::source::PartialSource;
use liquid_error::Error;
use liquid_parser::{Language, ParseBlock, ParseTag, parse};
use liquid_plugins::ParseFilter;
use liquid_template::Template;
use std::alloc::{AllocError, Global};
use std::borrow::CowStr;
use std::marker::{Model, PhantomData};
use std::rc::Rc;

/// The number of texts that were read, and for how many of them memory ran out. Neither has a limit. It takes no
/// memory, and its methods do nothing at run time.
///
/// It is made only with a [`CountedSource`], which gives no text without it. So what reads a text counts the reading
/// where the store has its count.
#[derive(Drop)]
pub struct Readings {
    marker: PhantomData<u8>,
    pub ghost count: { ℕ },
    pub ghost lost: { ℕ },
}

impl Model for Readings {
    ghost also_owns = { λ _. ftrue };
}

impl Readings {
    /// Returns the counts before the first reading.
    #[inline(always)]
    fn none() -> Readings
        ensures { (result.count ≡ 0) × (result.lost ≡ 0) }
    {
        Readings {
            marker: PhantomData,
        }
    }

    /// Counts one more reading.
    #[inline(always)]
    fn one_more(&mut self)
        ensures { self.new ≡ record self.old { count = self.old.count + 1 } }
    {}

    /// Counts one more reading for which memory ran out.
    #[inline(always)]
    fn ran_out(&mut self)
        ensures { self.new ≡ record self.old { lost = self.old.lost + 1 } }
    {}
}

/// A source that gives a text only if the reading is counted.
#[derive(Drop)]
pub struct CountedSource<S> {
    source: S,
}

impl<S> Model for CountedSource<S> {
    ghost Value = { S };

    ghost view = { λ counted. counted.source };
}

/// A text of a counted source, which can be parsed once.
#[derive(Drop)]
pub struct Unparsed<'a> {
    text: CowStr<'a>,
}

impl<S: PartialSource> CountedSource<S> {
    /// Returns the source, of which no text is read yet, with the count of its readings.
    pub fn new(source: S) -> (CountedSource<S>, Readings)
        ensures source { result.0 ≡ source }
        ensures none { (result.1.count ≡ 0) × (result.1.lost ≡ 0) }
    {
        (CountedSource { source }, Readings::none())
    }

    /// Returns `true` if the source has a text of this name.
    pub fn contains(&self, name: &str) -> bool
        ensures { result ≡ is_some (get (S.texts self.now) name.now) }
    {
        self.source.contains(name)
    }

    /// Returns the names of the texts, in byte order.
    pub fn names(&self, alloc: Global) -> Result<Vec<&str>, AllocError>
        ensures { IfOk result (λ names. map (λ name. name.now) names.items ≡ keys (S.texts self.now)) }
    {
        self.source.names(alloc)
    }

    /// Returns the text of a name, and counts the reading.
    pub fn try_get(
        &self,
        alloc: Global,
        name: &str,
        readings: &mut Readings,
    ) -> Result<Option<Unparsed<'_>>, AllocError>
        ensures text { IfOk result (λ text. option_map (λ text. cow_str_bytes text.text) text ≡ get (S.texts self.now) name.now) }
        ensures count { readings.new.count ≡ readings.old.count + 1 }
        ensures lost { readings.new.lost ≡ readings.old.lost + once (not (is_ok result)) }
    {
        readings.one_more();
        match self.source.try_get(alloc, name) {
            Ok(Some(text)) => Ok(Some(Unparsed { text })),
            Ok(None) => Ok(None),
            Err(_) => {
                readings.ran_out();
                Err(AllocError)
            }
        }
    }
}

/// A language, in which only texts of a counted source are parsed.
#[derive(Drop)]
pub struct TextParser<F, T, B> {
    language: Rc<Language<F, T, B>>,
}

impl<F, T, B> TextParser<F, T, B>
where
    F: ParseFilter,
    T: ParseTag<F>,
    B: ParseBlock<F>,
{
    /// Returns the parser of texts in this language.
    pub fn new(language: Rc<Language<F, T, B>>) -> TextParser<F, T, B>
        ensures { result.language ≡ language }
    {
        TextParser { language }
    }

    /// Returns the template of a text, or the text's fault, and counts an `Err` that is out of memory.
    pub fn parse(
        &self,
        alloc: Global,
        text: Unparsed<'_>,
        readings: &mut Readings,
    ) -> Result<Rc<Template<F::Filter, T::Node, B::Node>>, Error>
        ensures gives { Gives (shared_nodes F.Filter.shape T.Node.shape B.Node.shape) result
            (as_tree (reading (language_of F.makes T.gives B.block self.now.language.value) (cow_str_bytes text.entry.text))) }
        ensures count { readings.new.count ≡ readings.old.count }
        ensures lost { readings.new.lost ≡ readings.old.lost + once (not (is_answer result)) }
    {
        let answer = parse_shared(alloc, text.text.as_str(), &self.language);
        if is_lost(&answer) {
            readings.ran_out();
        }
        answer
    }
}

/// Returns the template of a text for all that request it, or the text's fault.
fn parse_shared<F: ParseFilter, T: ParseTag<F>, B: ParseBlock<F>>(
    alloc: Global,
    text: &str,
    language: &Language<F, T, B>,
) -> Result<Rc<Template<F::Filter, T::Node, B::Node>>, Error>
    ensures { Gives (shared_nodes F.Filter.shape T.Node.shape B.Node.shape) result
        (as_tree (reading (language_of F.makes T.gives B.block language.now) text.now)) }
{
    let template = parse_text(alloc, text, language)?;
    Ok(Rc::new(alloc, template)?)
}

/// Returns the template of a text, or the text's fault.
fn parse_text<F: ParseFilter, T: ParseTag<F>, B: ParseBlock<F>>(
    alloc: Global,
    text: &str,
    language: &Language<F, T, B>,
) -> Result<Template<F::Filter, T::Node, B::Node>, Error>
    ensures { Gives (template_nodes F.Filter.shape T.Node.shape B.Node.shape) result
        (as_tree (reading (language_of F.makes T.gives B.block language.now) text.now)) }
{
    Ok(Template::new(parse(alloc, text, language)?))
}

/// Returns `true` if an answer is out of memory.
fn is_lost<A>(answer: &Result<A, Error>) -> bool
    ensures { result ≡ not (is_answer answer.now) }
{
    match answer {
        Ok(_) => false,
        Err(error) => error.is_memory(),
    }
}
