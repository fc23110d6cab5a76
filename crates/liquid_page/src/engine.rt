//! Rendering the texts of a site in a language.
ghost use Rattle.std.specs.Prelude.{◌≡◌, ◌≢◌, [], IfOk, IfErr, Some, None, string_bytes};
ghost use Rattle.liquid_error.specs.meaning.Told.{told};
ghost use Rattle.liquid_parser.specs.meaning.Plugins.{language_of};
ghost use Rattle.liquid_template.specs.meaning.Runs.{setting};
ghost use Rattle.liquid_partials.specs.meaning.Sources.{texts_in};
ghost use Rattle.liquid_page.specs.meaning.Answered.{Answered, ComesTo};

use crate::rewriting::Rewrite;
use crate::shared::SharedSource;
use liquid_error::Error;
use liquid_pages::{PageLimit, PageOptions, render_text};
use liquid_parser::{Language, ParseBlock, ParseTag};
use liquid_plugins::{Discreet, ParseFilter};
use liquid_runtime::Fresh;
use liquid_template::{Sink, TextSink};
use liquid_value::Object;
use page_site::{Engine, Failure, Partials, Source};
use std::alloc::{AllocError, Global};
use std::marker::PhantomData;
use std::rc::Rc;

/// Explains the errors of texts.
pub trait Explain {
    /// Returns the error of a text as it is printed. `stopped_by` is the limit that stopped it, if one did.
    fn explain(
        &self,
        alloc: Global,
        source: Source<'_>,
        partials: &Partials,
        stopped_by: Option<PageLimit>,
        error: &Error,
    ) -> Result<String, AllocError>;
}

/// Renders texts in a language, with these options and partials, over a register `V`. Texts and partials are read as `R`
/// says.
#[derive(Drop)]
pub struct PageEngine<V, R, F, T, B, X> {
    pub language: Rc<Language<F, T, B>>,
    pub options: PageOptions,
    pub partials: Rc<Partials>,
    pub explain: X,
    pub register: PhantomData<V>,
    pub read_as: PhantomData<R>,
}

impl<V, R, F, T, B, X> Engine for PageEngine<V, R, F, T, B, X>
where
    V: Fresh,
    R: Rewrite,
    F: ParseFilter,
    T: ParseTag<F>,
    B: ParseBlock<F>,
    T::Node: Discreet<V>,
    B::Node: Discreet<V>,
    X: Explain,
{
    ghost answers = { λ engine. Answered R.rewritten (setting V.fresh F.Filter.means T.Node.means B.Node.means)
        (language_of F.makes T.gives B.block engine.language.value) engine.options (texts_in engine.partials.value) };

    fn render(
        &mut self,
        alloc: Global,
        source: Source<'_>,
        names: Object,
    ) -> Result<String, Failure> {
        let Ok(partials) = self.partials.clone() else {
            return Err(Failure::Memory);
        };
        let Ok(text) = R::rewrite(alloc, source.text) else {
            return Err(Failure::Memory);
        };
        let mut sink = TextSink::new(alloc);
        let mut stopped_by = None;
        let answer = render_text::<V, F, T, B, SharedSource<R>, TextSink>(
            alloc,
            self.options,
            text.as_str(),
            &self.language,
            names,
            Some(SharedSource::new(partials)),
            &mut sink,
            &mut stopped_by,
        );
        match answer {
            Ok(()) => page_of(alloc, source, sink),
            Err(error) => Err(failure_of(
                alloc,
                &self.explain,
                source,
                &self.partials,
                stopped_by,
                &error,
            )),
        }
    }
}

/// Returns the page that was written.
fn page_of(alloc: Global, source: Source<'_>, sink: TextSink) -> Result<String, Failure>
    ensures page { IfOk result (λ page. ComesTo (Some (string_bytes page)) (⟦<TextSink as Sink>⟧.sunk sink).taken (Ok tt)) }
    ensures failure { IfErr result (λ failure. failure ≢ Failure.Memory → ComesTo None (⟦<TextSink as Sink>⟧.sunk sink).taken (Ok tt)) }
{
    match sink.into_string() {
        Ok(page) => Ok(page),
        Err(_) => match format!(in alloc; "liquid: {}: the page is not UTF-8\n", source.path) {
            Ok(message) => Err(Failure::Error(message)),
            Err(_) => Err(Failure::Memory),
        },
    }
}

/// Returns the failure of a text, with its error explained.
fn failure_of<X: Explain>(
    alloc: Global,
    explain: &X,
    source: Source<'_>,
    partials: &Partials,
    stopped_by: Option<PageLimit>,
    error: &Error,
) -> Failure
    ensures { result ≢ Failure.Memory → ¬ (told error.now ≡ None) }
{
    if error.is_memory() {
        return Failure::Memory;
    }
    match explain.explain(alloc, source, partials, stopped_by, error) {
        Ok(message) => Failure::Error(message),
        Err(_) => Failure::Memory,
    }
}
