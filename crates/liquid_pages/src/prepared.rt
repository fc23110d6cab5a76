//! Pages of one template over many globals: the template and the partials are read once.
ghost use Rattle.std.specs.Prelude.{◌≡◌, Some, map, option_map, IfSome};
ghost use Rattle.liquid_error.specs.meaning.Told.{told};
ghost use Rattle.liquid_runtime.specs.meaning.Maps.{names_of};
ghost use Rattle.liquid_parser.specs.meaning.Plugins.{language_of};
ghost use Rattle.liquid_pages.specs.meaning.Faults.{fault_told, unparsed};
ghost use Rattle.liquid_pages.specs.meaning.Pages.{nodes_in};
ghost use Rattle.liquid_pages.specs.meaning.Prepared.{IsPrepared, IsReadAs, IsReadOver, PreparedShows, StaysPrepared};
ghost use Rattle.liquid_pages.specs.meaning.Shown.{bytes_of_partial};
ghost use Rattle.liquid_pages.specs.steps.ReadShows.{ReadShows, StaysRead, TemplateShows};

use crate::fault::{PageFault, PageText};
use crate::gather::{PartialBytes, globals_in, partials_in, text_of};
use crate::options::PageOptions;
use crate::rendered::{Rendered, nothing, page_answer};
use crate::rendering::{PageTemplate, read_template, render_over_store, store_of};
use liquid_error::Error;
use liquid_parser::{Language, ParseBlock, ParseTag};
use liquid_partials::{InMemorySource, LazyStore};
use liquid_plugins::{Discreet, ParseFilter};
use liquid_runtime::Fresh;
use liquid_template::{PartialStore, TextSink};
use liquid_value::Object;
use std::alloc::Global;
use std::mem;
use std::rc::Rc;

/// What was read of a page without its globals, or why it was not read.
#[derive(Drop)]
pub enum ReadTexts<X, S> {
    /// This text of a partial is not UTF-8.
    NoPartial(PageText),
    /// Memory ran out.
    NoMemory,
    /// The template can't be parsed.
    Unparsed(Error),
    /// The template and the store of the partials.
    Read(X, Option<S>),
}

/// A page without its globals. Its template and its partials are read once, whatever it is rendered over.
#[derive(Drop)]
pub struct Prepared<X, S> {
    // `None` if the template is not UTF-8
    texts: Option<ReadTexts<X, S>>,
}

/// The store of a page's partials.
pub type Partials<F, T, B> = LazyStore<InMemorySource, F, T, B>;

/// A page of a language.
pub type PreparedPage<F, T, B> = Prepared<PageTemplate<F, T, B>, Partials<F, T, B>>;

/// What was read of a page of a language.
type PageTexts<F, T, B> = ReadTexts<PageTemplate<F, T, B>, Partials<F, T, B>>;

/// Reads a page's template in this language and its partials.
///
/// A fault of a text is that of each rendering of the page, as `render_page` returns it. A partial is parsed when it is
/// first rendered, and then kept for the renderings that follow.
pub fn prepare_page<F, T, B>(
    alloc: Global,
    language: &Rc<Language<F, T, B>>,
    text: &[u8],
    partials: &[PartialBytes<'_>],
) -> PreparedPage<F, T, B>
where
    F: ParseFilter,
    T: ParseTag<F>,
    B: ParseBlock<F>,
    ensures { IsPrepared (nodes_in F.Filter.shape T.Node.shape B.Node.shape)
        ⟦<Partials<F, T, B> as PartialStore<F::Filter, T::Node, B::Node>>⟧.finds
        (language_of F.makes T.gives B.block language.now.value) text.now (map bytes_of_partial partials.now) result.texts }
{
    match text_of(text, PageText::Template) {
        Ok(text) => Prepared {
            texts: Some(read_partials(alloc, language, text, partials)),
        },
        Err(_fault) => Prepared { texts: None },
    }
}

/// Reads the partials of a template's text, and parses that.
fn read_partials<F, T, B>(
    alloc: Global,
    language: &Rc<Language<F, T, B>>,
    text: &str,
    partials: &[PartialBytes<'_>],
) -> PageTexts<F, T, B>
where
    F: ParseFilter,
    T: ParseTag<F>,
    B: ParseBlock<F>,
    ensures { IsReadOver (nodes_in F.Filter.shape T.Node.shape B.Node.shape)
        ⟦<Partials<F, T, B> as PartialStore<F::Filter, T::Node, B::Node>>⟧.finds
        (language_of F.makes T.gives B.block language.now.value) text.now (map bytes_of_partial partials.now) result }
{
    match partials_in(alloc, partials) {
        Ok(source) => read_text(alloc, language, text, source),
        Err(PageFault::NoText(which)) => ReadTexts::NoPartial(which),
        Err(_) => ReadTexts::NoMemory,
    }
}

/// Parses a template's text, beside these partials.
fn read_text<F, T, B>(
    alloc: Global,
    language: &Rc<Language<F, T, B>>,
    text: &str,
    partials: InMemorySource,
) -> PageTexts<F, T, B>
where
    F: ParseFilter,
    T: ParseTag<F>,
    B: ParseBlock<F>,
    ensures { IsReadAs (nodes_in F.Filter.shape T.Node.shape B.Node.shape)
        ⟦<Partials<F, T, B> as PartialStore<F::Filter, T::Node, B::Node>>⟧.finds
        (language_of F.makes T.gives B.block language.now.value) text.now partials result }
{
    match read_template(alloc, text, language) {
        Ok(template) => match store_of(alloc, language, Some(partials)) {
            Ok(store) => ReadTexts::Read(template, store),
            Err(_) => ReadTexts::NoMemory,
        },
        Err(error) => ReadTexts::Unparsed(error),
    }
}

/// Renders a page over globals that are a JSON object, as `render_page` does.
pub fn render_prepared<V, F, T, B>(
    alloc: Global,
    page: &mut PreparedPage<F, T, B>,
    options: PageOptions,
    globals: &[u8],
) -> Rendered
where
    V: Fresh,
    F: ParseFilter,
    T: ParseTag<F>,
    B: ParseBlock<F>,
    T::Node: Discreet<V>,
    B::Node: Discreet<V>,
    ensures shows { PreparedShows B.Plan.Shape V.fresh F.Filter.Filter T.Node.Discreet B.Node.Discreet
        ⟦<Partials<F, T, B> as PartialStore<F::Filter, T::Node, B::Node>>⟧.finds
        options globals.now page.old.texts result }
    ensures prepared { StaysPrepared B.Plan.Shape (nodes_in F.Filter.shape T.Node.shape B.Node.shape)
        ⟦<Partials<F, T, B> as PartialStore<F::Filter, T::Node, B::Node>>⟧.finds page.old.texts page.new.texts }
{
    match &mut page.texts {
        Some(texts) => match globals_in(alloc, options.decimals, globals) {
            Ok(globals) => render_texts::<V, F, T, B>(alloc, texts, options, globals),
            Err(fault) => nothing(alloc, fault),
        },
        None => nothing(alloc, PageFault::NoText(PageText::Template)),
    }
}

/// Renders what was read over these globals.
fn render_texts<V, F, T, B>(
    alloc: Global,
    texts: &mut PageTexts<F, T, B>,
    options: PageOptions,
    globals: Object,
) -> Rendered
where
    V: Fresh,
    F: ParseFilter,
    T: ParseTag<F>,
    B: ParseBlock<F>,
    T::Node: Discreet<V>,
    B::Node: Discreet<V>,
    ensures shows { ReadShows B.Plan.Shape V.fresh F.Filter.Filter T.Node.Discreet B.Node.Discreet
        ⟦<Partials<F, T, B> as PartialStore<F::Filter, T::Node, B::Node>>⟧.finds
        options (names_of globals) texts.old result }
    ensures prepared { StaysRead B.Plan.Shape (nodes_in F.Filter.shape T.Node.shape B.Node.shape)
        ⟦<Partials<F, T, B> as PartialStore<F::Filter, T::Node, B::Node>>⟧.finds texts.old texts.new }
{
    match texts {
        ReadTexts::NoPartial(which) => nothing(alloc, PageFault::NoText(*which)),
        ReadTexts::NoMemory => nothing(alloc, PageFault::Refused(Error::Memory)),
        ReadTexts::Unparsed(error) => nothing(alloc, fault_of(error)),
        ReadTexts::Read(template, store) => render_read::<V, F, T, B>(
            alloc, template, store, options, globals,
        ),
    }
}

/// Returns the fault of a template that can't be parsed.
fn fault_of(error: &Error) -> PageFault
    ensures { IfSome (fault_told result) (λ fault. option_map unparsed (told error.now) ≡ Some fault) }
{
    match error.clone() {
        Ok(error) => PageFault::Unparsed(error),
        Err(_) => PageFault::Refused(Error::Memory),
    }
}

/// Renders a template over these globals and this store, and keeps the store.
fn render_read<V, F, T, B>(
    alloc: Global,
    template: &PageTemplate<F, T, B>,
    store: &mut Option<Partials<F, T, B>>,
    options: PageOptions,
    globals: Object,
) -> Rendered
where
    V: Fresh,
    F: ParseFilter,
    T: ParseTag<F>,
    B: ParseBlock<F>,
    T::Node: Discreet<V>,
    B::Node: Discreet<V>,
    ensures shows { TemplateShows B.Plan.Shape V.fresh F.Filter.Filter T.Node.Discreet B.Node.Discreet
        ⟦<Partials<F, T, B> as PartialStore<F::Filter, T::Node, B::Node>>⟧.finds
        options (names_of globals) template.now store.old result }
    ensures kept { option_map ⟦<Partials<F, T, B> as PartialStore<F::Filter, T::Node, B::Node>>⟧.finds store.new
        ≡ option_map ⟦<Partials<F, T, B> as PartialStore<F::Filter, T::Node, B::Node>>⟧.finds store.old }
{
    let mut output = TextSink::new(alloc);
    let mut stopped_by = None;
    let used = mem::replace(store, None);
    let (answer, back) = render_over_store::<V, F, T, B, InMemorySource, TextSink>(
        alloc,
        options,
        template,
        globals,
        used,
        &mut output,
        &mut stopped_by,
    );
    *store = back;
    Rendered {
        output,
        end: page_answer(answer),
        stopped_by,
    }
}
