//! Rendering a template over globals and partials.
ghost use Rattle.std.specs.Prelude.{◌≡◌, IfOk, option_map};
ghost use Rattle.liquid_error.specs.meaning.Told.{Gives};
ghost use Rattle.liquid_runtime.specs.meaning.Maps.{names_of};
ghost use Rattle.liquid_parser.specs.meaning.Plugins.{language_of};
ghost use Rattle.liquid_parser.specs.meaning.Reading.{Reads};
ghost use Rattle.liquid_template.specs.meaning.Grows.{Grows};
ghost use Rattle.liquid_template.specs.meaning.Runs.{setting};
ghost use Rattle.liquid_pages.specs.meaning.Pages.{
  built_over,
  nodes_in,
  IsFoundIn,
  PageAnswer,
  Renders,
  RendersOver,
  RendersTemplate,
};

use crate::gate::PageLimit;
use crate::options::{PageFrame, PageOptions, room_of};
use crate::within::{render_in_room, render_isolated_in_room, render_sandboxed_in_room};
use liquid_error::Error;
use liquid_parser::{Language, ParseBlock, ParseTag, parse};
use liquid_partials::{LazyCompiler, LazyStore, PartialCompiler, PartialSource};
use liquid_plugins::{Discreet, ParseFilter};
use liquid_runtime::names::no_names;
use liquid_runtime::{BuiltRuntime, Fresh, Leniency, Runtime, RuntimeBuilder};
use liquid_template::{PartialStore, Sink, Template};
use liquid_value::Object;
use std::alloc::{AllocError, Global};
use std::rc::Rc;

/// A template of a language.
pub type PageTemplate<F, T, B> = Template<
    <F as ParseFilter>::Filter,
    <T as ParseTag<F>>::Node,
    <B as ParseBlock<F>>::Node,
>;

/// A runtime over a register and a store of partials.
type PageRuntime<V, S, F, T, B> = BuiltRuntime<V, LazyStore<S, F, T, B>>;

/// Returns the template of a text.
pub fn read_template<F, T, B>(
    alloc: Global,
    text: &str,
    language: &Language<F, T, B>,
) -> Result<PageTemplate<F, T, B>, Error>
where
    F: ParseFilter,
    T: ParseTag<F>,
    B: ParseBlock<F>,
    ensures { (answer : PageAnswer F.Filter.Shape T.Node.Shape B.Node.Shape) → Reads
        (language_of F.makes T.gives B.block language.now) text.now answer
        → Gives (nodes_in F.Filter.shape T.Node.shape B.Node.shape) result answer }
{
    Ok(Template::new(parse(alloc, text, language)?))
}

/// Renders a text in this language, over these globals and these partials, with these options, and writes the result.
/// `stopped_by` gets the limit that ended it, if one did.
///
/// A text that can't be parsed is an error before anything is written. What was written before any other error stays
/// written, and a failure of the sink is the error "Failed to render".
#[tactic(auto, using(crate::proofs::UntouchedSinks::untouched))]
pub fn render_text<V, F, T, B, S, K>(
    alloc: Global,
    options: PageOptions,
    text: &str,
    language: &Rc<Language<F, T, B>>,
    globals: Object,
    partials: Option<S>,
    sink: &mut K,
    stopped_by: &mut Option<PageLimit>,
) -> Result<(), Error>
where
    V: Fresh,
    F: ParseFilter,
    T: ParseTag<F>,
    B: ParseBlock<F>,
    T::Node: Discreet<V>,
    B::Node: Discreet<V>,
    S: PartialSource,
    K: Sink,
    ensures renders { Renders
        (setting V.fresh F.Filter.means T.Node.means B.Node.means)
        (language_of F.makes T.gives B.block language.now.value) options text.now (names_of globals)
        (option_map S.texts partials) (K.sunk sink.old) (K.sunk sink.new) result }
    ensures after { Grows (K.sunk sink.old) (K.sunk sink.new) }
    ensures borrows { (K.sunk sink.new).lent ≡ (K.sunk sink.old).lent }
{
    let template = read_template(alloc, text, language)?;
    render_template::<V, F, T, B, S, K>(
        alloc, options, &template, language, globals, partials, sink, stopped_by,
    )
}

/// Renders a template of this language and writes the result, as `render_text` does for a text.
#[tactic(auto, using(crate::proofs::UntouchedSinks::untouched))]
pub fn render_template<V, F, T, B, S, K>(
    alloc: Global,
    options: PageOptions,
    template: &PageTemplate<F, T, B>,
    language: &Rc<Language<F, T, B>>,
    globals: Object,
    partials: Option<S>,
    sink: &mut K,
    stopped_by: &mut Option<PageLimit>,
) -> Result<(), Error>
where
    V: Fresh,
    F: ParseFilter,
    T: ParseTag<F>,
    B: ParseBlock<F>,
    T::Node: Discreet<V>,
    B::Node: Discreet<V>,
    S: PartialSource,
    K: Sink,
    ensures renders { RendersTemplate V.fresh F.Filter.Filter T.Node.Discreet B.Node.Discreet
        (language_of F.makes T.gives B.block language.now.value) options template.now (names_of globals)
        (option_map S.texts partials) (K.sunk sink.old) (K.sunk sink.new) result }
    ensures after { Grows (K.sunk sink.old) (K.sunk sink.new) }
    ensures borrows { (K.sunk sink.new).lent ≡ (K.sunk sink.old).lent }
{
    match store_of(alloc, language, partials) {
        Ok(store) => {
            let (answer, _store) = render_over_store::<V, F, T, B, S, K>(
                alloc, options, template, globals, store, sink, stopped_by,
            );
            answer
        }
        Err(_) => Err(Error::Memory),
    }
}

/// Renders a template over these globals and this store of partials, if there is one, and writes the result, as
/// `render_template` does. Returns the store too, for another rendering.
pub fn render_over_store<V, F, T, B, S, K>(
    alloc: Global,
    options: PageOptions,
    template: &PageTemplate<F, T, B>,
    globals: Object,
    store: Option<LazyStore<S, F, T, B>>,
    sink: &mut K,
    stopped_by: &mut Option<PageLimit>,
) -> (Result<(), Error>, Option<LazyStore<S, F, T, B>>)
where
    V: Fresh,
    F: ParseFilter,
    T: ParseTag<F>,
    B: ParseBlock<F>,
    T::Node: Discreet<V>,
    B::Node: Discreet<V>,
    S: PartialSource,
    K: Sink,
    ensures renders { RendersOver V.fresh F.Filter.Filter T.Node.Discreet B.Node.Discreet B.Plan.Shape
        ⟦<LazyStore<S, F, T, B> as PartialStore<F::Filter, T::Node, B::Node>>⟧.finds
        options template.now (names_of globals) store (K.sunk sink.old) (K.sunk sink.new) result.0 }
    ensures store { option_map ⟦<LazyStore<S, F, T, B> as PartialStore<F::Filter, T::Node, B::Node>>⟧.finds result.1
        ≡ option_map ⟦<LazyStore<S, F, T, B> as PartialStore<F::Filter, T::Node, B::Node>>⟧.finds store }
    ensures after { Grows (K.sunk sink.old) (K.sunk sink.new) }
    ensures borrows { (K.sunk sink.new).lent ≡ (K.sunk sink.old).lent }
{
    let room = room_of(options);
    let leniency = options.leniency;
    match options.frame {
        PageFrame::Open => {
            let mut runtime = runtime_of::<V, F, T, B, S>(alloc, leniency, globals, store);
            let answer = render_in_room(alloc, room, template, &mut runtime, sink, stopped_by);
            (answer, runtime.into_partials())
        }
        PageFrame::Sandboxed => {
            let mut runtime = runtime_of::<V, F, T, B, S>(alloc, leniency, no_names(alloc), store);
            let answer = render_sandboxed_in_room(
                alloc,
                room,
                template,
                &mut runtime,
                globals,
                sink,
                stopped_by,
            );
            (answer, runtime.into_partials())
        }
        PageFrame::Isolated => {
            let mut runtime = runtime_of::<V, F, T, B, S>(alloc, leniency, no_names(alloc), store);
            let answer = render_isolated_in_room(
                alloc,
                room,
                template,
                &mut runtime,
                globals,
                sink,
                stopped_by,
            );
            (answer, runtime.into_partials())
        }
    }
}

/// Returns a store of the partials, if there are any, in this language.
pub(crate) fn store_of<F, T, B, S>(
    alloc: Global,
    language: &Rc<Language<F, T, B>>,
    partials: Option<S>,
) -> Result<Option<LazyStore<S, F, T, B>>, AllocError>
where
    F: ParseFilter,
    T: ParseTag<F>,
    B: ParseBlock<F>,
    S: PartialSource,
    ensures { IfOk result (λ store. IsFoundIn (language_of F.makes T.gives B.block language.now.value) (option_map S.texts partials)
        (option_map ⟦<LazyStore<S, F, T, B> as PartialStore<F::Filter, T::Node, B::Node>>⟧.finds store)) }
{
    match partials {
        Some(source) => Ok(Some(LazyCompiler::new(source).compile(alloc, language.clone()?)?)),
        None => Ok(None),
    }
}

/// Returns the runtime of this leniency over these globals and this store, if there is one.
fn runtime_of<V, F, T, B, S>(
    alloc: Global,
    leniency: Leniency,
    globals: Object,
    store: Option<LazyStore<S, F, T, B>>,
) -> PageRuntime<V, S, F, T, B>
where
    V: Fresh,
    F: ParseFilter,
    T: ParseTag<F>,
    B: ParseBlock<F>,
    S: PartialSource,
    ensures view { ⟦<PageRuntime<V, S, F, T, B> as Runtime>⟧.view result ≡ built_over V.fresh leniency (names_of globals) }
    ensures store { ⟦<PageRuntime<V, S, F, T, B> as Runtime>⟧.store result ≡ store }
{
    let builder = RuntimeBuilder::new(alloc)
        .set_globals(globals)
        .set_leniency(leniency);
    match store {
        Some(store) => builder.set_partials(store).build(),
        None => builder.build(),
    }
}
