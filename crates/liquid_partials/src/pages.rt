//! Rendering a page in one call.
ghost use Rattle.std.specs.Prelude.{◌≡◌, Some, IfOk};
ghost use Rattle.liquid_runtime.specs.meaning.Frames.{built_view};
ghost use Rattle.liquid_runtime.specs.meaning.Maps.{names_of};
ghost use Rattle.liquid_parser.specs.meaning.Plugins.{language_of};
ghost use Rattle.liquid_template.specs.meaning.Runs.{setting};
ghost use Rattle.liquid_partials.specs.meaning.Compiled.{Compiled};
ghost use Rattle.liquid_partials.specs.meaning.Pages.{RendersPage, page_depth};

use crate::compiler::PartialCompiler;
use crate::lazy::{LazyCompiler, LazyStore};
use crate::rendering::render_source;
use crate::source::PartialSource;
use liquid_error::Error;
use liquid_parser::{Language, ParseBlock, ParseTag};
use liquid_plugins::{ParseFilter, Renderable};
use liquid_runtime::{BuiltRuntime, Fresh, Runtime, RuntimeBuilder};
use liquid_template::{PartialStore, Sink};
use liquid_value::Object;
use std::alloc::{AllocError, Global};
use std::rc::Rc;

/// A runtime of a page: names are strict, and 32 partials may be nested.
type PageRuntime<V, S, F, T, B> = BuiltRuntime<V, LazyStore<S, F, T, B>>;

/// Renders a page and writes the result: this text in this language, over these globals, with the partials of this
/// source and a fresh register of type `V`.
///
/// A text that is not a template of the language is an error before anything is written. What was written before any
/// other error stays written. If the sink fails, the error is "Failed to render".
pub fn render_page_in<V, F, T, B, S, K>(
    alloc: Global,
    text: &str,
    language: Language<F, T, B>,
    globals: Object,
    partials: S,
    sink: &mut K,
) -> Result<(), Error>
where
    V: Fresh,
    F: ParseFilter,
    T: ParseTag<F>,
    B: ParseBlock<F>,
    T::Node: Renderable<V>,
    B::Node: Renderable<V>,
    S: PartialSource,
    K: Sink,
    ensures { RendersPage V.fresh (setting V.fresh F.Filter.means T.Node.means B.Node.means)
        (language_of F.makes T.gives B.block language) text.now (names_of globals) (S.texts partials)
        (K.sunk sink.old) (K.sunk sink.new) result }
{
    let language = Rc::new(alloc, language)?;
    let store = store_of(alloc, &language, partials)?;
    let mut runtime = runtime_of::<V, F, T, B, S>(alloc, globals, store);
    render_source(alloc, text, &language, &mut runtime, sink)
}

/// Returns a store of the partials in this language.
fn store_of<F, T, B, S>(
    alloc: Global,
    language: &Rc<Language<F, T, B>>,
    partials: S,
) -> Result<LazyStore<S, F, T, B>, AllocError>
where
    F: ParseFilter,
    T: ParseTag<F>,
    B: ParseBlock<F>,
    S: PartialSource,
    ensures { IfOk result (λ store. Compiled (language_of F.makes T.gives B.block language.now.value) (S.texts partials)
        (⟦<LazyStore<S, F, T, B> as PartialStore<F::Filter, T::Node, B::Node>>⟧.finds store)) }
{
    Ok(LazyCompiler::new(partials).compile(alloc, language.clone()?)?)
}

/// Returns the runtime over these globals and this store.
fn runtime_of<V, F, T, B, S>(
    alloc: Global,
    globals: Object,
    store: LazyStore<S, F, T, B>,
) -> PageRuntime<V, S, F, T, B>
where
    V: Fresh,
    F: ParseFilter,
    T: ParseTag<F>,
    B: ParseBlock<F>,
    S: PartialSource,
    ensures view { ⟦<PageRuntime<V, S, F, T, B> as Runtime>⟧.view result ≡ built_view V.fresh page_depth (names_of globals) }
    ensures store { ⟦<PageRuntime<V, S, F, T, B> as Runtime>⟧.store result ≡ Some store }
{
    RuntimeBuilder::new(alloc)
        .set_globals(globals)
        .set_partials(store)
        .build()
}
