//! The calls that render a template: over a runtime, in a sandbox, in isolation, over both forms of scopes, and within
//! limits.
ghost use Rattle.std.specs.Prelude.{◌≡◌};

use crate::numbers::numbers;
use liquid_core::model::Object;
use liquid_core::parser::{Language, ParseBlock, ParseFilter, ParseTag, parse};
use liquid_core::runtime::{
    BuiltRuntime, ChainedScopes, FlatScopes, Runtime, RuntimeBuilder, Scopes, Template,
};
use liquid_core::{Discreet, Error, Filter, GatedSink, Limits, PartialStore, TextSink};
use std::alloc::{AllocError, Global};
use test_plugins::language;

/// A template of a language.
type Page<F, T, B> = Template<
    <F as ParseFilter>::Filter,
    <T as ParseTag<F>>::Node,
    <B as ParseBlock<F>>::Node,
>;

/// What each call renders, and what is written.
const TEXT: &str = "{% box %}{{ x }}{% endbox %}";

const WRITTEN: &str = "[1]";

/// What a page is rendered in.
#[derive(Clone, Copy)]
enum Surroundings {
    Runtime,
    Sandbox,
    Isolation,
}

/// Returns the names that the template sees, or `None` if memory runs out.
fn names(alloc: Global) -> Option<Object> {
    numbers(alloc, &[("x", 1)]).ok()
}

/// Returns a runtime of these names, or `None` if memory runs out.
fn runtime(alloc: Global) -> Option<BuiltRuntime<(), ()>> {
    match names(alloc) {
        Some(names) => Some(
            RuntimeBuilder::new(alloc)
                .set_globals(names)
                .set_depth(3)
                .build(),
        ),
        None => None,
    }
}

/// Returns the template of a text in a language, or `None` if it has an error.
fn page<F, T, B>(alloc: Global, language: &Language<F, T, B>, text: &str) -> Option<Page<F, T, B>>
where
    F: ParseFilter,
    T: ParseTag<F>,
    B: ParseBlock<F>,
{
    match parse(alloc, text, language) {
        Ok(nodes) => Some(Template::new(nodes)),
        Err(_) => None,
    }
}

/// Returns `true` if a sink took the text, and the call had no error.
fn is_written(sink: &TextSink, answer: &Result<(), Error>) -> bool {
    answer.is_ok() && sink.as_bytes() == WRITTEN.as_bytes()
}

/// Renders a page within limits over a runtime, or in it with the names.
fn render_within<X, T, B, R>(
    alloc: Global,
    surroundings: Surroundings,
    page: &Template<X, T, B>,
    sink: &mut GatedSink<TextSink, Limits>,
    around: &mut R,
) -> Result<(), Error>
where
    X: Filter,
    T: Discreet<()>,
    B: Discreet<()>,
    R: Runtime<Register = ()>,
    R::Store: PartialStore<X, T, B>,
{
    match (surroundings, names(alloc)) {
        (Surroundings::Runtime, _) => page.render_within(alloc, sink, around),
        (Surroundings::Sandbox, Some(names)) => {
            page.render_sandboxed_within(alloc, sink, around, names, None)
        }
        (Surroundings::Isolation, Some(names)) => {
            page.render_isolated_within(alloc, sink, around, names, None)
        }
        _ => Err(Error::Memory),
    }
}

/// Renders a page over a runtime, or in it with the names.
fn render<X, T, B, R>(
    alloc: Global,
    surroundings: Surroundings,
    page: &Template<X, T, B>,
    sink: &mut TextSink,
    around: &mut R,
) -> Result<(), Error>
where
    X: Filter,
    T: Discreet<()>,
    B: Discreet<()>,
    R: Runtime<Register = ()>,
    R::Store: PartialStore<X, T, B>,
{
    match (surroundings, names(alloc)) {
        (Surroundings::Runtime, _) => page.render_to(alloc, sink, around),
        (Surroundings::Sandbox, Some(names)) => {
            page.render_sandboxed(alloc, sink, around, names, None)
        }
        (Surroundings::Isolation, Some(names)) => {
            page.render_isolated(alloc, sink, around, names, None)
        }
        _ => Err(Error::Memory),
    }
}

/// Renders a page over open scopes, or in them with the names.
fn render_in<S, X, T, B>(
    alloc: Global,
    surroundings: Surroundings,
    page: &Template<X, T, B>,
    sink: &mut TextSink,
    scopes: &mut S,
) -> Result<(), Error>
where
    S: Scopes<Register = ()>,
    X: Filter,
    T: Discreet<()>,
    B: Discreet<()>,
    S::Store: PartialStore<X, T, B>,
    ensures { S.restores scopes.new ≡ S.restores scopes.old }
{
    match (surroundings, names(alloc)) {
        (Surroundings::Runtime, _) => page.render_in(alloc, sink, scopes),
        (Surroundings::Sandbox, Some(names)) => {
            page.render_sandboxed_in(alloc, sink, scopes, names, Some("page"))
        }
        (Surroundings::Isolation, Some(names)) => {
            page.render_isolated_in(alloc, sink, scopes, names, Some("page"))
        }
        _ => Err(Error::Memory),
    }
}

/// Returns `true` if a page is written over a runtime.
fn writes<X, T, B, R>(
    alloc: Global,
    surroundings: Surroundings,
    page: &Template<X, T, B>,
    around: Option<R>,
) -> bool
where
    X: Filter,
    T: Discreet<()>,
    B: Discreet<()>,
    R: Runtime<Register = ()> + Drop,
    R::Store: PartialStore<X, T, B>,
{
    match around {
        Some(mut around) => {
            let mut sink = TextSink::new(alloc);
            let answer = render(alloc, surroundings, page, &mut sink, &mut around);
            is_written(&sink, &answer)
        }
        None => false,
    }
}

/// Returns `true` if a page is written within limits.
fn writes_within<X, T, B, R>(
    alloc: Global,
    surroundings: Surroundings,
    page: &Template<X, T, B>,
    around: Option<R>,
) -> bool
where
    X: Filter,
    T: Discreet<()>,
    B: Discreet<()>,
    R: Runtime<Register = ()> + Drop,
    R::Store: PartialStore<X, T, B>,
{
    match around {
        Some(mut around) => {
            let mut sink = GatedSink::new(TextSink::new(alloc), Limits::new(9, 3));
            let answer = render_within(alloc, surroundings, page, &mut sink, &mut around);
            sink.gate().bytes_passed() == 3 && is_written(&sink.into_sink(), &answer)
        }
        None => false,
    }
}

/// Returns `true` if a page is written over scopes of one form.
fn writes_in<S, X, T, B>(
    alloc: Global,
    surroundings: Surroundings,
    page: &Template<X, T, B>,
    base: S::Base,
) -> bool
where
    S: Scopes<Register = ()>,
    S::Base: Drop,
    X: Filter,
    T: Discreet<()>,
    B: Discreet<()>,
    S::Store: PartialStore<X, T, B>,
{
    let mut scopes = S::new(alloc, base);
    let mut sink = TextSink::new(alloc);
    let answer = render_in(alloc, surroundings, page, &mut sink, &mut scopes);
    drop(scopes.into_base());
    is_written(&sink, &answer)
}

/// Returns `true` if a page is written over scopes of both forms, each over a runtime of its own.
fn writes_in_both<X, T, B, R>(
    alloc: Global,
    surroundings: Surroundings,
    page: &Template<X, T, B>,
    one: Option<R>,
    other: Option<R>,
) -> bool
where
    X: Filter,
    T: Discreet<()>,
    B: Discreet<()>,
    R: Runtime<Register = ()> + Drop,
    R::Store: PartialStore<X, T, B>,
{
    match one.zip(other) {
        Some((one, other)) => {
            writes_in::<ChainedScopes<R>, X, T, B>(alloc, surroundings, page, one)
                && writes_in::<FlatScopes<R>, X, T, B>(alloc, surroundings, page, other)
        }
        None => false,
    }
}

/// Returns `true` if `render` returns the text of a page.
fn returns_text<X, T, B, R>(alloc: Global, page: &Template<X, T, B>, around: Option<R>) -> bool
where
    X: Filter,
    T: Discreet<()>,
    B: Discreet<()>,
    R: Runtime<Register = ()> + Drop,
    R::Store: PartialStore<X, T, B>,
{
    match around {
        Some(mut around) => match page.render(alloc, &mut around) {
            Ok(text) => text.as_str() == WRITTEN,
            Err(_) => false,
        },
        None => false,
    }
}

/// Returns `true` if each call writes a page in some surroundings.
fn is_rendered_in<X, T, B>(
    alloc: Global,
    surroundings: Surroundings,
    page: &Template<X, T, B>,
) -> bool
where
    X: Filter,
    T: Discreet<()>,
    B: Discreet<()>,
{
    writes(alloc, surroundings, page, runtime(alloc))
        && writes_within(alloc, surroundings, page, runtime(alloc))
        && writes_in_both(alloc, surroundings, page, runtime(alloc), runtime(alloc))
}

/// Returns `true` if each call writes the page of a language.
fn is_rendered<F, T, B>(alloc: Global, language: Result<Language<F, T, B>, AllocError>) -> bool
where
    F: ParseFilter,
    T: ParseTag<F>,
    B: ParseBlock<F>,
    T::Node: Discreet<()>,
    B::Node: Discreet<()>,
{
    match language {
        Ok(language) => match page(alloc, &language, TEXT) {
            Some(page) => {
                returns_text(alloc, &page, runtime(alloc))
                    && is_rendered_in(alloc, Surroundings::Runtime, &page)
                    && is_rendered_in(alloc, Surroundings::Sandbox, &page)
                    && is_rendered_in(alloc, Surroundings::Isolation, &page)
            }
            None => false,
        },
        Err(_) => false,
    }
}

/// Returns `true` if each call writes the page of the language of the test plug-ins.
pub fn pages_are_rendered(alloc: Global) -> bool {
    is_rendered(alloc, language(alloc))
}
