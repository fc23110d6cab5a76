//! Rendering a text as the program does.
ghost use Rattle.std.specs.Prelude.{◌≡◌, IfOk, true, false};
ghost use Rattle.liquid_runtime.specs.meaning.Maps.{names_of};
ghost use Rattle.liquid_template.specs.meaning.Grows.{Grows};
ghost use Rattle.liquid_tags.specs.meaning.Languages.{meaning_of as plain_meaning};
ghost use Rattle.liquid_std.specs.meaning.Languages.{meaning_of as standard_meaning};
ghost use Rattle.liquid_program.specs.meaning.Program.{limit_of, page_frame, page_options, Renders, RendersIn};
ghost use Rattle.liquid_program.specs.meaning.ProgramLanguage.{plain_language, plain_made, standard_language, standard_made};

use crate::command::Options;
use crate::filters::{PlainFilters, plain_filters};
use liquid_core::parser::Language;
use liquid_core::partials::InMemorySource;
use liquid_core::{Error, Object, Sink};
use liquid_filters::{FilterPlugin, StdKind, filters};
use liquid_pages::{Leniency, PageFrame, PageLimit, PageOptions, render_text};
use liquid_std::marks::Marks;
use liquid_std::{StdBlocks, StdTags};
use liquid_tags::{Blocks, Tags};
use std::alloc::{AllocError, Global};
use std::rc::Rc;

/// The tag library with `append` and `fail`.
pub(crate) type PlainLanguage = Language<PlainFilters, Tags, Blocks>;

/// Standard Liquid.
pub type StandardLanguage = Language<FilterPlugin<StdKind>, StdTags, StdBlocks>;

/// Renders the text over these globals and these partials, with these options, and writes the result. `stopped_by` gets the
/// limit that stopped it, if one did.
pub fn render_over<K: Sink>(
    alloc: Global,
    options: Options,
    text: &str,
    globals: Object,
    partials: Option<InMemorySource>,
    sink: &mut K,
    stopped_by: &mut Option<PageLimit>,
) -> Result<(), Error>
    ensures renders { Renders options text.now (names_of globals) partials
        (K.sunk sink.old) (K.sunk sink.new) result }
    ensures destination { Grows (K.sunk sink.old) (K.sunk sink.new) }
    ensures borrows { (K.sunk sink.new).lent ≡ (K.sunk sink.old).lent }
{
    let page = page_options(options);
    if options.standard {
        render_standard(alloc, page, text, globals, partials, sink, stopped_by)
    } else {
        render_plain(alloc, page, text, globals, partials, sink, stopped_by)
    }
}

/// Renders the text in the tag library with `append` and `fail`.
#[tactic(auto, using(crate::proofs::UntouchedSinks::untouched))]
fn render_plain<K: Sink>(
    alloc: Global,
    page: PageOptions,
    text: &str,
    globals: Object,
    partials: Option<InMemorySource>,
    sink: &mut K,
    stopped_by: &mut Option<PageLimit>,
) -> Result<(), Error>
    ensures renders { RendersIn false page text.now (names_of globals) partials
        (K.sunk sink.old) (K.sunk sink.new) result }
    ensures destination { Grows (K.sunk sink.old) (K.sunk sink.new) }
    ensures borrows { (K.sunk sink.new).lent ≡ (K.sunk sink.old).lent }
{
    match plain_language(alloc) {
        Ok(language) => render_text::<(), PlainFilters, Tags, Blocks, InMemorySource, K>(
            alloc, page, text, &language, globals, partials, sink, stopped_by,
        ),
        Err(_) => Err(Error::Memory),
    }
}

/// Renders the text in standard Liquid.
#[tactic(auto, using(crate::proofs::UntouchedSinks::untouched))]
fn render_standard<K: Sink>(
    alloc: Global,
    page: PageOptions,
    text: &str,
    globals: Object,
    partials: Option<InMemorySource>,
    sink: &mut K,
    stopped_by: &mut Option<PageLimit>,
) -> Result<(), Error>
    ensures renders { RendersIn true page text.now (names_of globals) partials
        (K.sunk sink.old) (K.sunk sink.new) result }
    ensures destination { Grows (K.sunk sink.old) (K.sunk sink.new) }
    ensures borrows { (K.sunk sink.new).lent ≡ (K.sunk sink.old).lent }
{
    match standard_language(alloc) {
        Ok(language) => render_text::<
            Marks,
            FilterPlugin<StdKind>,
            StdTags,
            StdBlocks,
            InMemorySource,
            K,
        >(
            alloc, page, text, &language, globals, partials, sink, stopped_by,
        ),
        Err(_) => Err(Error::Memory),
    }
}

pub(crate) fn plain_language(alloc: Global) -> Result<Rc<PlainLanguage>, AllocError>
    ensures { IfOk result (λ language. plain_meaning plain_made language.value ≡ plain_language) }
{
    let language = liquid_tags::language(alloc, plain_filters(alloc)?)?;
    Ok(Rc::new(alloc, language)?)
}

/// Returns standard Liquid.
pub fn standard_language(alloc: Global) -> Result<Rc<StandardLanguage>, AllocError>
    ensures { IfOk result (λ language. standard_meaning standard_made language.value ≡ standard_language) }
{
    let language = liquid_std::language(alloc, filters(alloc, None)?)?;
    Ok(Rc::new(alloc, language)?)
}

/// Returns where the globals of a page are.
fn page_frame(standard: bool, sandboxed: bool) -> PageFrame
    ensures { result ≡ page_frame standard sandboxed }
{
    match (standard, sandboxed) {
        (_, false) => PageFrame::Open,
        (false, true) => PageFrame::Sandboxed,
        (true, true) => PageFrame::Isolated,
    }
}

/// Returns the limit of this number, which is none if it is 0.
fn limit_of(number: Option<u64>) -> Option<u64>
    ensures { result ≡ limit_of number }
{
    match number {
        Some(number) => if number == 0 { None } else { Some(number) },
        None => None,
    }
}

/// Returns the options of the page.
fn page_options(options: Options) -> PageOptions
    ensures { result ≡ page_options options }
{
    let Options {
        standard,
        sandboxed,
        lenient,
        decimals,
        max_turns,
        max_bytes,
        ..
    } = options;
    PageOptions {
        frame: page_frame(standard, sandboxed),
        decimals,
        leniency: Leniency::of_paths(lenient),
        max_turns: limit_of(max_turns),
        max_bytes: limit_of(max_bytes),
    }
}
