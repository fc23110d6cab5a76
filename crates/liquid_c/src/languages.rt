//! The language of a page, and how it is rendered, by its options.
ghost use Rattle.std.specs.Prelude.{◌≡◌, if◌then◌else◌, IfOk};
ghost use Rattle.std.specs.FinMap.{empty};
ghost use Rattle.liquid_tags.specs.meaning.Languages.{meaning_of};
ghost use Rattle.liquid_std.specs.meaning.Languages.{meaning_of as standard_meaning};
ghost use Rattle.liquid_filters.specs.meaning.Registered.{standard_filters};
ghost use Rattle.jekyll_language.specs.meaning.Languages.{meaning_of as jekyll_meaning};
ghost use Rattle.jekyll_language.specs.meaning.Site as site;
ghost use Rattle.liquid_c.specs.meaning.Languages.{filter_made, plain_language, standard_language};
ghost use Rattle.liquid_c.specs.meaning.Options.{dialect_of, has_bit, leniency_of, limit_of, page_frame, page_options};
ghost use Rattle.liquid_c.specs.steps.Chosen.{IsChosen, IsChosenAt};

use crate::moments::{MomentFault, given_moment};
use crate::page::{DECIMALS, JEKYLL, LENIENT, NOW, Page, SANDBOXED, STANDARD};
use jekyll_language::{SiteLanguage, site_language};
use liquid_core::parser::{Language, PluginRegistry};
use liquid_dates::DateTime;
use liquid_filters::{FilterPlugin, StdKind, filters};
use liquid_pages::{Leniency, PageFrame, PageOptions};
use liquid_std::{StdBlocks, StdTags};
use liquid_tags::{Blocks, Tags};
use std::alloc::{AllocError, Global};
use std::rc::Rc;

/// The tags and blocks of `liquid_tags`, without filters.
pub(crate) type PlainLanguage = Language<FilterPlugin<StdKind>, Tags, Blocks>;

/// The standard tags, blocks and filters.
pub(crate) type StandardLanguage = Language<FilterPlugin<StdKind>, StdTags, StdBlocks>;

/// What templates are written in.
#[derive(Clone, Copy, Debug, PartialEq, Eq)]
pub enum Dialect {
    /// The tags and blocks of `liquid_tags`, without filters.
    Plain,
    /// Standard Liquid.
    Standard,
    /// Jekyll's language.
    Jekyll,
}

/// The language that the options of a page choose.
#[derive(Drop)]
pub(crate) enum Chosen {
    /// There are no such options.
    NoOptions,
    /// The moment of the page is none.
    NoMoment,
    /// Memory ran out.
    NoMemory,
    Plain(Rc<PlainLanguage>),
    Standard(Rc<StandardLanguage>),
    Jekyll(Rc<SiteLanguage>),
}

pub(crate) fn has_bit(options: u32, bit: u32) -> bool
    ensures { result ≡ has_bit options bit }
{
    options & bit != 0
}

/// Returns what templates of these options are written in.
fn dialect_of(options: u32) -> Dialect
    ensures { result ≡ dialect_of options }
{
    if has_bit(options, JEKYLL) {
        Dialect::Jekyll
    } else if has_bit(options, STANDARD) {
        Dialect::Standard
    } else {
        Dialect::Plain
    }
}

/// Returns where the globals of a page of these options are. In a sandbox, a template of the standard language or of
/// Jekyll's sees what it assigns, until the page ends.
fn page_frame(options: u32) -> PageFrame
    ensures { result ≡ page_frame (has_bit options 1) (dialect_of options) }
{
    match (has_bit(options, SANDBOXED), dialect_of(options)) {
        (false, _) => PageFrame::Open,
        (true, Dialect::Plain) => PageFrame::Sandboxed,
        (true, Dialect::Standard | Dialect::Jekyll) => PageFrame::Isolated,
    }
}

/// Returns which names and indexes without a value are nil in a page of these options. In Jekyll's language all are.
fn leniency_of(options: u32) -> Leniency
    ensures { result ≡ leniency_of options }
{
    if has_bit(options, JEKYLL) {
        Leniency::Indexes
    } else {
        Leniency::of_paths(has_bit(options, LENIENT))
    }
}

/// Returns the limit of this number, if it is one.
fn limit_of(number: u64) -> Option<u64>
    ensures { result ≡ limit_of number }
{
    if number == 0 { None } else { Some(number) }
}

/// Returns how a page of these options is rendered.
pub(crate) fn page_options(page: &Page<'_>) -> PageOptions
    ensures { result ≡ page_options page.now }
{
    PageOptions {
        frame: page_frame(page.options),
        decimals: has_bit(page.options, DECIMALS),
        leniency: leniency_of(page.options),
        max_turns: limit_of(page.max_turns),
        max_bytes: limit_of(page.max_bytes),
    }
}

/// Returns the language of `liquid_tags`, without filters.
fn plain_language(alloc: Global) -> Result<Rc<PlainLanguage>, AllocError>
    ensures { IfOk result (λ language. meaning_of filter_made language.value ≡ plain_language) }
{
    let language = liquid_tags::language(alloc, PluginRegistry::new(alloc))?;
    Ok(Rc::new(alloc, language)?)
}

/// Returns the standard language, in which `now` and `today` are this moment, if there is one.
fn standard_language(
    alloc: Global,
    now: Option<DateTime>,
) -> Result<Rc<StandardLanguage>, AllocError>
    ensures { IfOk result (λ language. standard_meaning filter_made language.value ≡ standard_language now) }
{
    let language = liquid_std::language(alloc, filters(alloc, now)?)?;
    Ok(Rc::new(alloc, language)?)
}

/// Returns Jekyll's language, in which `now` and `today` are this moment, if there is one.
fn jekyll_language(alloc: Global, now: Option<DateTime>) -> Result<Rc<SiteLanguage>, AllocError>
    ensures { IfOk result (λ language. jekyll_meaning site.filter_made language.value ≡ site.site_language now) }
{
    Ok(Rc::new(alloc, site_language(alloc, now)?)?)
}

/// Returns the language that the options of a page choose, if there are such options and its moment is one.
pub(crate) fn choose_language(alloc: Global, page: &Page<'_>) -> Chosen
    ensures { IsChosen page.now result }
{
    if JEKYLL * 2 <= page.options {
        return Chosen::NoOptions;
    }
    match given_moment(alloc, page) {
        Ok(now) => language_at(alloc, dialect_of(page.options), now),
        Err(MomentFault::NoMoment) => Chosen::NoMoment,
        Err(MomentFault::NoMemory) => Chosen::NoMemory,
    }
}

/// Returns the language of a dialect with this moment, if there is memory for it.
fn language_at(alloc: Global, dialect: Dialect, now: Option<DateTime>) -> Chosen
    ensures { IsChosenAt now dialect result }
{
    match dialect {
        Dialect::Plain => match plain_language(alloc) {
            Ok(language) => Chosen::Plain(language),
            Err(_) => Chosen::NoMemory,
        },
        Dialect::Standard => match standard_language(alloc, now) {
            Ok(language) => Chosen::Standard(language),
            Err(_) => Chosen::NoMemory,
        },
        Dialect::Jekyll => match jekyll_language(alloc, now) {
            Ok(language) => Chosen::Jekyll(language),
            Err(_) => Chosen::NoMemory,
        },
    }
}
