//! The commands `liquid page` and `liquid check`, in standard Liquid over the machine's files and streams.

use crate::watch::watch;
use filter_dates::moment_of;
use jekyll_language::{SiteBlocks, SiteFilters, SiteTags, site_language};
use liquid_core::partials::InMemorySource;
use liquid_core::{Discreet, Error, Language, ParseBlock, ParseFilter, ParseTag, Value};
use liquid_dates::DateTime;
use liquid_files::Machine;
use liquid_filters::{FilterPlugin, StdKind, filters};
use liquid_page::{
    AsItIs, Explain, FromJekyll, NoRequest, Outcome, Request, Rewrite, Task, check_pages,
    read_words, run_page,
};
use liquid_pages::{PageFrame, PageLimit, PageOptions};
use liquid_program::command::Options;
use liquid_program::explain::{Explained, explain_page};
use liquid_program::rendering::StandardLanguage;
use liquid_scalar::Scalar;
use liquid_std::marks::Marks;
use liquid_std::{StdBlocks, StdTags};
use page_site::{Partials, Source};
use std::alloc::{AllocError, Global};
use std::io::{self, IsTerminal};
use std::rc::Rc;
use std::time::Instant;

/// Explains errors as `liquid render --explain` does.
#[derive(Drop)]
struct StandardNotes {
    options: Options,
}

impl StandardNotes {
    /// Returns what explains the errors of pages with these options.
    fn new(options: PageOptions) -> StandardNotes {
        StandardNotes {
            options: Options {
                standard: true,
                sandboxed: options.frame != PageFrame::Open,
                lenient: options.leniency.is_lenient(),
                decimals: true,
                explain: true,
                max_turns: options.max_turns,
                max_bytes: options.max_bytes,
            },
        }
    }
}

impl Explain for StandardNotes {
    fn explain(
        &self,
        alloc: Global,
        source: Source<'_>,
        partials: &Partials,
        stopped_by: Option<PageLimit>,
        error: &Error,
    ) -> Result<String, AllocError> {
        let partials = copy_partials(alloc, partials)?;
        let page = Explained {
            path: source.path,
            text: source.text,
            lines_before: source.lines_before,
            partials: &partials,
            stopped_by,
        };
        let mut text = explain_page(alloc, self.options, page, error)?;
        if is_missing(text.as_str()) {
            text.push_str("  with --lenient a missing name is nil\n")?;
        }
        Ok(text)
    }
}

/// Returns `true` if a text explains a missing name.
fn is_missing(text: &str) -> bool {
    text.starts_with("liquid: Unknown variable") || text.starts_with("liquid: Unknown index")
}

/// Returns a copy of the partials, for the explanation of an error.
fn copy_partials(alloc: Global, partials: &Partials) -> Result<InMemorySource, AllocError> {
    let mut copy = InMemorySource::new(alloc);
    for (name, text) in partials {
        copy.add(name.clone()?, text.clone()?)?;
    }
    Ok(copy)
}

/// Why no page is begun.
#[derive(Drop)]
enum Refusal {
    Memory,
    /// The word for the moment, which is not a date.
    NoMoment,
}

impl From<AllocError> for Refusal {
    fn from(_refused: AllocError) -> Refusal {
        Refusal::Memory
    }
}

impl<T: Drop> From<std::alloc::AllocFailed<T>> for Refusal {
    fn from(_refused: std::alloc::AllocFailed<T>) -> Refusal {
        Refusal::Memory
    }
}

/// Returns the moment that a word means.
fn moment_in(alloc: Global, word: Option<&str>) -> Result<Option<DateTime>, Refusal> {
    let Some(word) = word else {
        return Ok(None);
    };
    let value = Value::Scalar(Scalar::Str(String::from_str(alloc, word)?));
    match moment_of(alloc, &value, None)? {
        Some(moment) => Ok(Some(moment)),
        None => Err(Refusal::NoMoment),
    }
}

/// Returns standard Liquid, whose `date` reads `now` and `today` as the moment.
fn standard_language(
    alloc: Global,
    moment: Option<DateTime>,
) -> Result<Rc<StandardLanguage>, AllocError> {
    let language = liquid_std::language(alloc, filters(alloc, moment)?)?;
    Ok(Rc::new(alloc, language)?)
}

/// Runs the words after `page` or `check`, and returns the exit status.
pub(crate) fn serve(rt: &HostRuntime, task: Task, words: &[String]) -> u8 {
    match read_words(rt.alloc(), task, words) {
        Ok(request) => match serve_request(rt, task, &request) {
            Ok(status) => status,
            Err(Refusal::NoMoment) => {
                let word = request.moment.unwrap_or("");
                let _ = rt.eprint(format_args!("liquid: --now {word}: not a date\n"));
                2
            }
            Err(Refusal::Memory) => out_of_memory(rt),
        },
        Err(NoRequest::Help(text)) => match rt.print(format_args!("{text}")) {
            Ok(()) => 0,
            Err(_) => 1,
        },
        Err(NoRequest::Wrong(text)) => {
            let _ = rt.eprint(format_args!("{text}"));
            2
        }
        Err(NoRequest::Memory) => out_of_memory(rt),
    }
}

/// Does what a request asks for, in standard Liquid or in Jekyll's language.
fn serve_request(rt: &HostRuntime, task: Task, request: &Request<'_>) -> Result<u8, Refusal> {
    let moment = moment_in(rt.alloc(), request.moment)?;
    if request.is_jekyll {
        let language = Rc::new(rt.alloc(), site_language(rt.alloc(), moment)?)?;
        Ok(perform::<FromJekyll, SiteFilters, SiteTags, SiteBlocks>(rt, task, request, language))
    } else {
        let language = standard_language(rt.alloc(), moment)?;
        Ok(perform::<AsItIs, FilterPlugin<StdKind>, StdTags, StdBlocks>(
            rt, task, request, language,
        ))
    }
}

/// Does what a request asks for in a language, with each text read as `R` says.
fn perform<R, F, T, B>(
    rt: &HostRuntime,
    task: Task,
    request: &Request<'_>,
    language: Rc<Language<F, T, B>>,
) -> u8
where
    R: Rewrite,
    F: ParseFilter,
    T: ParseTag<F>,
    B: ParseBlock<F>,
    T::Node: Discreet<Marks>,
    B::Node: Discreet<Marks>,
{
    match task {
        Task::Check => check::<R, F, T, B>(rt, request, &language),
        Task::Page => if request.is_watched {
            watch::<R, F, T, B>(rt, request, &language)
        } else {
            make_pages::<R, F, T, B>(rt, request, language)
        },
    }
}

/// Checks the templates of a request.
fn check<R, F, T, B>(rt: &HostRuntime, request: &Request<'_>, language: &Language<F, T, B>) -> u8
where
    R: Rewrite,
    F: ParseFilter,
    T: ParseTag<F>,
    B: ParseBlock<F>,
{
    let errors = rt.stderr();
    let mut err = io::writer(&errors);
    let mut files = Machine {
        rt,
        is_watched: false,
    };
    check_pages::<R, F, T, B, StandardNotes, Machine<'_, HostRuntime>, _>(
        rt.alloc(),
        language,
        &StandardNotes::new(request.options),
        request,
        &mut files,
        &mut err,
    )
}

pub(crate) fn out_of_memory(rt: &HostRuntime) -> u8 {
    let _ = rt.eprint(format_args!("liquid: out of memory\n"));
    1
}

/// Makes the pages of a request, and says how many files were written.
pub(crate) fn make_pages<R, F, T, B>(
    rt: &HostRuntime,
    request: &Request<'_>,
    language: Rc<Language<F, T, B>>,
) -> u8
where
    R: Rewrite,
    F: ParseFilter,
    T: ParseTag<F>,
    B: ParseBlock<F>,
    T::Node: Discreet<Marks>,
    B::Node: Discreet<Marks>,
{
    let started = Instant::now(rt);
    let outcome = write_pages::<R, F, T, B>(rt, request, language);
    if request.output.is_some() && outcome.tally.count > 0 {
        let seconds = match started {
            Ok(started) => started.elapsed(rt).map_or(0.0, |taken| taken.as_secs_f64()),
            Err(_) => 0.0,
        };
        summarize(rt, outcome, seconds);
    }
    outcome.status
}

/// Makes the pages over the machine's files.
fn write_pages<R, F, T, B>(
    rt: &HostRuntime,
    request: &Request<'_>,
    language: Rc<Language<F, T, B>>,
) -> Outcome
where
    R: Rewrite,
    F: ParseFilter,
    T: ParseTag<F>,
    B: ParseBlock<F>,
    T::Node: Discreet<Marks>,
    B::Node: Discreet<Marks>,
{
    let output = rt.stdout();
    let mut out = io::writer(&output);
    let errors = rt.stderr();
    let mut err = io::writer(&errors);
    let is_watched = errors.is_terminal() && request.output.is_some();
    let mut files = Machine { rt, is_watched };
    run_page::<Marks, R, F, T, B, StandardNotes, Machine<'_, HostRuntime>, _, _>(
        rt.alloc(),
        language,
        StandardNotes::new(request.options),
        request,
        &mut files,
        &mut out,
        &mut err,
    )
}

/// Says what was written.
fn summarize(rt: &HostRuntime, outcome: Outcome, seconds: f64) {
    let tally = outcome.tally;
    let files = if tally.written == 1 { "file" } else { "files" };
    let _ = rt.print(format_args!(
        "liquid: {} {files}, {} bytes, {seconds:.2} seconds\n",
        tally.written, tally.bytes,
    ));
}
