//! Rendering pages into the caller's memory.
ghost use Rattle.std.specs.Prelude.{◌≡◌, ◌≤◌, ◌++◌, if◌then◌else◌, length, min, nat_le, take, drop, IfSome, MatchOption, None, Some};
ghost use Rattle.liquid_error.specs.meaning.Told.{told};
ghost use Rattle.liquid_parser.specs.meaning.Plugins.{language_of};
ghost use Rattle.liquid_std.specs.meaning.marks.Held.{marks_alone};
ghost use Rattle.liquid_std.specs.meaning.marks.Marks.{no_marks};
ghost use Rattle.jekyll_language.specs.meaning.Languages.{meaning_of as jekyll_meaning};
ghost use Rattle.jekyll_language.specs.meaning.Rendered.{jekyll};
ghost use Rattle.jekyll_language.specs.meaning.Site as site;
ghost use Rattle.liquid_template.specs.meaning.Runs.{setting};
ghost use Rattle.liquid_pages.specs.meaning.Faults.{fault_told};
ghost use Rattle.liquid_pages.specs.meaning.FaultText.{page_fault_text};
ghost use Rattle.liquid_pages.specs.meaning.Shown.{Page as Shown, IsShown};
ghost use Rattle.liquid_c.specs.meaning.Outcomes.{
  IsLimited,
  IsPlaced,
  IsSaid,
  IsUnnamed,
  IsWhere,
  IsWhich,
  Leaves,
  LeavesAsked,
  OutOfMemory,
  kind_of,
  outcome_alone,
  without_moment,
};
ghost use Rattle.liquid_c.specs.steps.Prepared.{AskedComesTo, JekyllComesTo};

use crate::jekyll::{lend_partials, read_texts};
use crate::languages::{Chosen, choose_language, page_options};
use crate::page::{
    BYTES, EMPTY, GLOBALS, Outcome, PARTIAL_NAME, PARTIAL_TEXT, Page, TEMPLATE, TURNS,
};
use crate::places::locate;
use jekyll_language::{SiteBlocks, SiteFilters, SiteLanguage, SiteTags};
use liquid_core::parser::{Discreet, Language, ParseBlock, ParseFilter, ParseTag};
use liquid_core::{Error, Fresh, Place};
use liquid_pages::{PageFault, PageLimit, PageText, Rendered, render_page};
use liquid_std::marks::Marks;
use std::alloc::Global;
use std::rc::Rc;

/// The kinds of an outcome that no fault has.
pub(crate) const NO_MEMORY: u32 = 6;

const SHORT: u32 = 7;

pub(crate) const NO_OPTIONS: u32 = 8;

const NO_MOMENT: u32 = 9;

const NO_MOMENT_TEXT: &str = "liquid: now is not a date or a date time\n";

/// Renders a page into `out`, in the language that its options choose, and writes the text of its error to `message`.
pub fn render(alloc: Global, page: &Page<'_>, out: &mut [u8], message: &mut [u8]) -> Outcome
    ensures { LeavesAsked page.now out.old out.new result }
{
    match choose_language(alloc, page) {
        Chosen::NoOptions => refusal(NO_OPTIONS),
        Chosen::NoMoment => refuse_moment(message),
        Chosen::NoMemory => refusal(NO_MEMORY),
        Chosen::Plain(language) => render_in::<(), _, _, _>(alloc, &language, page, out, message),
        Chosen::Standard(language) => {
            render_in::<Marks, _, _, _>(alloc, &language, page, out, message)
        }
        Chosen::Jekyll(language) => render_jekyll(alloc, &language, page, out, message),
    }
}

/// Renders a page whose texts are as Jekyll's authors write them.
fn render_jekyll(
    alloc: Global,
    language: &Rc<SiteLanguage>,
    page: &Page<'_>,
    out: &mut [u8],
    message: &mut [u8],
) -> Outcome
    ensures { (shown : Shown) → JekyllComesTo (jekyll marks_alone no_marks site.filter_calls)
        (jekyll_meaning site.filter_made language.now.value) page.now page.now.globals.now shown
        → Leaves shown out.old out.new result }
{
    let Ok(texts) = read_texts(alloc, page) else {
        return refusal(NO_MEMORY);
    };
    let Ok(partials) = lend_partials(alloc, texts.partials.as_slice()) else {
        return refusal(NO_MEMORY);
    };
    let read = Page {
        text: texts.text.as_slice(),
        partials: partials.as_slice(),
        ..*page
    };
    render_in::<Marks, SiteFilters, SiteTags, SiteBlocks>(alloc, language, &read, out, message)
}

/// Returns the outcome of a page of which nothing was rendered, for this reason.
pub(crate) fn refusal(kind: u32) -> Outcome
    ensures { result ≡ outcome_alone kind }
{
    Outcome { kind, ..EMPTY }
}

/// Returns the outcome of a page whose moment is none, of which nothing was rendered, and writes the text of the error.
pub(crate) fn refuse_moment(message: &mut [u8]) -> Outcome
    ensures { result ≡ without_moment }
{
    copy_front(NO_MOMENT_TEXT.as_bytes(), message);
    Outcome {
        kind: NO_MOMENT,
        message_len: NO_MOMENT_TEXT.len(),
        ..EMPTY
    }
}

/// Renders a page in this language, over a runtime with a register of type `V`.
fn render_in<V, F, T, B>(
    alloc: Global,
    language: &Rc<Language<F, T, B>>,
    page: &Page<'_>,
    out: &mut [u8],
    message: &mut [u8],
) -> Outcome
where
    V: Fresh,
    F: ParseFilter,
    T: ParseTag<F>,
    B: ParseBlock<F>,
    T::Node: Discreet<V>,
    B::Node: Discreet<V>,
    ensures { (shown : Shown) → AskedComesTo
        (setting V.fresh F.Filter.means T.Node.means B.Node.means)
        (language_of F.makes T.gives B.block language.now.value) page.now page.now.globals.now shown
        → Leaves shown out.old out.new result }
{
    let options = page_options(page);
    let rendered = render_page::<V, F, T, B>(
        alloc,
        language,
        options,
        page.text,
        page.globals,
        page.partials,
    );
    finish(alloc, page, &rendered, out, message)
}

/// Hands out what was rendered of a page, and returns how it ended.
pub(crate) fn finish(
    alloc: Global,
    asked: &Page<'_>,
    rendered: &Rendered,
    out: &mut [u8],
    message: &mut [u8],
) -> Outcome
    ensures leaves { (page : Shown) → IsShown page rendered.now → Leaves page out.old out.new result }
    ensures room { result.written ≤ length out.old }
    ensures size { length out.new ≡ length out.old }
{
    let bytes = rendered.output.as_bytes();
    let needed = bytes.len();
    let room = out.len();
    let written = copy_front(bytes, out);
    match &rendered.end {
        Ok(()) => Outcome {
            kind: whole_kind(needed, room),
            needed,
            written,
            ..EMPTY
        },
        Err(fault) => {
            let message_len = write_message(alloc, fault, message);
            Outcome {
                needed,
                written,
                message_len,
                ..outcome_of(fault, rendered.stopped_by, asked)
            }
        }
    }
}

/// Returns the kind of a page that was rendered to its end: whether it fits into so much room.
fn whole_kind(needed: usize, room: usize) -> u32
    ensures { result ≡ (if nat_le needed room then 0 else 7) }
{
    if needed <= room { 0 } else { SHORT }
}

/// Returns the outcome of a fault of a page, which this limit stopped, if one did: its kind and where it is.
fn outcome_of(fault: &PageFault, stopped_by: Option<PageLimit>, asked: &Page<'_>) -> Outcome
    ensures { MatchOption (fault_told fault.now) (OutOfMemory result)
        (λ f. (result.kind ≡ kind_of f) × (IsWhere f result × IsLimited f result)) }
{
    match fault {
        PageFault::Unparsed(error) => outcome_of_unparsed(error),
        PageFault::Refused(error) => outcome_of_refused(error, stopped_by, asked),
        PageFault::BadJson(error) => Outcome {
            kind: 3,
            which: GLOBALS,
            line: error.line(),
            column: error.column(),
            ..EMPTY
        },
        PageFault::NoGlobals(error) => outcome_of_globals(error),
        PageFault::NoText(text) => outcome_of_text(*text),
    }
}

/// Returns the outcome of a template that can't be read. Out of memory is a kind of its own.
fn outcome_of_unparsed(error: &Error) -> Outcome
    ensures { MatchOption (told error.now) (OutOfMemory result)
        (λ r. (result.kind ≡ 1) × ((IsPlaced r.place result × IsUnnamed result) × (result.limit ≡ 0))) }
{
    if error.is_memory() {
        return Outcome {
            kind: NO_MEMORY,
            ..EMPTY
        };
    }
    match error.place() {
        Some(Place { line, column }) => Outcome {
            kind: 1,
            line,
            column,
            ..EMPTY
        },
        None => Outcome { kind: 1, ..EMPTY },
    }
}

/// Returns the outcome of an error of rendering. The place that reading a partial found is that of the error.
fn outcome_of_refused(error: &Error, stopped_by: Option<PageLimit>, asked: &Page<'_>) -> Outcome
    ensures { MatchOption (told error.now) (OutOfMemory result)
        (λ r. (result.kind ≡ 2) × (IfSome r.place (λ place. IsPlaced (Some place) result) × (result.limit ≤ 2))) }
{
    if error.is_memory() {
        return Outcome {
            kind: NO_MEMORY,
            ..EMPTY
        };
    }
    let refused = Outcome {
        kind: 2,
        limit: number_of(stopped_by),
        ..EMPTY
    };
    let located = locate(error, asked, refused);
    match error.place() {
        Some(Place { line, column }) => Outcome {
            line,
            column,
            ..located
        },
        None => located,
    }
}

/// Returns the number of a limit, or 0.
fn number_of(limit: Option<PageLimit>) -> u32
    ensures { result ≤ 2 }
{
    match limit {
        None => 0,
        Some(PageLimit::Turns) => TURNS,
        Some(PageLimit::Bytes) => BYTES,
    }
}

/// Returns the outcome of JSON that is not an object of values, which has no place.
fn outcome_of_globals(error: &Error) -> Outcome
    ensures { MatchOption (told error.now) (OutOfMemory result)
        (λ r. (result.kind ≡ 4) × ((IsPlaced None result × IsUnnamed result) × (result.limit ≡ 0))) }
{
    if error.is_memory() {
        return Outcome {
            kind: NO_MEMORY,
            ..EMPTY
        };
    }
    Outcome { kind: 4, ..EMPTY }
}

/// Returns the outcome of a text that is not UTF-8.
fn outcome_of_text(text: PageText) -> Outcome
    ensures kind { result.kind ≡ 5 }
    ensures which { IsWhich text result }
    ensures place { IsPlaced None result }
    ensures limit { result.limit ≡ 0 }
{
    let (which, partial) = match text {
        PageText::Template => (TEMPLATE, 0),
        PageText::Globals => (GLOBALS, 0),
        PageText::PartialName(place) => (PARTIAL_NAME, place),
        PageText::PartialText(place) => (PARTIAL_TEXT, place),
    };
    Outcome {
        kind: 5,
        which,
        partial,
        ..EMPTY
    }
}

/// Writes the text of a fault, and returns how many bytes it has; 0 if there is no memory for it.
fn write_message(alloc: Global, fault: &PageFault, message: &mut [u8]) -> usize
    ensures { IsSaid (page_fault_text fault.now) result }
{
    match fault.to_string(alloc) {
        Ok(text) => {
            copy_front(text.as_bytes(), message);
            text.len()
        }
        Err(_) => 0,
    }
}

/// Copies the first bytes of `from`, as many as `to` has room for, and returns how many.
fn copy_front(from: &[u8], to: &mut [u8]) -> usize
    ensures count { result ≡ min (length from.now) (length to.old) }
    ensures copied { to.new ≡ take result from.now ++ drop result to.old }
{
    let count = if from.len() < to.len() {
        from.len()
    } else {
        to.len()
    };
    let (front, _) = to.split_at_mut(count);
    front.copy_from_slice(&from[..count]);
    count
}
