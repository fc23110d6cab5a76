//! Many pages of one template, rendered one after another into the caller's memory.
ghost use Rattle.std.specs.Prelude.{◌≡◌, ◌≤◌, ◌+◌, ℕ, List, length, min, take, drop};
ghost use Rattle.liquid_parser.specs.meaning.Plugins.{language_of};
ghost use Rattle.liquid_std.specs.meaning.marks.Held.{marks_alone};
ghost use Rattle.liquid_std.specs.meaning.marks.Marks.{no_marks};
ghost use Rattle.jekyll_language.specs.meaning.Languages.{meaning_of as jekyll_meaning};
ghost use Rattle.jekyll_language.specs.meaning.Rendered.{jekyll};
ghost use Rattle.jekyll_language.specs.meaning.Site as site;
ghost use Rattle.liquid_template.specs.meaning.Runs.{setting};
ghost use Rattle.liquid_pages.specs.meaning.Shown.{Page as Shown, IsShown};
ghost use Rattle.liquid_c.specs.meaning.Outcomes.{Leaves, LeavesOver};
ghost use Rattle.liquid_c.specs.meaning.Turns.{TurnsOver, one_if_whole};
ghost use Rattle.liquid_c.specs.steps.Chosen.{IsRefused};
ghost use Rattle.liquid_c.specs.steps.Prepared.{AskedComesTo, JekyllComesTo, LeavesOf};

use crate::jekyll::{lend_partials, read_texts};
use crate::languages::{Chosen, choose_language, page_options};
use crate::page::{Outcome, Page};
use crate::rendering::{NO_MEMORY, NO_OPTIONS, finish, refusal, refuse_moment};
use crate::repeated::RenderOver;
use jekyll_language::{SiteBlocks, SiteFilters, SiteLanguage, SiteTags};
use liquid_core::Fresh;
use liquid_core::parser::{Discreet, Language, ParseBlock, ParseFilter, ParseTag};
use liquid_pages::{PageOptions, Rendered, prepare_page};
use liquid_std::marks::Marks;
use std::alloc::Global;
use std::rc::Rc;

/// Renders a page over each of these globals, as far as there are outcomes, each into the bytes of `out` that
/// the pages before it left, and returns how many are whole. `message` has the text of the last error.
///
/// The template and the partials are read once.
pub fn render_each(
    alloc: Global,
    page: &Page<'_>,
    globals: &[&[u8]],
    out: &mut [u8],
    message: &mut [u8],
    outcomes: &mut [Outcome],
) -> usize
    ensures { TurnsOver (LeavesOver page.now) globals.now out.old out.new outcomes.old outcomes.new result }
{
    match choose_language(alloc, page) {
        Chosen::NoOptions => refuse_each(refusal(NO_OPTIONS), globals, outcomes),
        Chosen::NoMoment => refuse_each(refuse_moment(message), globals, outcomes),
        Chosen::NoMemory => refuse_each(refusal(NO_MEMORY), globals, outcomes),
        Chosen::Plain(language) => render_each_in::<(), _, _, _>(
            alloc, &language, page, globals, out, message, outcomes,
        ),
        Chosen::Standard(language) => render_each_in::<Marks, _, _, _>(
            alloc, &language, page, globals, out, message, outcomes,
        ),
        Chosen::Jekyll(language) => render_each_jekyll(
            alloc, &language, page, globals, out, message, outcomes,
        ),
    }
}

/// Renders a page whose texts are as Jekyll's authors write them, over each of these globals.
fn render_each_jekyll(
    alloc: Global,
    language: &Rc<SiteLanguage>,
    page: &Page<'_>,
    globals: &[&[u8]],
    out: &mut [u8],
    message: &mut [u8],
    outcomes: &mut [Outcome],
) -> usize
    ensures { TurnsOver (LeavesOf (JekyllComesTo (jekyll marks_alone no_marks site.filter_calls)
        (jekyll_meaning site.filter_made language.now.value) page.now))
        globals.now out.old out.new outcomes.old outcomes.new result }
{
    let Ok(texts) = read_texts(alloc, page) else {
        return refuse_each(refusal(NO_MEMORY), globals, outcomes);
    };
    let Ok(partials) = lend_partials(alloc, texts.partials.as_slice()) else {
        return refuse_each(refusal(NO_MEMORY), globals, outcomes);
    };
    let read = Page {
        text: texts.text.as_slice(),
        partials: partials.as_slice(),
        ..*page
    };
    render_each_in::<Marks, SiteFilters, SiteTags, SiteBlocks>(
        alloc, language, &read, globals, out, message, outcomes,
    )
}

/// Renders a page in this language over each of these globals, with a register of type `V`.
fn render_each_in<V, F, T, B>(
    alloc: Global,
    language: &Rc<Language<F, T, B>>,
    page: &Page<'_>,
    globals: &[&[u8]],
    out: &mut [u8],
    message: &mut [u8],
    outcomes: &mut [Outcome],
) -> usize
where
    V: Fresh,
    F: ParseFilter,
    T: ParseTag<F>,
    B: ParseBlock<F>,
    T::Node: Discreet<V>,
    B::Node: Discreet<V>,
    ensures { TurnsOver (LeavesOf (AskedComesTo
        (setting V.fresh F.Filter.means T.Node.means B.Node.means)
        (language_of F.makes T.gives B.block language.now.value) page.now))
        globals.now out.old out.new outcomes.old outcomes.new result }
{
    let options = page_options(page);
    let mut prepared = prepare_page(alloc, language, page.text, page.partials);
    render_turns::<V, _>(
        alloc,
        page,
        &mut prepared,
        options,
        globals,
        out,
        message,
        outcomes,
    )
}

/// Renders a page that was read over each of these globals.
fn render_turns<V, R: RenderOver<V>>(
    alloc: Global,
    asked: &Page<'_>,
    page: &mut R,
    options: PageOptions,
    globals: &[&[u8]],
    out: &mut [u8],
    message: &mut [u8],
    outcomes: &mut [Outcome],
) -> usize
    ensures { TurnsOver (LeavesOf (R.comes page.old options)) globals.now out.old out.new outcomes.old outcomes.new result }
{
    let count = fewer(globals.len(), outcomes.len());
    let mut used: usize = 0;
    let mut whole: usize = 0;
    for place in 0..count {
        let rendered = page.render_over(alloc, options, globals[place]);
        let outcome = finish_turn(alloc, asked, &rendered, used, out, message);
        used += outcome.written;
        whole += one_if_whole(&outcome);
        outcomes[place] = outcome;
    }
    whole
}

/// Hands out what was rendered, into the bytes of `out` after those that are used, and returns how the page ended.
fn finish_turn(
    alloc: Global,
    asked: &Page<'_>,
    rendered: &Rendered,
    used: usize,
    out: &mut [u8],
    message: &mut [u8],
) -> Outcome
    requires { used ≤ length out.old }
    ensures leaves { (page : Shown) → IsShown page rendered.now → Leaves page (drop used out.old) (drop used out.new) result }
    ensures front { take used out.new ≡ take used out.old }
    ensures room { used + result.written ≤ length out.old }
    ensures size { length out.new ≡ length out.old }
{
    let (_, room) = out.split_at_mut(used);
    finish(alloc, asked, rendered, room, message)
}

/// Writes this outcome for each of these globals, as far as there are outcomes. No page is whole.
fn refuse_each(refusal: Outcome, globals: &[&[u8]], outcomes: &mut [Outcome]) -> usize
    requires error { 1 ≤ refusal.kind }
    requires nothing { refusal.written ≡ 0 }
    ensures { (out : List ℕ) → TurnsOver (IsRefused refusal) globals.now out out outcomes.old outcomes.new result }
{
    for place in 0..fewer(globals.len(), outcomes.len()) {
        outcomes[place] = refusal;
    }
    0
}

fn fewer(a: usize, b: usize) -> usize
    ensures { result ≡ min a b }
{
    if a < b { a } else { b }
}

/// Returns 1 for a page that is whole and in the caller's memory, else 0.
fn one_if_whole(outcome: &Outcome) -> usize
    ensures { result ≡ one_if_whole outcome.now }
{
    if outcome.kind == 0 { 1 } else { 0 }
}
