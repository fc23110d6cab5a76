//! Writing several pages over the same globals and partials.
ghost use Rattle.std.specs.Prelude.{◌≡◌, ◌≢◌, [], ◌∷◌, IfOk, map, string_bytes, ⊤};
ghost use Rattle.liquid_template.specs.meaning.Grows.{Grows};
ghost use Rattle.liquid_pages.specs.meaning.Globals.{json_object};
ghost use Rattle.liquid_files.specs.meaning.Files.{also, reading};
ghost use Rattle.liquid_program.specs.meaning.Gathered.{WithGlobals};
ghost use Rattle.liquid_program.specs.meaning.PagesCommand.{asked_pages};
ghost use Rattle.liquid_program.specs.meaning.Program.{ExecutesOne, Printed};
ghost use Rattle.liquid_program.specs.meaning.Requests.{Follows, FollowsTo, WhereKnown, pages_steps};
ghost use Rattle.liquid_program.specs.meaning.Status.{all_status, exit_status};
ghost use Rattle.liquid_program.specs.meaning.Written.{WritesEach, WritesOne, WritesPages};

use crate::command::Paths;
use crate::fault::Fault;
use crate::gather::{globals_of, partials_of, text_of};
use crate::notes::{Sources, refuse};
use crate::pages_command::Pages;
use crate::rendering::render_over;
use crate::run::{settle, write_fault};
use crate::write::{file_of_pages, land};
use liquid_core::partials::InMemorySource;
use liquid_core::{Error, Sink, WriterSink};
use liquid_files::Folder;
use std::alloc::{AllocError, Global};
use std::io::Write;

/// Reads the globals and the partials, and writes the page of each template to its file. Returns the first status that
/// isn't 0. The fault of each page is written to `err`.
pub(crate) fn write_pages<F: Folder, E: Write>(
    alloc: Global,
    pages: Pages<'_>,
    files: &mut F,
    err: &mut E,
) -> u8
    ensures command { result ≢ 2 }
    ensures writes { WritesPages (asked_pages pages.entry) (F.known files.old) (F.listed files.old) (F.known files.new) result }
    ensures requests { WhereKnown (F.known files.old) (F.listed files.old) (λ all folders. FollowsTo
        (pages_steps all folders (asked_pages pages.entry)) (F.requests files.old) (F.requests files.new) result) }
    ensures quiet { result ≡ 0 → err.new ≡ err.old }
{
    match write_all(alloc, pages, files, err) {
        Ok(status) => status,
        Err(fault) => {
            let paths = paths_of(pages, pages.globals);
            write_fault(alloc, pages.options.explain, paths, files, Err(fault), err)
        }
    }
}

/// Does what `write_pages` does, up to the fault of the globals or of the partials.
fn write_all<'w, F: Folder, E: Write>(
    alloc: Global,
    pages: Pages<'w>,
    files: &mut F,
    err: &mut E,
) -> Result<u8, Fault<'w>>
    ensures command { all_status result ≢ 2 }
    ensures writes { WritesPages (asked_pages pages.entry) (F.known files.old) (F.listed files.old) (F.known files.new)
        (all_status result) }
    ensures requests { WhereKnown (F.known files.old) (F.listed files.old) (λ all folders. Follows
        (pages_steps all folders (asked_pages pages.entry)) (F.requests files.old) (F.requests files.new) result) }
    ensures quiet { all_status result ≡ 0 → err.new ≡ err.old }
{
    let json = text_of(alloc, files, pages.globals)?;
    drop(globals_of(alloc, pages.options.decimals, json.as_str(), pages.globals)?);
    let partials = partials_of(alloc, files, pages.ending, pages.partials)?;
    Ok(write_each(
        alloc,
        pages,
        json.as_str(),
        &partials,
        pages.templates,
        0,
        files,
        err,
    ))
}

/// Writes the pages of these templates, after earlier ones that had this status.
fn write_each<'w, F: Folder, E: Write>(
    alloc: Global,
    pages: Pages<'w>,
    json: &str,
    partials: &Option<InMemorySource>,
    templates: &'w [String],
    status: u8,
    files: &mut F,
    err: &mut E,
) -> u8
    ensures command { status ≢ 2 → result ≢ 2 }
    ensures writes { WithGlobals (json_object pages.entry.options.decimals json.now) ⊤ (λ globals.
        WritesEach (asked_pages pages.entry) globals partials.now (map string_bytes templates.now)
        (F.known files.old) (F.known files.new) status result) }
    ensures requests { F.requests files.new ≡ also (F.requests files.old) (map reading (map string_bytes templates.now)) }
    ensures first { status ≢ 0 → result ≡ status }
    ensures quiet { result ≡ 0 → err.new ≡ err.old }
{
    match templates.split_first() {
        None => status,
        Some((template, rest)) => {
            let template = template.as_str();
            let all = pages.templates.len();
            files.announce(all.saturating_sub(rest.len()), all, template);
            let answer = write_one(alloc, pages, json, partials, template, files);
            let one = report(alloc, pages, template, files, answer, err);
            let status = if status == 0 { one } else { status };
            write_each(alloc, pages, json, partials, rest, status, files, err)
        }
    }
}

/// Writes the page of one template to its file.
fn write_one<'w, F: Folder>(
    alloc: Global,
    pages: Pages<'w>,
    json: &str,
    partials: &Option<InMemorySource>,
    template: &'w str,
    files: &mut F,
) -> Result<(), Fault<'w>>
    ensures command { exit_status result ≢ 2 }
    ensures writes { WithGlobals (json_object pages.entry.options.decimals json.now) ⊤ (λ globals.
        WritesOne (asked_pages pages.entry) globals partials.now template.now (F.known files.old) (F.known files.new)
        (exit_status result)) }
    ensures requests { F.requests files.new ≡ also (F.requests files.old) (reading template.now ∷ []) }
{
    let mut page = Vec::new(alloc);
    let answer = print_one(alloc, pages, json, partials, template, files, &mut page);
    let paths = paths_of(pages, template);
    match file_of_pages(alloc, pages.output, template) {
        Ok(file) => land(alloc, files, paths, file, page.as_slice(), answer),
        Err(_) => answer.and(Err(Fault::Refused(Error::Memory))),
    }
}

/// Renders one template to an output, which is flushed.
fn print_one<'w, F: Folder, W: Write>(
    alloc: Global,
    pages: Pages<'w>,
    json: &str,
    partials: &Option<InMemorySource>,
    template: &'w str,
    files: &mut F,
    out: &mut W,
) -> Result<(), Fault<'w>>
    ensures command { exit_status result ≢ 2 }
    ensures prints { WithGlobals (json_object pages.entry.options.decimals json.now) ⊤ (λ globals. Printed
        (ExecutesOne pages.entry.options template.now globals partials.now (F.known files.old))
        (W.contents out.old) (W.contents out.new) (exit_status result)) }
    ensures same { F.known files.new ≡ F.known files.old }
    ensures requests { F.requests files.new ≡ also (F.requests files.old) (reading template.now ∷ []) }
{
    let mut sink = WriterSink::new(out);
    let answer = execute_one(alloc, pages, json, partials, template, files, &mut sink);
    let flushed = sink.into_inner().flush();
    settle(alloc, answer, flushed)
}

/// Reads one template, renders it over globals and partials that were read before, and writes the result.
#[tactic(auto, using(crate::proofs::UntouchedSinks::untouched))]
fn execute_one<'w, F: Folder, K: Sink>(
    alloc: Global,
    pages: Pages<'w>,
    json: &str,
    partials: &Option<InMemorySource>,
    template: &'w str,
    files: &mut F,
    sink: &mut K,
) -> Result<(), Fault<'w>>
    ensures command { exit_status result ≢ 2 }
    ensures executes { WithGlobals (json_object pages.entry.options.decimals json.now) ⊤ (λ globals.
        ExecutesOne pages.entry.options template.now globals partials.now (F.known files.old)
        (K.sunk sink.old) (K.sunk sink.new) (exit_status result)) }
    ensures same { F.known files.new ≡ F.known files.old }
    ensures requests { F.requests files.new ≡ also (F.requests files.old) (reading template.now ∷ []) }
    ensures destination { Grows (K.sunk sink.old) (K.sunk sink.new) }
    ensures borrows { (K.sunk sink.new).lent ≡ (K.sunk sink.old).lent }
{
    let text = text_of(alloc, files, template)?;
    let globals = globals_of(alloc, pages.options.decimals, json, pages.globals)?;
    let Ok(copy) = copy_partials(partials) else {
        return Err(Fault::Refused(Error::Memory));
    };
    let mut stopped_by = None;
    match render_over(
        alloc,
        pages.options,
        text.as_str(),
        globals,
        copy,
        sink,
        &mut stopped_by,
    ) {
        Ok(()) => Ok(()),
        Err(error) => {
            let sources = Sources::new(
                template,
                text.as_str(),
                json,
                partials.as_ref(),
                stopped_by,
            );
            Err(refuse(alloc, pages.options, sources, error))
        }
    }
}

fn copy_partials(partials: &Option<InMemorySource>) -> Result<Option<InMemorySource>, AllocError>
    ensures { IfOk result (λ copy. copy ≡ partials.now) }
{
    match partials {
        Some(source) => Ok(Some(source.clone()?)),
        None => Ok(None),
    }
}

/// Returns the paths of one page.
fn paths_of<'w>(pages: Pages<'w>, template: &'w str) -> Paths<'w> {
    Paths {
        template,
        globals: pages.globals,
        folder: pages.partials,
    }
}

/// Returns the status of a page. If it isn't 0, writes the fault to `err`, and then a line with the status and the
/// template.
fn report<'w, F: Folder, E: Write>(
    alloc: Global,
    pages: Pages<'w>,
    template: &'w str,
    files: &mut F,
    answer: Result<(), Fault<'w>>,
    err: &mut E,
) -> u8
    ensures status { result ≡ exit_status answer.entry }
    ensures quiet { result ≡ 0 → err.new ≡ err.old }
    ensures same { F.known files.new ≡ F.known files.old }
    ensures requests { F.requests files.new ≡ F.requests files.old }
{
    let paths = paths_of(pages, template);
    let status = write_fault(alloc, pages.options.explain, paths, files, answer, err);
    if status != 0 {
        let _ = writeln!(err, "liquid: status {status}: {template}");
    }
    status
}
