//! Running a command.
ghost use Rattle.std.specs.Option.{option_map_or};
ghost use Rattle.std.specs.Prelude.{◌≡◌, ◌≢◌, ◌↔◌, [], None, false, is_ok, is_some, map, string_bytes};
ghost use Rattle.liquid_template.specs.meaning.Grows.{Grows};
ghost use Rattle.liquid_program.specs.meaning.Command.{asked_of};
ghost use Rattle.liquid_program.specs.meaning.PagesCommand.{is_asked, pages_of};
ghost use Rattle.liquid_program.specs.meaning.Program.{Executes, Printed};
ghost use Rattle.liquid_program.specs.meaning.Requests.{
  Follows,
  FollowsTo,
  FollowsWords,
  IsMemory,
  WhereKnown,
  command_steps,
  pages_steps,
  reported,
  trouble_in,
};
ghost use Rattle.liquid_program.specs.meaning.Status.{exit_status, fault_status, settled};
ghost use Rattle.liquid_program.specs.meaning.Written.{Placed, Prints, WritesOthers};

use crate::command::{Choices, Command, Options, Paths};
use crate::explain::explain;
use crate::fault::Fault;
use crate::gather::{globals_of, partials_of, text_of};
use crate::notes::{Sources, refuse};
use crate::pages::write_pages;
use crate::pages_command::Pages;
use crate::rendering::render_over;
use crate::write::write_page;
use liquid_core::partials::InMemorySource;
use liquid_core::{Error, Sink, WriterSink};
use liquid_files::Folder;
use std::alloc::Global;
use std::io::{self, Write};

/// Runs the command that the words after the program's name give.
///
/// `render [--standard] [--sandboxed] [--lenient] TEMPLATE GLOBALS.json [DIR]` renders the template at that path to
/// `out`, over the globals of the JSON object. Each file directly in the folder DIR is a partial under its file name.
/// With `--standard` the template has the standard filters in place of `append` and `fail`. With `--sandboxed` the
/// object is the data of a sandbox without a name, over a runtime that has no globals. With `--lenient` a name or an
/// index without a value is nil instead of an error. With `--decimals` a number of the object with a fraction is a
/// decimal instead of an error. The options are in any order.
///
/// With `--ext .EXT` only files with this ending are partials, under their names without it, also those in subfolders,
/// under their paths in the folder. With `-o FILE` the page goes to this file, which is replaced only if the page is
/// whole. With `--globals FILE`, `-o DIR` and several templates each page goes to a file in DIR with the name of its
/// template. The globals and the partials are read once, and the fault of each page is written to `err`.
///
/// Returns the exit status: 0 if the template was rendered; 1 if parsing or rendering had an error, with the error's
/// text on `err`, or the page can't be written to its file; 2 if the words are not a command, with the usage on `err`; 3
/// if a file can't be read as UTF-8 text, or the globals are not JSON, with the path on `err`, and if the JSON is not an
/// object of values, with the error's text. Of several pages it is the first status that isn't 0. The files are read in
/// order, each is turned into what it means before the next is read, and the first fault is returned. No other file is
/// read and no other folder listed. What was written to
/// `out` before an error stays written. A fault of `err` changes no status, and with status 0 nothing is written to `err`.
///
/// Running out of memory has status 1, wherever it happens. When it happens is unspecified, and so is which of 3 and 1
/// is returned if a file can't be read as what it should be.
///
/// `out` is flushed before anything is written to `err`. If that fails, the result for a template that was rendered or
/// had an error is that of a sink that fails: status 1 and "Failed to render".
pub fn run<F: Folder, W: Write, E: Write>(
    alloc: Global,
    words: &[String],
    files: &mut F,
    out: &mut W,
    err: &mut E,
) -> u8
    ensures usage { (result ≡ 2) ↔ (is_asked (map string_bytes words.now) ≡ false) }
    ensures prints { Prints (map string_bytes words.now) (F.known files.old) (F.listed files.old) (F.known files.new)
        (W.contents out.old) (W.contents out.new) result }
    ensures requests { FollowsWords (map string_bytes words.now) (F.known files.old) (F.listed files.old)
        (F.requests files.old) (F.requests files.new) result }
    ensures quiet { result ≡ 0 → err.new ≡ err.old }
{
    match Command::from_words(words) {
        Some(command) => {
            let answer = print_or_write(alloc, command, files, out);
            write_fault(
                alloc,
                command.choices.options.explain,
                command.paths,
                files,
                answer,
                err,
            )
        }
        None => run_others(alloc, words, files, err),
    }
}

/// Runs words that are not a command for one page.
#[tactic(auto, using(crate::proofs::PagesLemmas::landing))]
fn run_others<F: Folder, E: Write>(
    alloc: Global,
    words: &[String],
    files: &mut F,
    err: &mut E,
) -> u8
    ensures usage { (result ≡ 2) ↔ (is_some (pages_of (map string_bytes words.now)) ≡ false) }
    ensures writes { WritesOthers (pages_of (map string_bytes words.now)) (F.known files.old) (F.listed files.old)
        (F.known files.new) result }
    ensures requests { WhereKnown (F.known files.old) (F.listed files.old) (λ all folders. FollowsTo
        (option_map_or (pages_steps all folders) (pages_of (map string_bytes words.now)) [])
        (F.requests files.old) (F.requests files.new) result) }
    ensures quiet { result ≡ 0 → err.new ≡ err.old }
{
    match Pages::from_words(words) {
        Some(pages) => write_pages(alloc, pages, files, err),
        None => say_usage(err),
    }
}

/// Writes the usage to `err`, and returns the status of words that are not a command.
fn say_usage<E: Write>(err: &mut E) -> u8
    ensures { result ≡ 2 }
{
    let fault = Fault::Usage;
    let _ = write!(err, "{fault}");
    fault.status()
}

/// Returns the status of an answer, and writes its fault to `err`, explained if that is asked for.
pub(crate) fn write_fault<F: Folder, E: Write>(
    alloc: Global,
    is_explained: bool,
    paths: Paths<'_>,
    files: &mut F,
    answer: Result<(), Fault<'_>>,
    err: &mut E,
) -> u8
    ensures status { result ≡ exit_status answer.entry }
    ensures quiet { result ≡ 0 → err.new ≡ err.old }
    ensures same { F.known files.new ≡ F.known files.old }
    ensures requests { F.requests files.new ≡ F.requests files.old }
{
    match answer {
        Ok(()) => 0,
        Err(fault) => {
            if is_explained {
                explain(alloc, &paths, &fault, files, err);
            } else {
                let _ = write!(err, "{fault}");
            }
            fault.status()
        }
    }
}

/// Executes a command and writes the result to an output, or to the file that the command names.
#[tactic(auto, using(crate::proofs::PagesLemmas::landing))]
fn print_or_write<'w, F: Folder, W: Write>(
    alloc: Global,
    command: Command<'w>,
    files: &mut F,
    out: &mut W,
) -> Result<(), Fault<'w>>
    ensures command { exit_status result ≢ 2 }
    ensures placed { Placed Printed (asked_of command.entry) (asked_of command.entry).choices.output (F.known files.old)
        (F.listed files.old) (F.known files.new) (W.contents out.old) (W.contents out.new) (exit_status result) }
    ensures requests { WhereKnown (F.known files.old) (F.listed files.old) (λ all folders. Follows
        (command_steps all folders (asked_of command.entry).choices.options.decimals (asked_of command.entry).paths
        (asked_of command.entry).choices.ending)
        (F.requests files.old) (F.requests files.new) result) }
{
    match command.choices.output {
        None => print(alloc, command, files, out),
        Some(place) => write_page(alloc, command, place, files),
    }
}

/// Executes a command and writes the result to an output, which is flushed.
pub(crate) fn print<'w, F: Folder, W: Write>(
    alloc: Global,
    command: Command<'w>,
    files: &mut F,
    out: &mut W,
) -> Result<(), Fault<'w>>
    ensures command { exit_status result ≢ 2 }
    ensures prints { Printed (Executes command.entry.choices.options (asked_of command.entry).choices.ending (asked_of command.entry).paths
        (F.known files.old) (F.listed files.old)) (W.contents out.old) (W.contents out.new) (exit_status result) }
    ensures same { F.known files.new ≡ F.known files.old }
    ensures requests { WhereKnown (F.known files.old) (F.listed files.old) (λ all folders. Follows
        (command_steps all folders (asked_of command.entry).choices.options.decimals (asked_of command.entry).paths
        (asked_of command.entry).choices.ending)
        (F.requests files.old) (F.requests files.new) result) }
{
    let mut sink = WriterSink::new(out);
    let answer = execute(alloc, command, files, &mut sink);
    let flushed = sink.into_inner().flush();
    settle(alloc, answer, flushed)
}

/// Returns the answer after the output was flushed. If that failed, what was rendered, or written before an error, has
/// the error of a sink that fails, unless memory ran out.
pub(crate) fn settle<'w>(
    alloc: Global,
    answer: Result<(), Fault<'w>>,
    flushed: io::Result<()>,
) -> Result<(), Fault<'w>>
    ensures status { exit_status result ≡ settled (exit_status answer.entry) (is_ok flushed) }
    ensures trouble { trouble_in result ≡ trouble_in answer.entry }
    ensures memory { IsMemory answer.entry → IsMemory result }
{
    match (answer, flushed) {
        (Ok(()) | Err(Fault::Explained(..)), Err(_)) => Err(sink_fault(alloc)),
        (Err(Fault::Refused(error)), Err(_)) => if error.is_memory() {
            Err(Fault::Refused(error))
        } else {
            Err(sink_fault(alloc))
        },
        (answer, _) => answer,
    }
}

/// Returns the fault of a sink that fails.
fn sink_fault<'w>(alloc: Global) -> Fault<'w>
    ensures status { fault_status result ≡ 1 }
    ensures trouble { reported result ≡ None }
{
    Fault::Refused(Error::with_msg(alloc, "Failed to render"))
}

/// Reads the files that the command names, renders its template and writes the result.
#[tactic(auto, using(crate::proofs::UntouchedSinks::untouched))]
fn execute<'w, F: Folder, K: Sink>(
    alloc: Global,
    command: Command<'w>,
    files: &mut F,
    sink: &mut K,
) -> Result<(), Fault<'w>>
    ensures command { exit_status result ≢ 2 }
    ensures executes { Executes command.entry.choices.options (asked_of command.entry).choices.ending (asked_of command.entry).paths
        (F.known files.old) (F.listed files.old)
        (K.sunk sink.old) (K.sunk sink.new) (exit_status result) }
    ensures same { F.known files.new ≡ F.known files.old }
    ensures requests { WhereKnown (F.known files.old) (F.listed files.old) (λ all folders. Follows
        (command_steps all folders (asked_of command.entry).choices.options.decimals (asked_of command.entry).paths
        (asked_of command.entry).choices.ending)
        (F.requests files.old) (F.requests files.new) result) }
    ensures destination { Grows (K.sunk sink.old) (K.sunk sink.new) }
    ensures borrows { (K.sunk sink.new).lent ≡ (K.sunk sink.old).lent }
{
    let Command { choices, paths } = command;
    let Choices {
        options,
        ending,
        ..
    } = choices;
    let template = text_of(alloc, files, paths.template)?;
    let json = text_of(alloc, files, paths.globals)?;
    let globals = globals_of(alloc, options.decimals, json.as_str(), paths.globals)?;
    let json = keep_text(alloc, options, json);
    let partials = partials_of(alloc, files, ending, paths.folder)?;
    let kept = keep_partials(options, &partials);
    let mut stopped_by = None;
    match render_over(
        alloc,
        options,
        template.as_str(),
        globals,
        partials,
        sink,
        &mut stopped_by,
    ) {
        Ok(()) => Ok(()),
        Err(error) => {
            let sources = Sources::new(
                paths.template,
                template.as_str(),
                json.as_str(),
                kept.as_ref(),
                stopped_by,
            );
            Err(refuse(alloc, options, sources, error))
        }
    }
}

/// Returns the text if an error may be explained by it, and no text otherwise.
fn keep_text(alloc: Global, options: Options, text: String) -> String {
    if options.explain {
        text
    } else {
        drop(text);
        String::new(alloc)
    }
}

/// Returns a copy of the partials if an error may be explained by them, and if there is memory.
fn keep_partials(options: Options, partials: &Option<InMemorySource>) -> Option<InMemorySource> {
    match partials {
        Some(source) if options.explain => source.clone().ok(),
        _ => None,
    }
}
