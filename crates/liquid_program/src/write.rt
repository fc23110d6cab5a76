//! Writing a page to a file.
ghost use Rattle.std.specs.Prelude.{◌≡◌, ◌≢◌, IfOk, string_bytes};
ghost use Rattle.liquid_program.specs.meaning.Command.{asked_of};
ghost use Rattle.liquid_program.specs.meaning.Requests.{Follows, IsMemory, WhereKnown, command_steps, trouble_in};
ghost use Rattle.liquid_program.specs.meaning.Status.{exit_status};
ghost use Rattle.liquid_program.specs.meaning.Written.{
  file_in,
  is_folder,
  Lands,
  page_file,
  pages_folder,
  WritesAsked,
};

use crate::command::{Command, Paths};
use crate::fault::Fault;
use crate::pages_command::name_of;
use crate::run::print;
use liquid_core::Error;
use liquid_files::{Folder, Unread};
use std::alloc::{AllocError, Global};

fn is_folder(path: &str) -> bool
    ensures { result ≡ is_folder path.now }
{
    path.as_bytes().ends_with(b"/")
}

/// Returns the file in a folder, whose path has a slash at its end, that has the name of a template.
fn file_in(alloc: Global, folder: &str, template: &str) -> Result<String, AllocError>
    ensures { IfOk result (λ file. string_bytes file ≡ file_in folder.now template.now) }
{
    let name = name_of(template).unwrap_or("");
    format!(in alloc; "{folder}{name}")
}

/// Returns the file that one page is written to.
fn page_file(alloc: Global, place: &str, template: &str) -> Result<String, AllocError>
    ensures { IfOk result (λ file. string_bytes file ≡ page_file place.now template.now) }
{
    if is_folder(place) {
        file_in(alloc, place, template)
    } else {
        String::from_str(alloc, place)
    }
}

/// Returns the file that the page of one of several templates is written to.
pub(crate) fn file_of_pages(
    alloc: Global,
    place: &str,
    template: &str,
) -> Result<String, AllocError>
    ensures { IfOk result (λ file. string_bytes file ≡ file_in (pages_folder place.now) template.now) }
{
    if is_folder(place) {
        file_in(alloc, place, template)
    } else {
        let folder = format!(in alloc; "{place}/")?;
        file_in(alloc, folder.as_str(), template)
    }
}

/// Returns `true` if a file is the template of a page or the file of its globals.
fn is_own<F: Folder>(files: &F, paths: Paths<'_>, file: &str) -> bool {
    files.is_same_file(paths.template, file) || files.is_same_file(paths.globals, file)
}

/// Writes a page to a file, if it was rendered to its end and is not made from that file.
#[tactic(auto, using(crate::proofs::PagesLemmas::landing))]
pub(crate) fn land<'w, F: Folder>(
    alloc: Global,
    files: &mut F,
    paths: Paths<'_>,
    file: String,
    page: &[u8],
    answer: Result<(), Fault<'w>>,
) -> Result<(), Fault<'w>>
    ensures lands { Lands (F.known files.old) (F.known files.new) (string_bytes file) page.now
        (exit_status answer.entry) (exit_status result) }
    ensures command { exit_status answer.entry ≢ 2 → exit_status result ≢ 2 }
    ensures requests { F.requests files.new ≡ F.requests files.old }
    ensures trouble { trouble_in result ≡ trouble_in answer.entry }
    ensures memory { IsMemory answer.entry → IsMemory result }
{
    answer?;
    if is_own(&*files, paths, file.as_str()) {
        return Err(Fault::OwnFile(file));
    }
    match files.replace(alloc, file.as_str(), page) {
        Ok(()) => Ok(()),
        Err(Unread::Fault) => Err(Fault::Unwritable(file)),
        Err(Unread::Memory) => Err(Fault::Refused(Error::Memory)),
    }
}

/// Executes a command and writes the page to the file that its place names.
#[tactic(auto, using(crate::proofs::PagesLemmas::landing))]
pub(crate) fn write_page<'w, F: Folder>(
    alloc: Global,
    command: Command<'w>,
    place: &'w str,
    files: &mut F,
) -> Result<(), Fault<'w>>
    ensures command { exit_status result ≢ 2 }
    ensures writes { WritesAsked (asked_of command.entry) place.now (F.known files.old) (F.listed files.old)
        (F.known files.new) (exit_status result) }
    ensures requests { WhereKnown (F.known files.old) (F.listed files.old) (λ all folders. Follows
        (command_steps all folders (asked_of command.entry).choices.options.decimals (asked_of command.entry).paths
        (asked_of command.entry).choices.ending)
        (F.requests files.old) (F.requests files.new) result) }
{
    let mut page = Vec::new(alloc);
    let answer = print(alloc, command, files, &mut page);
    match page_file(alloc, place, command.paths.template) {
        Ok(file) => land(alloc, files, command.paths, file, page.as_slice(), answer),
        Err(_) => answer.and(Err(Fault::Refused(Error::Memory))),
    }
}
