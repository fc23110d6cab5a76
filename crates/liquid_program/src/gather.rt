//! Reading the files that a command names.
ghost use Rattle.std.specs.Prelude.{◌≡◌, ◌≢◌, ℕ, List, [], ◌∷◌, Option, Some, is_some, IfOk, IfErr, map, option_map, string_bytes};
ghost use Rattle.std.specs.FinMap.{empty, keys};
ghost use Rattle.liquid_runtime.specs.meaning.Maps.{names_of};
ghost use Rattle.liquid_plugins.specs.meaning.Registry.{by_name};
ghost use Rattle.liquid_pages.specs.meaning.Globals.{json_object};
ghost use Rattle.liquid_program.specs.meaning.Command.{option_words};
ghost use Rattle.liquid_program.specs.meaning.Gathered.{
  names_into,
  path_in,
  stem_of,
  WithFiles,
  WithFolder,
  WithGlobals,
  WithNames,
  WithPartials,
  WithText,
};
ghost use Rattle.liquid_files.specs.meaning.Files.{Reads, also, known_in, listing, reading};
ghost use Rattle.liquid_program.specs.meaning.Requests.{
  WhereKnown,
  file_steps,
  folder_steps,
  object_trouble,
  partials_steps,
  unreadable,
};
ghost use Rattle.liquid_program.specs.meaning.Status.{fault_status};
ghost use Rattle.liquid_program.specs.steps.Steps.{
  Brings,
  BringsText,
  Collects,
  Reports,
  ReportsAny,
  Requested,
  Stops,
  StopsUnread,
  given,
};

use crate::fault::Fault;
use crate::json_notes::{note_of_number, note_of_text};
use liquid_core::partials::InMemorySource;
use liquid_core::{Error, Object};
use liquid_files::{Folder, Unread};
use liquid_pages::PageFault;
use std::alloc::{AllocError, Global};
use std::collections::BTreeMap;

/// Returns the text of the file at a path.
pub(crate) fn text_of<'w, F: Folder>(
    alloc: Global,
    files: &mut F,
    path: &'w str,
) -> Result<String, Fault<'w>>
    ensures text { WithText (F.known files.old path.now) (Stops result) (λ text. Brings string_bytes text result) }
    ensures reports { Reports (unreadable path.now) result }
    ensures requests { F.requests files.new ≡ also (F.requests files.old) (reading path.now ∷ []) }
    ensures command { IfErr result (λ fault. fault_status fault ≢ 2) }
    ensures same { F.known files.new ≡ F.known files.old }
    ensures listed { F.listed files.new ≡ F.listed files.old }
{
    match read_text(alloc, files, path) {
        Ok(text) => Ok(text),
        Err(Unread::Fault) => Err(Fault::Unreadable(path)),
        Err(Unread::Memory) => Err(Fault::Refused(Error::Memory)),
    }
}

/// Returns the text of a file in a folder.
pub(crate) fn text_in<'w, F: Folder>(
    alloc: Global,
    files: &mut F,
    folder: &str,
    ending: &str,
    name: &str,
) -> Result<String, Fault<'w>>
    ensures text { WithText (F.known files.old (path_in folder.now ending.now name.now)) (Stops result)
        (λ text. Brings string_bytes text result) }
    ensures reports { Reports (unreadable (path_in folder.now ending.now name.now)) result }
    ensures requests { Requested (reading (path_in folder.now ending.now name.now)) (F.requests files.old)
        (F.requests files.new) result }
    ensures command { IfErr result (λ fault. fault_status fault ≢ 2) }
    ensures same { F.known files.new ≡ F.known files.old }
    ensures listed { F.listed files.new ≡ F.listed files.old }
{
    let Ok(path) = path_in(alloc, folder, ending, name) else {
        return Err(Fault::Refused(Error::Memory));
    };
    match read_text(alloc, files, path.as_str()) {
        Ok(text) => Ok(text),
        Err(Unread::Fault) => Err(Fault::UnreadableInFolder(path)),
        Err(Unread::Memory) => Err(Fault::Refused(Error::Memory)),
    }
}

fn path_in(alloc: Global, folder: &str, ending: &str, name: &str) -> Result<String, AllocError>
    ensures { IfOk result (λ path. string_bytes path ≡ path_in folder.now ending.now name.now) }
{
    format!(in alloc; "{folder}/{name}{ending}")
}

fn read_text<F: Folder>(alloc: Global, files: &mut F, path: &str) -> Result<String, Unread>
    ensures text { WithText (F.known files.old path.now) (StopsUnread result) (λ text. BringsText text result) }
    ensures requests { F.requests files.new ≡ also (F.requests files.old) (reading path.now ∷ []) }
    ensures same { F.known files.new ≡ F.known files.old }
    ensures listed { F.listed files.new ≡ F.listed files.old }
{
    let bytes = files.read(alloc, path)?;
    match String::from_utf8(bytes) {
        Ok(text) => Ok(text),
        Err(_) => Err(Unread::Fault),
    }
}

/// Returns the names of the partials in a folder, in byte order.
fn names_in<'w, F: Folder>(
    alloc: Global,
    files: &mut F,
    ending: Option<&str>,
    folder: &'w str,
) -> Result<BTreeMap<String, ()>, Fault<'w>>
    ensures names { WithNames (F.listed files.old (is_some (given ending.entry)) folder.now) (Stops result)
        (λ names. Brings by_name (names_into (given ending.entry) empty names) result) }
    ensures reports { Reports (unreadable folder.now) result }
    ensures requests { F.requests files.new ≡ also (F.requests files.old)
        (listing (is_some (given ending.entry)) folder.now ∷ []) }
    ensures command { IfErr result (λ fault. fault_status fault ≢ 2) }
    ensures same { F.known files.new ≡ F.known files.old }
    ensures listed { F.listed files.new ≡ F.listed files.old }
{
    match list_folder(alloc, files, ending, folder) {
        Ok(names) => match in_order(alloc, ending, names) {
            Ok(names) => Ok(names),
            Err(_) => Err(Fault::Refused(Error::Memory)),
        },
        Err(Unread::Fault) => Err(Fault::Unreadable(folder)),
        Err(Unread::Memory) => Err(Fault::Refused(Error::Memory)),
    }
}

/// Lists a folder, with its subfolders if partials have an ending.
fn list_folder<F: Folder>(
    alloc: Global,
    files: &mut F,
    ending: Option<&str>,
    folder: &str,
) -> Result<Vec<String>, Unread>
    ensures lists { Reads (λ names. map string_bytes names.items)
        (F.listed files.old (is_some (given ending.entry)) folder.now) result }
    ensures same { F.known files.new ≡ F.known files.old }
    ensures listed { F.listed files.new ≡ F.listed files.old }
    ensures requests { F.requests files.new ≡ also (F.requests files.old)
        (listing (is_some (given ending.entry)) folder.now ∷ []) }
{
    match ending {
        Some(_) => files.list_tree(alloc, folder),
        None => files.list(alloc, folder),
    }
}

/// Returns the name of the partial in the file of this name, if it is one.
#[tactic(auto, using(crate::proofs::EndingLemmas::stem_stripped))]
fn stem_of<'n>(ending: Option<&str>, name: &'n str) -> Option<&'n str>
    ensures { option_map (λ stem. stem.now) result ≡ stem_of (given ending.entry) name.now }
{
    match ending {
        None => Some(name),
        Some(ending) => name.strip_suffix(ending),
    }
}

fn in_order(
    alloc: Global,
    ending: Option<&str>,
    names: Vec<String>,
) -> Result<BTreeMap<String, ()>, AllocError>
    ensures { IfOk result (λ set. by_name set
        ≡ names_into (given ending.entry) empty (map string_bytes names.items)) }
{
    let mut set = BTreeMap::new(alloc);
    for name in names {
        if let Some(stem) = stem_of(ending, name.as_str()) {
            set.insert(String::from_str(alloc, stem)?, ())?;
        }
    }
    Ok(set)
}

/// Returns the partials of the folder, if there is one.
pub(crate) fn partials_of<'w, F: Folder>(
    alloc: Global,
    files: &mut F,
    ending: Option<&str>,
    folder: Option<&'w str>,
) -> Result<Option<InMemorySource>, Fault<'w>>
    ensures partials { WithPartials (F.known files.old) (F.listed files.old) (given ending.entry)
        (option_words (given folder.entry))
        (Stops result) (λ partials. Brings (λ source. source) partials result) }
    ensures requests { WhereKnown (F.known files.old) (F.listed files.old) (λ all folders.
        Collects (partials_steps all folders (option_words (given folder.entry))
        (given ending.entry)) (F.requests files.old) (F.requests files.new) result) }
    ensures command { IfErr result (λ fault. fault_status fault ≢ 2) }
    ensures same { F.known files.new ≡ F.known files.old }
{
    match folder {
        Some(folder) => Ok(Some(partials_in(alloc, files, ending, folder)?)),
        None => Ok(None),
    }
}

/// Returns the partials of a folder: the text of each, under its name.
fn partials_in<'w, F: Folder>(
    alloc: Global,
    files: &mut F,
    ending: Option<&str>,
    folder: &'w str,
) -> Result<InMemorySource, Fault<'w>>
    ensures partials { WithFolder (F.known files.old) folder.now (given ending.entry)
        (F.listed files.old (is_some (given ending.entry)) folder.now)
        (Stops result) (λ texts. Brings (λ source. source) texts result) }
    ensures requests { WhereKnown (F.known files.old) (F.listed files.old) (λ all folders.
        Collects (folder_steps all folder.now (given ending.entry)
        (folders (is_some (given ending.entry)) folder.now)) (F.requests files.old) (F.requests files.new) result) }
    ensures command { IfErr result (λ fault. fault_status fault ≢ 2) }
    ensures same { F.known files.new ≡ F.known files.old }
{
    let names = names_in(alloc, files, ending, folder)?;
    texts_of(alloc, files, folder, ending.unwrap_or(""), names)
}

/// Returns the texts of the partials of these names in a folder, each under its name.
fn texts_of<'w, F: Folder>(
    alloc: Global,
    files: &mut F,
    folder: &str,
    ending: &str,
    names: BTreeMap<String, ()>,
) -> Result<InMemorySource, Fault<'w>>
    ensures texts { WithFiles (F.known files.old) folder.now ending.now (keys (by_name names)) empty
        (Stops result) (λ texts. Brings (λ source. source) texts result) }
    ensures requests { (all : List ℕ → Option (List ℕ)) → F.known files.old ≡ known_in all → Collects
        (file_steps all folder.now ending.now (keys (by_name names))) (F.requests files.old) (F.requests files.new) result }
    ensures command { IfErr result (λ fault. fault_status fault ≢ 2) }
    ensures same { F.known files.new ≡ F.known files.old }
{
    let mut source = InMemorySource::new(alloc);
    for (name, ()) in names {
        let text = text_in(alloc, files, folder, ending, name.as_str())?;
        if source.add(name, text).is_err() {
            return Err(Fault::Refused(Error::Memory));
        }
    }
    Ok(source)
}

/// Returns the globals of a text of JSON, with decimals or without, which was read from this path.
pub(crate) fn globals_of<'w>(
    alloc: Global,
    decimals: bool,
    text: &str,
    path: &'w str,
) -> Result<Object, Fault<'w>>
    ensures globals { WithGlobals (json_object decimals text.now) (Stops result) (λ names. Brings names_of names result) }
    ensures reports { ReportsAny (object_trouble path.now (json_object decimals text.now)) result }
    ensures command { IfErr result (λ fault. fault_status fault ≢ 2) }
{
    match liquid_pages::globals_of(alloc, decimals, text) {
        Ok(object) => Ok(object),
        Err(PageFault::BadJson(error)) => {
            Err(Fault::BadJson(path, note_of_text(alloc, text, &error)))
        }
        Err(PageFault::NoGlobals(error)) => if error.is_memory() {
            Err(Fault::Refused(error))
        } else {
            Err(Fault::NoGlobals(error, note_of_number(alloc, decimals, text)))
        },
        Err(_) => Err(Fault::Refused(Error::Memory)),
    }
}
