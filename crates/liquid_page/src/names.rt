//! The names that pages see: data from files, and texts that words set.
ghost use Rattle.std.specs.Prelude.{◌≡◌, ◌∷◌, ℕ, List, [], Option, IfOk, is_ok, map};
ghost use Rattle.std.specs.Option.{unwrap_or};
ghost use Rattle.liquid_files.specs.meaning.Files.{known_in, reading};
ghost use Rattle.liquid_value.specs.meaning.Tree.{no_members};
ghost use Rattle.liquid_value.specs.meaning.View.{members_view};
ghost use Rattle.page_site.specs.meaning.data_files.Document.{DataGiven};
ghost use Rattle.page_site.specs.meaning.data_files.Merged.{is_equals, merged};
ghost use Rattle.page_site.specs.meaning.Items.{MayBe};
ghost use Rattle.page_site.specs.meaning.Requested.{Follows};
ghost use Rattle.liquid_page.specs.meaning.Names.{
  ReadsAll,
  ReadsOver,
  SetsAll,
  format_at,
  list_name,
  list_name_at,
  name_in,
  name_over,
  path_in,
  path_named,
  text_given,
  under,
};

use crate::fault::Fault;
use liquid_explain::{Mark, Span, text_from, write_snippet};
use liquid_files::Folder;
use liquid_value::Object;
use page_site::data_files::{
    DataFault, Format, SetFault, merge, read_data, set_member, under as put_under,
};
use page_site::read_text;
use std::alloc::{AllocError, Global};
use std::path::Path;

/// The path of standard input.
const INPUT: &str = "/dev/stdin";

/// Returns a path, where `-` is standard input.
pub fn path_named(word: &str) -> &str
    ensures { result.now ≡ path_named word.now }
{
    if word == "-" { INPUT } else { word }
}

/// Where a word for data says it is, and the name that it goes under.
#[derive(Clone, Copy)]
struct DataWord<'w> {
    name: Option<&'w str>,
    path: &'w str,
}

/// Returns what a word for data says.
fn data_word(word: &str) -> DataWord<'_>
    ensures name { text_given result.name ≡ name_in word.now }
    ensures path { result.path.now ≡ path_in word.now }
{
    match word.split_once('=') {
        Some((name, path)) => DataWord {
            name: Some(name),
            path: path_named(path),
        },
        None => DataWord {
            name: None,
            path: path_named(word),
        },
    }
}

/// Returns the path that a word for data names.
pub fn data_path(word: &str) -> &str
    ensures { result.now ≡ path_in word.now }
{
    data_word(word).path
}

/// Returns the format of the file at a path.
fn format_at(path: &str) -> Option<Format>
    ensures { result ≡ format_at path.now }
{
    if path == INPUT {
        Some(Format::Json)
    } else {
        Format::of_path(path)
    }
}

/// Returns the name of a list, by that of its file.
#[tactic(auto, using(crate::proofs::ListNames::list_names))]
fn list_name(name: &str) -> &str
    ensures { result.now ≡ list_name name.now }
{
    match name.strip_suffix(".csv") {
        Some(stem) => stem,
        None => name,
    }
}

/// Returns the name of the list of the file at a path.
fn list_name_at(path: &str) -> &str
    ensures { result.now ≡ list_name_at path.now }
{
    list_name(Path::new(path).file_name().unwrap_or(""))
}

/// Returns the name of a list: that of its word, or if it has none, that of the file at this path.
fn list_name_of<'w>(name: Option<&'w str>, path: &'w str) -> &'w str
    ensures { result.now ≡ unwrap_or (text_given name.entry) (list_name_at path.now) }
{
    match name {
        Some(name) => name,
        None => list_name_at(path),
    }
}

/// Returns the name that data goes under. A list has its name already.
fn name_over(format: Format, name: Option<&str>) -> Option<&str>
    ensures { text_given result ≡ name_over format (text_given name.entry) }
{
    match format {
        Format::Csv => None,
        Format::Json | Format::Toml => name,
    }
}

/// Returns the names after the data of these words is put over them, one after another.
pub(crate) fn read_all<F: Folder>(
    alloc: Global,
    files: &mut F,
    words: &[&str],
    names: Object,
) -> Result<Object, Fault>
    ensures read { (all : List ℕ → Option (List ℕ)) → F.known files.old ≡ known_in all → IfOk result (λ read.
        ReadsAll all (map (λ word. word.now) words.now) (members_view names.entries) (members_view read.entries)) }
    ensures same { F.known files.new ≡ F.known files.old }
    ensures listed { F.listed files.new ≡ F.listed files.old }
    ensures requests { Follows (map (λ word. reading (path_in word)) (map (λ word. word.now) words.now)) (F.requests files.old)
        (F.requests files.new) (is_ok result) }
{
    match words.split_first() {
        Some((word, rest)) => {
            let names = read_over(alloc, files, *word, names)?;
            read_all(alloc, files, rest, names)
        }
        None => Ok(names),
    }
}

/// Returns the names after the data of a word is put over them.
fn read_over<F: Folder>(
    alloc: Global,
    files: &mut F,
    word: &str,
    names: Object,
) -> Result<Object, Fault>
    ensures read { (all : List ℕ → Option (List ℕ)) → F.known files.old ≡ known_in all → IfOk result (λ read.
        ReadsOver all word.now (members_view names.entries) (members_view read.entries)) }
    ensures same { F.known files.new ≡ F.known files.old }
    ensures listed { F.listed files.new ≡ F.listed files.old }
    ensures requests { Follows (reading (path_in word.now) ∷ []) (F.requests files.old) (F.requests files.new) (is_ok result) }
{
    let word = data_word(word);
    let Some(format) = format_at(word.path) else {
        return Err(no_format(alloc, word.path));
    };
    let text = read_text(alloc, files, word.path)?;
    let list = list_name_of(word.name, word.path);
    let given = read_given(alloc, format, list, word.path, text.as_str())?;
    Ok(put_over(alloc, name_over(format, word.name), given, names)?)
}

/// Returns the data of a text, of which a list has this name.
fn read_given(
    alloc: Global,
    format: Format,
    list: &str,
    path: &str,
    text: &str,
) -> Result<Object, Fault>
    ensures { IfOk result (λ given. DataGiven format list.now text.now (members_view given.entries)) }
{
    match read_data(alloc, format, list, text) {
        Ok(given) => Ok(given),
        Err(fault) => Err(data_fault(alloc, path, text, &fault)),
    }
}

/// Returns the names after others, which are under a name if there is one, are put over them.
fn put_over(
    alloc: Global,
    name: Option<&str>,
    given: Object,
    names: Object,
) -> Result<Object, AllocError>
    ensures { IfOk result (λ both. members_view both.entries
        ≡ merged (members_view names.entries) (under (text_given name.entry) (members_view given.entries))) }
{
    match name {
        Some(name) => merge(names, put_under(alloc, name, given)?),
        None => merge(names, given),
    }
}

/// Returns the names after the texts of these words are set, one after another.
pub(crate) fn set_all(alloc: Global, words: &[&str], names: Object) -> Result<Object, Fault>
    ensures { IfOk result (λ set.
        SetsAll (map (λ word. word.now) words.now) (members_view names.entries) (members_view set.entries)) }
{
    match words.split_first() {
        Some((word, rest)) => match set_member(alloc, names, *word) {
            Ok(names) => set_all(alloc, rest, names),
            Err(fault) => Err(set_fault(alloc, *word, &fault)),
        },
        None => Ok(names),
    }
}

/// Returns the fault of a file that is of no format.
fn no_format(alloc: Global, path: &str) -> Fault {
    match format!(in alloc; "{path}: data ends in .json, .toml or .csv") {
        Ok(message) => Fault::Word(message),
        Err(_) => Fault::Memory,
    }
}

/// Returns the fault of a word that sets no text.
fn set_fault(alloc: Global, word: &str, fault: &SetFault) -> Fault {
    match fault {
        SetFault::Memory => Fault::Memory,
        _ => match format!(in alloc; "--set {word}: {fault}") {
            Ok(message) => Fault::Word(message),
            Err(_) => Fault::Memory,
        },
    }
}

/// Returns the fault of a text that is not data, with its line.
fn data_fault(alloc: Global, path: &str, text: &str, fault: &DataFault) -> Fault {
    match fault {
        DataFault::Memory => Fault::Memory,
        DataFault::Value(error) => if error.is_memory() {
            Fault::Memory
        } else {
            data_message(alloc, path, text, fault)
        },
        DataFault::At { .. } => data_message(alloc, path, text, fault),
    }
}

fn data_message(alloc: Global, path: &str, text: &str, fault: &DataFault) -> Fault {
    match say(alloc, path, text, fault) {
        Ok(message) => Fault::Data(message),
        Err(_) => Fault::Memory,
    }
}

/// Returns the message of a fault, with the line of the text that it is in.
fn say(alloc: Global, path: &str, text: &str, fault: &DataFault) -> Result<String, AllocError> {
    let text = text.strip_prefix("\u{feff}").unwrap_or(text);
    match fault {
        DataFault::At {
            line,
            column,
            cause,
        } => {
            let mut message = format!(in alloc; "{path}:{line}:{column}: {cause}\n")?;
            let after = text_from(text, *line, *column).unwrap_or("");
            let place = text.len().saturating_sub(after.len());
            let length = after
                .chars()
                .next()
                .map_or(0, |character| character.len_utf8());
            let mark = Mark {
                line: *line,
                span: Span { place, length },
            };
            write_snippet(alloc, &mut message, text, mark, "")?;
            Ok(message)
        }
        _ => {
            let text = format!(in alloc; "{fault}")?;
            let text = text.as_str();
            format!(in alloc; "{path}: {}", text.strip_prefix("liquid: ").unwrap_or(text))
        }
    }
}
