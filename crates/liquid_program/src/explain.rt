//! What `--explain` adds to a fault.
ghost use Rattle.std.specs.Prelude.{◌≡◌};

use crate::command::{Options, Paths};
use crate::fault::Fault;
use crate::notes::{Sources, explain_error};
use liquid_core::Error;
use liquid_core::partials::InMemorySource;
use liquid_files::{Folder, Why};
use liquid_pages::PageLimit;
use std::alloc::{AllocError, Global};
use std::io::Write;

/// A text that was rendered, as an error is explained by it.
#[derive(Clone, Copy)]
pub struct Explained<'s> {
    /// The path of its file.
    pub path: &'s str,
    pub text: &'s str,
    /// How many lines of its file come before the text.
    pub lines_before: usize,
    pub partials: &'s InMemorySource,
    /// The limit that stopped it, if one did.
    pub stopped_by: Option<PageLimit>,
}

/// Returns an error of a page with the lines that explain it, as `--explain` prints them.
pub fn explain_page(
    alloc: Global,
    options: Options,
    page: Explained<'_>,
    error: &Error,
) -> Result<String, AllocError> {
    let mut sources = Sources::new(
        page.path,
        page.text,
        "",
        Some(page.partials),
        page.stopped_by,
    );
    sources.lines_before = page.lines_before;
    explain_error(alloc, options, sources, error)
}

/// How many characters of a line are written.
const WIDTH: usize = 300;

/// Writes a fault, with long lines cut, and what is known of its cause.
pub fn explain<F: Folder, E: Write>(
    alloc: Global,
    paths: &Paths<'_>,
    fault: &Fault<'_>,
    files: &mut F,
    err: &mut E,
)
    ensures same { F.known files.new ≡ F.known files.old }
    ensures requests { F.requests files.new ≡ F.requests files.old }
{
    match format!(in alloc; "{fault}") {
        Ok(text) => {
            for line in text.as_str().lines() {
                write_cut(line, err);
            }
        }
        Err(_) => {
            let _ = write!(err, "{fault}");
        }
    }
    match fault {
        Fault::Unreadable(path) => explain_unread(path, paths.folder == Some(*path), files, err),
        Fault::UnreadableInFolder(path) => explain_unread(path.as_str(), false, files, err),
        Fault::BadJson(_, note) => write_note(note.as_str(), err),
        Fault::NoGlobals(_, note) => {
            write_note(note.as_str(), err);
            let _ = writeln!(err, "  in {}", paths.globals);
        }
        Fault::Unwritable(_) | Fault::OwnFile(_) => write_template(paths, err),
        Fault::Explained(_, notes) => {
            for line in notes.as_str().lines() {
                write_note(line, err);
            }
        }
        Fault::Refused(error) => if !error.is_memory() {
            write_template(paths, err);
        },
        Fault::Usage => {}
    }
}

/// Writes which template was rendered.
fn write_template<E: Write>(paths: &Paths<'_>, err: &mut E) {
    let _ = writeln!(err, "  rendering {}", paths.template);
}

/// Writes a line that explains a fault, if there is one.
fn write_note<E: Write>(note: &str, err: &mut E) {
    if !note.is_empty() {
        let _ = write!(err, "  ");
        write_cut(note, err);
    }
}

/// Writes a line. Of a long one it writes the first characters, and how many there are more.
fn write_cut<E: Write>(line: &str, err: &mut E) {
    let Some((at, _)) = line.char_indices().nth(WIDTH) else {
        let _ = writeln!(err, "{line}");
        return;
    };
    if let Some((front, rest)) = line.split_at_checked(at) {
        let _ = writeln!(err, "{front} .. ({} more characters)", rest.chars().count());
    }
}

/// Writes why a file or a folder can't be read.
fn explain_unread<F: Folder, E: Write>(path: &str, is_listed: bool, files: &mut F, err: &mut E)
    ensures same { F.known files.new ≡ F.known files.old }
    ensures requests { F.requests files.new ≡ F.requests files.old }
{
    let why = match files.why(path, is_listed) {
        Why::NotThere => "there is no such file",
        Why::Folder => "it is a folder",
        Why::NoFolder => "it is not a folder",
        Why::Forbidden => "permission denied",
        Why::NoText => "it is not UTF-8",
        Why::Unknown => return,
    };
    let _ = writeln!(err, "  {why}");
}
