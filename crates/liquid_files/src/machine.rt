//! The machine's own files.
ghost use Rattle.std.specs.Prelude.{◌≡◌, ◌↔◌, []};
ghost use Rattle.std.specs.IoError.{error_kind};

use crate::folder::{Folder, Unread, Why};
use crate::tree::files_below;
use std::alloc::Global;
use std::fs::{self, DirEntry, File, OpenFile};
use std::io::{self, Eprint, ErrorKind, Read, Write};
use std::path::Path;
use std::rt::Files;

/// The files of the machine, by the runtime, and whether its error stream is a terminal, so that someone may watch.
#[derive(Drop)]
pub struct Machine<'a, R> {
    pub rt: &'a R,
    pub is_watched: bool,
}

// Running out of memory is kept apart from every other fault.
pub(crate) fn unread(error: io::Error) -> Unread
    ensures { (result ≡ Unread.Memory) ↔ (error_kind error ≡ ErrorKind.OutOfMemory) }
{
    match error.kind() {
        ErrorKind::OutOfMemory => Unread::Memory,
        _ => Unread::Fault,
    }
}

// Why a file that was not opened can't be.
fn why_not(kind: ErrorKind) -> Why {
    match kind {
        ErrorKind::NotFound => Why::NotThere,
        ErrorKind::PermissionDenied => Why::Forbidden,
        _ => Why::Unknown,
    }
}

// Room for the bytes of the open file by the length that the machine reports. The length is only a hint: whatever it
// is, the file is read to its end.
fn room_for<F: OpenFile>(alloc: Global, file: &F) -> Vec<u8>
    ensures { result.items ≡ [] }
{
    let Ok(metadata) = file.metadata() else {
        return Vec::new(alloc);
    };
    let length = usize::try_from(metadata.len()).unwrap_or(0);
    // One more byte, so that the end is found without more room.
    match Vec::with_capacity(alloc, length.saturating_add(1)) {
        Ok(room) => room,
        Err(_) => Vec::new(alloc),
    }
}

// Whether the entry is not a file. An entry of unknown type counts as a file, so that reading it is what fails.
fn is_passed_over<R: Files>(rt: &R, entry: &DirEntry<R>) -> bool {
    match fs::metadata(rt, entry.path()) {
        Ok(metadata) => !metadata.is_file(),
        Err(_) => false,
    }
}

// The names of the files directly in a folder.
fn files_in<R: Files + AllocGlobal + Clone + Drop>(
    alloc: Global,
    rt: &R,
    path: &str,
) -> Result<Vec<String>, Unread> {
    let mut names = Vec::new(alloc);
    for entry in fs::read_dir(rt, path).map_err(unread)? {
        let entry = entry.map_err(unread)?;
        if !is_passed_over(rt, &entry) {
            let name = String::from_str(alloc, entry.file_name());
            let name = name.map_err(|_| Unread::Memory)?;
            names.push(name).map_err(|_| Unread::Memory)?;
        }
    }
    Ok(names)
}

// Whether a file may be put at the path: there is a plain file, or nothing. Folders, devices and pipes are left as they
// are.
fn is_replaceable<R: Files>(rt: &R, path: &str) -> bool {
    match fs::metadata(rt, path) {
        Ok(metadata) => metadata.is_file(),
        Err(error) => error.kind() == ErrorKind::NotFound,
    }
}

/// How many names are tried for a file beside another one.
const MOST_NAMES: u32 = 100;

// Makes a file beside the path, under a name that no other file has, and returns that name.
fn create_beside<R: Files>(alloc: Global, rt: &R, path: &str) -> Result<(String, R::File), Unread> {
    for number in 0..MOST_NAMES {
        let Ok(beside) = format!(in alloc; "{path}.{number}.tmp") else {
            return Err(Unread::Memory);
        };
        match File::create_new(rt, beside.as_str()) {
            Ok(file) => return Ok((beside, file)),
            Err(error) => match error.kind() {
                ErrorKind::AlreadyExists => {}
                _ => return Err(unread(error)),
            },
        }
    }
    Err(Unread::Fault)
}

// Writes the bytes to the file beside the path, and puts it in the place of the one at the path.
fn put_over<R: Files>(
    rt: &R,
    file: R::File,
    beside: &str,
    path: &str,
    bytes: &[u8],
) -> io::Result<()> {
    let mut file = file;
    file.write_all(bytes)?;
    drop(file);
    fs::rename(rt, beside, path)
}

impl<R: Files + AllocGlobal + Eprint + Clone + Drop> Folder for Machine<'_, R> {
    fn read(&mut self, alloc: Global, path: &str) -> Result<Vec<u8>, Unread> {
        let mut file = File::open(self.rt, path).map_err(unread)?;
        let mut bytes = room_for(alloc, &file);
        file.read_to_end(&mut bytes).map_err(unread)?;
        Ok(bytes)
    }

    fn list(&mut self, alloc: Global, path: &str) -> Result<Vec<String>, Unread> {
        files_in(alloc, self.rt, path)
    }

    fn list_tree(&mut self, alloc: Global, path: &str) -> Result<Vec<String>, Unread> {
        files_below(alloc, self.rt, path)
    }

    fn replace(&mut self, alloc: Global, path: &str, bytes: &[u8]) -> Result<(), Unread> {
        if !is_replaceable(self.rt, path) {
            return Err(Unread::Fault);
        }
        let (beside, file) = create_beside(alloc, self.rt, path)?;
        match put_over(self.rt, file, beside.as_str(), path, bytes) {
            Ok(()) => Ok(()),
            Err(error) => {
                let _ = fs::remove_file(self.rt, beside.as_str());
                Err(unread(error))
            }
        }
    }

    fn make_folders(&mut self, _alloc: Global, path: &str) {
        if let Some(folder) = Path::new(path).parent() {
            let _ = fs::create_dir_all(self.rt, folder);
        }
    }

    fn is_same_file(&self, first: &str, second: &str) -> bool {
        match (
            fs::canonicalize(self.rt, first),
            fs::canonicalize(self.rt, second),
        ) {
            (Ok(first), Ok(second)) => first == second,
            _ => first == second,
        }
    }

    fn announce(&mut self, page: usize, count: usize, template: &str) {
        if self.is_watched {
            let _ = self.rt.eprint(format_args!("liquid: page {page} of {count}: {template}\n"));
        }
    }

    fn why(&mut self, path: &str, is_listed: bool) -> Why {
        match fs::metadata(self.rt, path) {
            Ok(metadata) => match (metadata.is_dir(), is_listed) {
                (true, false) => Why::Folder,
                (false, true) => Why::NoFolder,
                (true, true) => match fs::read_dir(self.rt, path) {
                    Ok(_) => Why::NoText,
                    Err(error) => why_not(error.kind()),
                },
                (false, false) => match File::open(self.rt, path) {
                    Ok(_) => Why::NoText,
                    Err(error) => why_not(error.kind()),
                },
            },
            Err(error) => why_not(error.kind()),
        }
    }
}
