//! The files in a folder and in its subfolders.

use crate::folder::Unread;
use crate::machine::unread;
use std::alloc::Global;
use std::fs::{self, DirEntry};
use std::rt::Files;

/// A folder that is still to be listed: its path within the folder that is asked for, followed by a slash, or nothing.
type Below = String;

/// Returns the paths, within the folder, of the files in it and in its subfolders, in byte order. Links are passed over, so
/// no file outside the folder is among them.
pub(crate) fn files_below<R: Files + AllocGlobal + Clone + Drop>(
    alloc: Global,
    rt: &R,
    folder: &str,
) -> Result<Vec<String>, Unread> {
    let mut files = Vec::new(alloc);
    let mut left: Vec<Below> = Vec::new(alloc);
    left.push(String::new(alloc)).map_err(|_| Unread::Memory)?;
    for _ in 0..u64::MAX {
        let Some(below) = left.pop() else {
            break;
        };
        list_one(alloc, rt, folder, below.as_str(), &mut files, &mut left)?;
    }
    files.sort().map_err(|_| Unread::Memory)?;
    Ok(files)
}

// Adds the files directly in a folder, and the folders in it that are still to be listed.
fn list_one<R: Files + AllocGlobal + Clone + Drop>(
    alloc: Global,
    rt: &R,
    folder: &str,
    below: &str,
    files: &mut Vec<String>,
    left: &mut Vec<Below>,
) -> Result<(), Unread> {
    let path = format!(in alloc; "{folder}/{below}").map_err(|_| Unread::Memory)?;
    for entry in fs::read_dir(rt, path.as_str()).map_err(unread)? {
        let entry = entry.map_err(unread)?;
        match kind_of(&entry) {
            Kind::File => add(alloc, files, below, entry.file_name(), "")?,
            Kind::Folder => add(alloc, left, below, entry.file_name(), "/")?,
            Kind::Other => {}
        }
    }
    Ok(())
}

// What an entry of a folder is.
enum Kind {
    File,
    Folder,
    Other,
}

// An entry of unknown type counts as a file, so that reading it is what fails.
fn kind_of<R: Files>(entry: &DirEntry<R>) -> Kind {
    match entry.file_type() {
        Ok(kind) => if kind.is_dir() {
            Kind::Folder
        } else if kind.is_file() {
            Kind::File
        } else {
            Kind::Other
        },
        Err(_) => Kind::File,
    }
}

fn add(
    alloc: Global,
    paths: &mut Vec<String>,
    below: &str,
    name: &str,
    end: &str,
) -> Result<(), Unread> {
    let path = format!(in alloc; "{below}{name}{end}").map_err(|_| Unread::Memory)?;
    paths.push(path).map_err(|_| Unread::Memory)
}
