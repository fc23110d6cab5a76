//! Pages that are made again when a file changes.

use crate::page::{make_pages, out_of_memory};
use liquid_core::{Discreet, Language, ParseBlock, ParseFilter, ParseTag};
use liquid_files::{Folder, Machine, Unread};
use liquid_page::names::{data_path, path_named};
use liquid_page::{Request, Rewrite};
use liquid_std::marks::Marks;
use std::alloc::{AllocError, AllocFailed};
use std::collections::BTreeMap;
use std::io::Input;
use std::rc::Rc;
use std::rt::Files;
use std::time::SystemTime;

/// When a file was changed, and how many bytes it has, as far as the machine says.
#[derive(Clone, Copy, Drop)]
struct Stamp {
    modified: Option<SystemTime>,
    bytes: u64,
}

/// The files that pages are made of.
type Stamps = BTreeMap<String, Stamp>;

/// Makes the pages of a request, and again after each line of standard input before which a file was changed, added or
/// removed. Returns the status of the last pages when the input ends.
pub(crate) fn watch<R, F, T, B>(
    rt: &HostRuntime,
    request: &Request<'_>,
    language: &Rc<Language<F, T, B>>,
) -> u8
where
    R: Rewrite,
    F: ParseFilter,
    T: ParseTag<F>,
    B: ParseBlock<F>,
    T::Node: Discreet<Marks>,
    B::Node: Discreet<Marks>,
{
    let Ok(mut seen) = stamps_of(rt, request) else {
        return out_of_memory(rt);
    };
    let mut status = remake::<R, F, T, B>(rt, request, language);
    for line in rt.lines(rt.alloc()) {
        if line.is_err() {
            break;
        }
        let Ok(stamps) = stamps_of(rt, request) else {
            return out_of_memory(rt);
        };
        if say_changes(rt, &seen, &stamps) {
            status = remake::<R, F, T, B>(rt, request, language);
        }
        seen = stamps;
    }
    status
}

/// Makes the pages of a request.
fn remake<R, F, T, B>(
    rt: &HostRuntime,
    request: &Request<'_>,
    language: &Rc<Language<F, T, B>>,
) -> u8
where
    R: Rewrite,
    F: ParseFilter,
    T: ParseTag<F>,
    B: ParseBlock<F>,
    T::Node: Discreet<Marks>,
    B::Node: Discreet<Marks>,
{
    match language.clone() {
        Ok(language) => make_pages::<R, F, T, B>(rt, request, language),
        Err(_) => out_of_memory(rt),
    }
}

/// Prints the names of the files that differ, and returns whether there are any.
fn say_changes(rt: &HostRuntime, before: &Stamps, after: &Stamps) -> bool {
    let mut differs = false;
    for (path, stamp) in after {
        let is_same = match before.get(path.as_str()) {
            Some(old) => old.bytes == stamp.bytes && old.modified == stamp.modified,
            None => false,
        };
        if !is_same {
            differs = true;
            let _ = rt.eprint(format_args!("liquid: {path} has changed\n"));
        }
    }
    for path in before.keys() {
        if !after.contains_key(path.as_str()) {
            differs = true;
            let _ = rt.eprint(format_args!("liquid: {path} is gone\n"));
        }
    }
    differs
}

/// Returns the files that the pages of a request are made of.
fn stamps_of(rt: &HostRuntime, request: &Request<'_>) -> Result<Stamps, AllocError> {
    let mut stamps = BTreeMap::new(rt.alloc());
    for word in &request.data_words {
        add_file(rt, data_path(*word), &mut stamps)?;
    }
    if let Some(folder) = request.folder {
        add_tree(rt, folder, &mut stamps)?;
    }
    for word in &request.templates {
        add_tree(rt, path_named(*word), &mut stamps)?;
    }
    Ok(stamps)
}

/// Adds the files in a folder, or else the file at the path.
fn add_tree(rt: &HostRuntime, path: &str, stamps: &mut Stamps) -> Result<(), AllocError> {
    let mut files = Machine {
        rt,
        is_watched: false,
    };
    match files.list_tree(rt.alloc(), path) {
        Ok(names) => {
            for name in names {
                let file = format!(in rt.alloc(); "{path}/{name}")?;
                add_file(rt, file.as_str(), stamps)?;
            }
            Ok(())
        }
        Err(Unread::Memory) => Err(AllocError),
        Err(Unread::Fault) => add_file(rt, path, stamps),
    }
}

/// Adds a file, if it is there.
fn add_file(rt: &HostRuntime, path: &str, stamps: &mut Stamps) -> Result<(), AllocError> {
    if let Ok(metadata) = rt.metadata(path) {
        let stamp = Stamp {
            modified: metadata.modified().ok(),
            bytes: metadata.len(),
        };
        stamps.insert(String::from_str(rt.alloc(), path)?, stamp)?;
    }
    Ok(())
}
