//! The files of a theme.
use crate::fault::Fault;
use liquid_pages::PartialBytes;
use std::alloc::{AllocError, Global};
use std::fs::{self, DirEntry, File};
use std::io::Read;
use std::path::AsPath;

/// A page with its data and its partials, as bytes.
#[derive(Drop)]
pub struct Theme {
    pub page: Vec<u8>,
    pub data: Vec<u8>,
    pub parts: Vec<Part>,
}

/// A partial, by its name.
#[derive(Drop)]
pub struct Part {
    pub name: String,
    pub text: Vec<u8>,
}

/// Reads the files of the theme in this folder.
pub fn read_theme(rt: &HostRuntime, folder: &str) -> Result<Theme, Fault> {
    Ok(Theme {
        page: read(rt, folder, "page.liquid")?,
        data: read(rt, folder, "data.json")?,
        parts: read_parts(rt, folder)?,
    })
}

/// Reads a file of a folder.
fn read(rt: &HostRuntime, folder: &str, name: &str) -> Result<Vec<u8>, Fault> {
    let path = format!(in rt.alloc(); "{folder}/{name}")?;
    read_file(rt, path.as_str())
}

fn read_file<P: AsPath>(rt: &HostRuntime, path: P) -> Result<Vec<u8>, Fault> {
    let mut bytes = Vec::new(rt.alloc());
    File::open(rt, path)?.read_to_end(&mut bytes)?;
    Ok(bytes)
}

/// Reads a partial of a folder.
fn read_part(rt: &HostRuntime, entry: &DirEntry) -> Result<Part, Fault> {
    let name = String::from_str(rt.alloc(), entry.file_name())?;
    let text = read_file(rt, entry.path())?;
    Ok(Part { name, text })
}

/// Reads the partials of a folder.
fn read_parts(rt: &HostRuntime, folder: &str) -> Result<Vec<Part>, Fault> {
    let path = format!(in rt.alloc(); "{folder}/parts")?;
    let mut parts = Vec::new(rt.alloc());
    for entry in fs::read_dir(rt, path.as_str())? {
        parts.push(read_part(rt, &entry?)?)?;
    }
    Ok(parts)
}

/// Returns the partials of a theme as the page takes them.
pub fn partials_of(alloc: Global, theme: &Theme) -> Result<Vec<PartialBytes<'_>>, AllocError> {
    let mut partials = Vec::with_capacity(alloc, theme.parts.len())?;
    for part in &theme.parts {
        partials.push(PartialBytes {
            name: part.name.as_str().as_bytes(),
            text: part.text.as_slice(),
        })?;
    }
    Ok(partials)
}
