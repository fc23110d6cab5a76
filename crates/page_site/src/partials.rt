//! The partials in a folder.
ghost use Rattle.std.specs.Prelude.{◌≡◌, ◌∷◌, ◌++◌, if◌then◌else◌, ℕ, Bool, List, [], Option, Some, true};
ghost use Rattle.std.specs.Prelude.{codes, is_ok, map, string_bytes, IfErr, IfOk};
ghost use Rattle.std.specs.Str.{bytes_eq};
ghost use Rattle.liquid_files.specs.meaning.Files.{also, known_in, listed_in, listing, reading};
ghost use Rattle.page_site.specs.meaning.Faults.{partial_text};
ghost use Rattle.page_site.specs.meaning.Items.{IsBlank, MayBe, file_in};
ghost use Rattle.page_site.specs.meaning.Partials.{partial_in, partial_name};
ghost use Rattle.page_site.specs.meaning.Requested.{Follows, partial_requests};

use crate::fault::{PageFault, SiteFault};
use crate::items::page_name;
use crate::layouts::Partials;
use crate::writing::read;
use liquid_files::{Folder, Unread};
use std::alloc::{AllocError, Global};
use std::collections::BTreeMap;

/// What the partials of a folder are called.
#[derive(Clone, Copy, Debug, PartialEq, Eq)]
pub enum PartialNames {
    /// By the paths of their files in the folder, without the ending `.liquid`.
    WithoutEnding,
    /// By the whole paths of their files in the folder.
    WholePaths,
}

/// Returns the partials in a folder and its subfolders: the text of each file, under the name that its path gives.
pub fn read_partials<F: Folder>(
    alloc: Global,
    files: &mut F,
    called: PartialNames,
    folder: &str,
) -> Result<Partials, SiteFault>
    ensures partials { (all : List ℕ → Option (List ℕ)) (folders : Bool → List ℕ → Option (List (List ℕ)))
        → F.known files.old ≡ known_in all → F.listed files.old ≡ listed_in folders
        → IfOk result (λ partials. (names : List (List ℕ)) × (folders true folder.now ≡ Some names)
        × ((name : List ℕ) → partial_text partials name ≡ partial_in called all folder.now names name)) }
    ensures same { F.known files.new ≡ F.known files.old }
    ensures listed { F.listed files.new ≡ F.listed files.old }
    ensures requests { (folders : Bool → List ℕ → Option (List (List ℕ))) → F.listed files.old ≡ listed_in folders
        → Follows (partial_requests folders folder.now) (F.requests files.old) (F.requests files.new) (is_ok result) }
{
    match files.list_tree(alloc, folder) {
        Ok(names) => read_each(alloc, files, called, folder, names),
        Err(Unread::Memory) => Err(SiteFault::Page(PageFault::Memory)),
        Err(Unread::Fault) => Err(SiteFault::Unreadable(String::from_str(alloc, folder)?)),
    }
}

/// Returns the partials of these names in a folder.
fn read_each<F: Folder>(
    alloc: Global,
    files: &mut F,
    called: PartialNames,
    folder: &str,
    names: Vec<String>,
) -> Result<Partials, SiteFault>
    ensures partials { (all : List ℕ → Option (List ℕ)) → F.known files.old ≡ known_in all → IfOk result (λ partials.
        (name : List ℕ) → partial_text partials name ≡ partial_in called all folder.now (map string_bytes names.items) name) }
    ensures same { F.known files.new ≡ F.known files.old }
    ensures listed { F.listed files.new ≡ F.listed files.old }
    ensures requests { Follows (map (λ name. reading (file_in folder.now name)) (map string_bytes names.items))
        (F.requests files.old) (F.requests files.new) (is_ok result) }
{
    let mut partials = BTreeMap::new(alloc);
    for name in names {
        let path = file_in(alloc, folder, name.as_str())?;
        let text = read_text(alloc, files, path.as_str())?;
        add(
            alloc,
            &mut partials,
            partial_name(called, name.as_str()),
            text,
        )?;
    }
    Ok(partials)
}

/// Returns what the partial in a file of this path is called.
fn partial_name(called: PartialNames, path: &str) -> &str
    ensures { result.now ≡ partial_name called path.now }
{
    match called {
        PartialNames::WithoutEnding => page_name(path),
        PartialNames::WholePaths => path,
    }
}

/// Puts the text of a partial at its name.
fn add(alloc: Global, partials: &mut Partials, name: &str, text: String) -> Result<(), AllocError>
    ensures { IfOk result (λ _. (q : List ℕ) → partial_text partials.new q
        ≡ (if bytes_eq name.now q then Some (string_bytes text) else partial_text partials.old q)) }
{
    drop(partials.insert(String::from_str(alloc, name)?, text)?);
    Ok(())
}

/// Returns the path of a file in a folder.
fn file_in(alloc: Global, folder: &str, name: &str) -> Result<String, AllocError>
    ensures { IfOk result (λ path. string_bytes path ≡ file_in folder.now name.now) }
{
    format!(in alloc; "{folder}/{name}")
}

/// Returns the text of a file.
pub fn read_text<F: Folder>(alloc: Global, files: &mut F, path: &str) -> Result<String, SiteFault>
    ensures text { IfOk result (λ text. MayBe (F.known files.old path.now) (string_bytes text)) }
    ensures unread { IfErr result (λ fault. IsBlank fault (F.known files.old path.now)) }
    ensures same { F.known files.new ≡ F.known files.old }
    ensures listed { F.listed files.new ≡ F.listed files.old }
    ensures requests { F.requests files.new ≡ also (F.requests files.old) (reading path.now ∷ []) }
{
    let bytes = read(alloc, files, path)?;
    match String::from_utf8(bytes) {
        Ok(text) => Ok(text),
        Err(_) => Err(SiteFault::NoText(String::from_str(alloc, path)?)),
    }
}
