//! The files of a site, and where each goes.
ghost use Rattle.std.specs.Prelude.{◌≡◌, ◌∷◌, ◌++◌, ℕ, Bool, List, [], Option, true, map, IfOk, OnOk, string_bytes};
ghost use Rattle.liquid_files.specs.meaning.Files.{also, listed_in, listing};
ghost use Rattle.page_site.specs.meaning.Items.{has_front, is_page, item_in, item_of, items_at, page_name, without_mark};

use liquid_files::{Folder, Unread};
use std::alloc::{AllocError, Global};
use std::collections::BTreeSet;
use std::path::Path;

/// A file of a site.
#[derive(Debug, Drop)]
pub struct Item {
    /// The path of the file.
    pub source: String,
    /// The path that its page or its copy goes to.
    pub target: String,
    /// Whether it is a template whatever its name.
    pub is_template: bool,
}

/// Returns the name of a page, by that of its template: without the ending `.liquid`.
#[tactic(auto, using(crate::proofs::PageNames::page_names))]
pub fn page_name(name: &str) -> &str
    ensures { result.now ≡ page_name name.now }
{
    match name.strip_suffix(".liquid") {
        Some(stem) => stem,
        None => name,
    }
}

/// Adds the files that a word names, each with the path below `output` that it goes to: those of the folder at that path,
/// or else the template at it.
pub fn add_items<F: Folder>(
    alloc: Global,
    files: &mut F,
    output: &str,
    word: &str,
    items: &mut Vec<Item>,
) -> Result<(), AllocError>
    ensures items { (folders : Bool → List ℕ → Option (List (List ℕ))) → F.listed files.old ≡ listed_in folders → OnOk result
        (map item_of items.new.items ≡ map item_of items.old.items ++ items_at output.now word.now (folders true word.now)) }
    ensures same { F.known files.new ≡ F.known files.old }
    ensures listed { F.listed files.new ≡ F.listed files.old }
    ensures requests { F.requests files.new ≡ also (F.requests files.old) (listing true word.now ∷ []) }
{
    match files.list_tree(alloc, word) {
        Ok(names) => add_folder(alloc, output, word, names, items),
        Err(Unread::Memory) => Err(AllocError),
        Err(Unread::Fault) => add_file(alloc, output, word, items),
    }
}

/// Adds the template at a path.
fn add_file(
    alloc: Global,
    output: &str,
    word: &str,
    items: &mut Vec<Item>,
) -> Result<(), AllocError>
    ensures { OnOk result (map item_of items.new.items ≡ map item_of items.old.items ++ items_at output.now word.now None) }
{
    let name = Path::new(word).file_name().unwrap_or("");
    let item = Item {
        source: String::from_str(alloc, word)?,
        target: join(alloc, output, page_name(name))?,
        is_template: true,
    };
    items.push(item)?;
    Ok(())
}

/// Adds the files of these names in a folder.
fn add_folder(
    alloc: Global,
    output: &str,
    folder: &str,
    names: Vec<String>,
    items: &mut Vec<Item>,
) -> Result<(), AllocError>
    ensures { OnOk result (map item_of items.new.items
        ≡ map item_of items.old.items ++ map (item_in output.now folder.now) (map string_bytes names.items)) }
{
    for name in names {
        items.push(item_in(alloc, output, folder, name.as_str())?)?;
    }
    Ok(())
}

/// Returns the file of this name in a folder.
fn item_in(alloc: Global, output: &str, folder: &str, name: &str) -> Result<Item, AllocError>
    ensures { IfOk result (λ item. item_of item ≡ item_in output.now folder.now name.now) }
{
    Ok(Item {
        source: format!(in alloc; "{folder}/{name}")?,
        target: join(alloc, output, page_name(name))?,
        is_template: false,
    })
}

fn join(alloc: Global, output: &str, name: &str) -> Result<String, AllocError>
    ensures { IfOk result (λ path. string_bytes path ≡ output.now ++ name.now) }
{
    format!(in alloc; "{output}{name}")
}

/// Returns the bytes after a byte order mark, if there is one.
pub(crate) fn without_mark(bytes: &[u8]) -> &[u8]
    ensures { result.now ≡ without_mark bytes.now }
{
    match bytes.strip_prefix(b"\xef\xbb\xbf") {
        Some(rest) => rest,
        None => bytes,
    }
}

/// Returns whether a text begins as front matter does, after a byte order mark or without one.
fn has_front(bytes: &[u8]) -> bool
    ensures { result ≡ has_front bytes.now }
{
    let bytes = without_mark(bytes);
    bytes.starts_with(b"---\n")
        || bytes.starts_with(b"---\r")
        || bytes.starts_with(b"+++\n")
        || bytes.starts_with(b"+++\r")
}

/// Returns whether a file with these bytes becomes a page. Any other file is copied.
pub fn is_page(item: &Item, bytes: &[u8]) -> bool
    ensures { result ≡ is_page (item_of item.now) bytes.now }
{
    item.is_template || item.source.as_str().as_bytes().ends_with(b".liquid") || has_front(bytes)
}

/// Returns a path that two of the files go to, if there is one.
pub fn find_clash<'i>(alloc: Global, items: &'i [Item]) -> Result<Option<&'i str>, AllocError> {
    let mut targets: BTreeSet<&'i str> = BTreeSet::new(alloc);
    for item in items {
        let target = item.target.as_str();
        if !targets.insert(target)? {
            return Ok(Some(target));
        }
    }
    Ok(None)
}
