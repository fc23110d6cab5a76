//! The files that become pages, and where each goes.
ghost use Rattle.std.specs.Prelude.{◌≡◌, ◌++◌, ℕ, Bool, List, Option, flat_map, is_ok, map, true, IfOk, OnOk, Some, string_bytes};
ghost use Rattle.liquid_files.specs.meaning.Files.{listed_in, listing};
ghost use Rattle.page_site.specs.meaning.Items.{item_of, items_at};
ghost use Rattle.page_site.specs.meaning.Requested.{Follows};
ghost use Rattle.liquid_page.specs.meaning.Command.{at_output, is_folder, items_for, output_folder, sent_to};
ghost use Rattle.liquid_page.specs.meaning.Names.{path_named, text_given};

use crate::names::path_named;
use liquid_files::Folder;
use page_site::{Item, add_items};
use std::alloc::{AllocError, Global};

/// Returns the files that these words name, and where each goes.
pub(crate) fn plan<F: Folder>(
    alloc: Global,
    files: &mut F,
    output: Option<&str>,
    words: &[&str],
) -> Result<Vec<Item>, AllocError>
    ensures items { (folders : Bool → List ℕ → Option (List (List ℕ))) → F.listed files.old ≡ listed_in folders
        → IfOk result (λ items. map item_of items.items ≡ at_output (text_given output.entry)
        (flat_map (items_for folders (text_given output.entry)) (map (λ word. word.now) words.now))) }
    ensures same { F.known files.new ≡ F.known files.old }
    ensures requests { Follows (map (λ word. listing true (path_named word)) (map (λ word. word.now) words.now))
        (F.requests files.old) (F.requests files.new) (is_ok result) }
{
    let folder = output_folder(alloc, output)?;
    let mut items = Vec::new(alloc);
    add_all(alloc, files, folder.as_str(), words, &mut items)?;
    match output {
        Some(output) => send_to(alloc, output, items),
        None => Ok(items),
    }
}

/// Returns what comes before the names of pages in the output.
fn output_folder(alloc: Global, output: Option<&str>) -> Result<String, AllocError>
    ensures { IfOk result (λ folder. string_bytes folder ≡ output_folder (text_given output.entry)) }
{
    match output {
        Some(output) => if is_folder(output) {
            String::from_str(alloc, output)
        } else {
            format!(in alloc; "{output}/")
        },
        None => Ok(String::new(alloc)),
    }
}

/// Returns whether a path names a folder, by its end.
pub(crate) fn is_folder(path: &str) -> bool
    ensures { result ≡ is_folder path.now }
{
    path.as_bytes().ends_with(b"/")
}

/// Adds the files that these words name.
fn add_all<F: Folder>(
    alloc: Global,
    files: &mut F,
    folder: &str,
    words: &[&str],
    items: &mut Vec<Item>,
) -> Result<(), AllocError>
    ensures items { (folders : Bool → List ℕ → Option (List (List ℕ))) → F.listed files.old ≡ listed_in folders → OnOk result
        (map item_of items.new.items ≡ map item_of items.old.items
        ++ flat_map (λ word. items_at folder.now (path_named word) (folders true (path_named word))) (map (λ word. word.now) words.now)) }
    ensures same { F.known files.new ≡ F.known files.old }
    ensures requests { Follows (map (λ word. listing true (path_named word)) (map (λ word. word.now) words.now))
        (F.requests files.old) (F.requests files.new) (is_ok result) }
{
    match words.split_first() {
        Some((word, rest)) => {
            add_items(alloc, files, folder, path_named(*word), items)?;
            add_all(alloc, files, folder, rest, items)
        }
        None => Ok(()),
    }
}

/// Sends one template to the output itself, unless that is named as a folder.
fn send_to(alloc: Global, output: &str, items: Vec<Item>) -> Result<Vec<Item>, AllocError>
    ensures { IfOk result (λ sent. map item_of sent.items ≡ at_output (Some output.now) (map item_of items.items)) }
{
    let mut items = items;
    if let [item] = items.as_mut_slice() {
        if item.is_template && !is_folder(output) {
            item.target = String::from_str(alloc, output)?;
        }
    }
    Ok(items)
}
