//! The files of a site, as tags find them.
ghost use Rattle.std.specs.Prelude.{◌≡◌, codes, option_map, map, string_bytes, IfOk};
ghost use Rattle.liquid_jekyll.specs.meaning.url.Cuts.{cut_last};
ghost use Rattle.std.specs.List.{list_all};
ghost use Rattle.liquid_value.specs.meaning.View.{items_view, view as tree_of};
ghost use Rattle.jekyll_tags.specs.meaning.Files as Spec;

use crate::seen::{member, text_member};
use liquid_core::Value;
use liquid_core::model::Array;
use memchr::memmem;
use std::alloc::{AllocError, Global};

/// What the path of a file is.
#[derive(Drop)]
pub enum Wanted {
    /// One of these two.
    File(String, String),
    /// One of these two, and an ending without a point.
    Post(String, String),
}

/// Returns what the path of a file of this name is: the name, perhaps after a slash.
pub(crate) fn file_wanted(alloc: Global, name: &str) -> Result<Wanted, AllocError>
    ensures { IfOk result (λ wanted. Spec.fits wanted ≡ Spec.is_file name.now) }
{
    let slashed = format!(in alloc; "/{name}")?;
    Ok(Wanted::File(String::from_str(alloc, name)?, slashed))
}

/// Returns what the path of a post of this name is, perhaps after a slash: in the folder of the name in `_posts`, or in
/// `_posts` in that folder.
pub(crate) fn post_wanted(alloc: Global, name: &str) -> Result<Wanted, AllocError>
    ensures { IfOk result (λ wanted. Spec.fits wanted ≡ Spec.is_post name.now) }
{
    post_named(alloc, without_slash(name))
}

fn post_named(alloc: Global, name: &str) -> Result<Wanted, AllocError>
    ensures { IfOk result (λ wanted. Spec.fits wanted ≡ Spec.is_post_named name.now) }
{
    let inside = format!(in alloc; "_posts/{name}.")?;
    let around = around(alloc, name)?;
    Ok(Wanted::Post(inside, around))
}

/// Returns the path of a post of this name, without its ending, in `_posts` in the folder of the name.
fn around(alloc: Global, name: &str) -> Result<String, AllocError>
    ensures { IfOk result (λ t. string_bytes t ≡ Spec.around name.now (cut_last (codes "/") name.now)) }
{
    match cut_last(name, "/") {
        Some((folder, file)) => format!(in alloc; "{folder}/_posts/{file}."),
        None => format!(in alloc; "_posts/{name}."),
    }
}

/// Returns the text before the last place of the mark, and what follows it, if there is one.
fn cut_last<'t>(text: &'t str, mark: &str) -> Option<(&'t str, &'t str)>
    ensures { option_map (λ p. (p.0.now, p.1.now)) result ≡ cut_last mark.now text.now }
{
    match memmem::rfind(text.as_bytes(), mark.as_bytes()) {
        Some(at) => Some((&text[..at], &text[at + mark.len()..])),
        None => None,
    }
}

/// Returns the text without a slash at its start.
#[tactic(auto, using(crate::proofs::FileLemmas::cuts_slash))]
fn without_slash(text: &str) -> &str
    ensures { result.now ≡ Spec.without_slash text.now }
{
    if text.as_bytes().starts_with(b"/") {
        &text[1..]
    } else {
        text
    }
}

/// Returns `true` if a path is what is wanted.
fn fits(wanted: &Wanted, path: &str) -> bool
    ensures { result ≡ Spec.fits wanted.now path.now }
{
    match wanted {
        Wanted::File(name, slashed) => path == name.as_str() || path == slashed.as_str(),
        Wanted::Post(front, other) => {
            has_ending(front.as_str(), path) || has_ending(other.as_str(), path)
        }
    }
}

/// Returns `true` if a path is this text, and after it an ending without a point.
fn has_ending(front: &str, path: &str) -> bool
    ensures { result ≡ Spec.has_ending front.now path.now }
{
    let (front, path) = (front.as_bytes(), path.as_bytes());
    path.starts_with(front) && is_ending(&path[front.len()..])
}

fn is_ending(text: &[u8]) -> bool
    ensures { result ≡ Spec.is_ending text.now }
{
    !text.is_empty() && has_no_point(text)
}

fn has_no_point(text: &[u8]) -> bool
    ensures { result ≡ list_all Spec.is_no_point text.now }
{
    text.iter().all(|byte| *byte != b'.')
}

/// Returns the URL of a file whose path is what is wanted, or its path if it has none.
fn url_if<'v>(wanted: &Wanted, file: &'v Value) -> Option<&'v str>
    ensures { option_map (λ url. url.now) result ≡ Spec.url_if (Spec.fits wanted.now) (tree_of file.now) }
{
    let path = text_member(file, "path")?;
    if !fits(wanted, path) {
        return None;
    }
    match text_member(file, "url") {
        Some(url) => Some(url),
        None => Some(path),
    }
}

/// Returns the URL of the first file that is wanted.
fn first_url<'v>(wanted: &Wanted, files: &'v [Value]) -> Option<&'v str>
    ensures { option_map (λ url. url.now) result ≡ Spec.first_url (Spec.fits wanted.now) (map tree_of files.now) }
{
    for file in files {
        if let Some(url) = url_if(wanted, file) {
            return Some(url);
        }
    }
    None
}

/// Returns the URL of the last file that is wanted.
#[tactic(auto, using(crate::proofs::FileLemmas::last))]
fn last_url<'v>(wanted: &Wanted, files: &'v [Value]) -> Option<&'v str>
    ensures { option_map (λ url. url.now) result ≡ Spec.last_url (Spec.fits wanted.now) (map tree_of files.now) }
{
    let mut found = None;
    for file in files {
        if let Some(url) = url_if(wanted, file) {
            found = Some(url);
        }
    }
    found
}

/// Returns the URL of the first file that is wanted in a list of the site.
pub(crate) fn file_url<'v>(site: &'v Value, list: &str, wanted: &Wanted) -> Option<&'v str>
    ensures { option_map (λ url. url.now) result ≡ Spec.file_url (Spec.fits wanted.now) list.now (tree_of site.now) }
{
    match files_in(site, list) {
        Some(files) => first_url(wanted, files.as_slice()),
        None => None,
    }
}

/// Returns the URL of the oldest post that is wanted. The newest one is the first in the list of the site.
pub(crate) fn post_url<'v>(site: &'v Value, wanted: &Wanted) -> Option<&'v str>
    ensures { option_map (λ url. url.now) result ≡ Spec.post_url (Spec.fits wanted.now) (tree_of site.now) }
{
    match files_in(site, "posts") {
        Some(files) => last_url(wanted, files.as_slice()),
        None => None,
    }
}

/// Returns a list of the site, if it has one of this name.
fn files_in<'v>(site: &'v Value, list: &str) -> Option<&'v Array>
    ensures { option_map (λ files. items_view files.now.items) result ≡ Spec.files_in list.now (tree_of site.now) }
{
    match member(site, list) {
        Some(value) => value.as_array(),
        None => None,
    }
}
