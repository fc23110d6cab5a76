//! The files of a site: what each becomes, and where that is written.
ghost use Rattle.std.specs.Prelude.{◌≡◌, ◌≢◌, ◌∷◌, ℕ, List, [], map, IfOk, IfErr, OnOk, OnErr, string_bytes};
ghost use Rattle.liquid_value.specs.meaning.View.{object_view};
ghost use Rattle.liquid_files.specs.meaning.Files.{Replaces, Same, also, reading};
ghost use Rattle.page_site.specs.meaning.Answers.{StaysWithin};
ghost use Rattle.page_site.specs.meaning.Faults.{partial_text};
ghost use Rattle.page_site.specs.meaning.Layouts.{IsPage};
ghost use Rattle.page_site.specs.steps.Making.{IsTroubled, IsUnread};
ghost use Rattle.page_site.specs.meaning.Items.{IsMade, IsUnmade, MayBe, WritesItem, WritesItems, item_of};

use crate::engine::Engine;
use crate::fault::{PageFault, SiteFault};
use crate::items::{Item, is_page};
use crate::layouts::{Partials, render_page};
use crate::messages::report;
use liquid_files::{Folder, Unread};
use liquid_value::SharedObject;
use std::alloc::Global;
use std::io::Write;
use std::rc::Rc;

/// What the pages of a site are rendered over.
#[derive(Drop)]
pub struct Site {
    pub names: SharedObject,
    pub partials: Rc<Partials>,
}

/// How many of the files of a site were made so far, and what was written.
#[derive(Clone, Copy, Debug, PartialEq, Eq)]
pub struct Tally {
    /// How many files there are.
    pub count: usize,
    /// How many were made.
    pub made: usize,
    /// How many were written.
    pub written: usize,
    /// How many bytes were written.
    pub bytes: usize,
}

impl Tally {
    /// Returns the tally of so many files before any was made.
    pub fn new(count: usize) -> Tally {
        Tally {
            count,
            made: 0,
            written: 0,
            bytes: 0,
        }
    }

    /// Counts a file that was written.
    fn add(&mut self, bytes: usize) {
        self.written = self.written.saturating_add(1);
        self.bytes = self.bytes.saturating_add(bytes);
    }
}

/// Returns what a file becomes: its page if it is one, and otherwise its bytes.
pub fn make<F: Folder, E: Engine>(
    alloc: Global,
    site: &Site,
    engine: &mut E,
    files: &mut F,
    item: &Item,
) -> Result<Vec<u8>, SiteFault>
    ensures made { IfOk result (λ made. IsMade (E.answers engine.old) (partial_text site.now.partials.value) (object_view site.now.names)
        (F.known files.old) (item_of item.now) made.items) }
    ensures unmade { IfErr result (IsUnmade (E.answers engine.old) (partial_text site.now.partials.value) (object_view site.now.names)
        (F.known files.old) (item_of item.now)) }
    ensures answers { StaysWithin (E.answers engine.old) (E.answers engine.new) }
    ensures same { F.known files.new ≡ F.known files.old }
    ensures requests { F.requests files.new ≡ also (F.requests files.old) (reading (item_of item.now).source ∷ []) }
{
    let bytes = read(alloc, files, item.source.as_str())?;
    if !is_page(item, bytes.as_slice()) {
        return Ok(bytes);
    }
    match String::from_utf8(bytes) {
        Ok(text) => make_page(alloc, site, engine, item.source.as_str(), text.as_str()),
        Err(_) => Err(SiteFault::NoText(item.source.clone()?)),
    }
}

/// Returns the bytes of a file.
pub(crate) fn read<F: Folder>(
    alloc: Global,
    files: &mut F,
    path: &str,
) -> Result<Vec<u8>, SiteFault>
    ensures bytes { IfOk result (λ bytes. MayBe (F.known files.old path.now) bytes.items) }
    ensures unread { IfErr result (λ fault. IsUnread fault (F.known files.old path.now)) }
    ensures same { F.known files.new ≡ F.known files.old }
    ensures listed { F.listed files.new ≡ F.listed files.old }
    ensures requests { F.requests files.new ≡ also (F.requests files.old) (reading path.now ∷ []) }
{
    match files.read(alloc, path) {
        Ok(bytes) => Ok(bytes),
        Err(Unread::Memory) => Err(SiteFault::Page(PageFault::Memory)),
        Err(Unread::Fault) => match String::from_str(alloc, path) {
            Ok(path) => Err(SiteFault::Unreadable(path)),
            Err(_) => Err(SiteFault::Page(PageFault::Memory)),
        },
    }
}

/// Returns the page of a text.
fn make_page<E: Engine>(
    alloc: Global,
    site: &Site,
    engine: &mut E,
    path: &str,
    text: &str,
) -> Result<Vec<u8>, SiteFault>
    ensures page { IfOk result (λ made. IsPage (E.answers engine.old) (partial_text site.now.partials.value) (object_view site.now.names)
        text.now made.items) }
    ensures trouble { IfErr result (λ fault. IsTroubled (E.answers engine.old) (partial_text site.now.partials.value)
        (object_view site.now.names) text.now fault) }
    ensures answers { StaysWithin (E.answers engine.old) (E.answers engine.new) }
{
    match render_page(alloc, engine, &site.partials, &site.names, path, text) {
        Ok(page) => Ok(page.into_bytes()),
        Err(fault) => Err(SiteFault::Page(fault)),
    }
}

/// Writes what a file becomes to its target, and says so where someone may watch. If that can't be done, all files stay as
/// they are.
pub fn write_item<F: Folder, E: Engine>(
    alloc: Global,
    site: &Site,
    engine: &mut E,
    files: &mut F,
    item: &Item,
    tally: &mut Tally,
) -> Result<(), SiteFault>
    ensures written { OnOk result ((made : List ℕ) × IsMade (E.answers engine.old) (partial_text site.now.partials.value)
        (object_view site.now.names) (F.known files.old) (item_of item.now) made
        × Replaces (F.known files.old) (F.known files.new) (item_of item.now).target made) }
    ensures kept { OnErr result (Same (F.known files.old) (F.known files.new)) }
    ensures answers { StaysWithin (E.answers engine.old) (E.answers engine.new) }
    ensures requests { F.requests files.new ≡ also (F.requests files.old) (reading (item_of item.now).source ∷ []) }
{
    let made = make(alloc, site, engine, files, item)?;
    let (source, target) = (item.source.as_str(), item.target.as_str());
    tally.made = tally.made.saturating_add(1);
    files.announce(tally.made, tally.count, source);
    if files.is_same_file(source, target) {
        return Err(SiteFault::OwnFile(item.target.clone()?));
    }
    files.make_folders(alloc, target);
    match files.replace(alloc, target, made.as_slice()) {
        Ok(()) => {
            tally.add(made.len());
            Ok(())
        }
        Err(Unread::Memory) => Err(SiteFault::Page(PageFault::Memory)),
        Err(Unread::Fault) => Err(SiteFault::Unwritable(item.target.clone()?)),
    }
}

/// Writes the files of a site, and a line to `err` for each that is not written. Returns the first status that isn't 0.
pub fn write_items<F: Folder, E: Engine, W: Write>(
    alloc: Global,
    site: &Site,
    engine: &mut E,
    files: &mut F,
    items: &[Item],
    tally: &mut Tally,
    err: &mut W,
) -> u8
    ensures written { WritesItems (E.answers engine.old) (partial_text site.now.partials.value) (object_view site.now.names)
        (map item_of items.now) (F.known files.old) (F.known files.new) 0 result }
    ensures requests { F.requests files.new ≡ also (F.requests files.old) (map (λ item. reading item.source) (map item_of items.now)) }
    ensures quiet { result ≡ 0 → err.new ≡ err.old }
{
    write_each(alloc, site, engine, files, items, 0, tally, err)
}

/// Writes these files, after earlier ones that had this status.
fn write_each<F: Folder, E: Engine, W: Write>(
    alloc: Global,
    site: &Site,
    engine: &mut E,
    files: &mut F,
    items: &[Item],
    status: u8,
    tally: &mut Tally,
    err: &mut W,
) -> u8
    ensures written { WritesItems (E.answers engine.old) (partial_text site.now.partials.value) (object_view site.now.names)
        (map item_of items.now) (F.known files.old) (F.known files.new) status result }
    ensures requests { F.requests files.new ≡ also (F.requests files.old) (map (λ item. reading item.source) (map item_of items.now)) }
    ensures first { status ≢ 0 → result ≡ status }
    ensures quiet { result ≡ 0 → err.new ≡ err.old }
{
    match items.split_first() {
        None => status,
        Some((item, rest)) => {
            let one = write_one(alloc, site, engine, files, item, tally, err);
            let status = if status == 0 { one } else { status };
            write_each(alloc, site, engine, files, rest, status, tally, err)
        }
    }
}

/// Writes a file, or its fault to `err`. Returns its status.
fn write_one<F: Folder, E: Engine, W: Write>(
    alloc: Global,
    site: &Site,
    engine: &mut E,
    files: &mut F,
    item: &Item,
    tally: &mut Tally,
    err: &mut W,
) -> u8
    ensures written { WritesItem (E.answers engine.old) (partial_text site.now.partials.value) (object_view site.now.names)
        (item_of item.now) (F.known files.old) (F.known files.new) result }
    ensures answers { StaysWithin (E.answers engine.old) (E.answers engine.new) }
    ensures requests { F.requests files.new ≡ also (F.requests files.old) (reading (item_of item.now).source ∷ []) }
    ensures quiet { result ≡ 0 → err.new ≡ err.old }
{
    let answer = write_item(alloc, site, engine, files, item, tally);
    report(files, item.source.as_str(), answer, err)
}
