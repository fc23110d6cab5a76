//! Views of maps without an order of their own. They are shown in byte order of their names.
ghost use Rattle.std.specs.Prelude.{◌≡◌, refl, map, option_map, IfOk};
ghost use Rattle.liquid_value.specs.meaning.Names.{names};
ghost use Rattle.liquid_value.specs.meaning.Members.{get_member};
ghost use Rattle.std.specs.Fmt.{WritesOnOk};
ghost use Rattle.liquid_value.specs.meaning.Render.{source, render_members, listed_members};
ghost use Rattle.liquid_value.specs.meaning.Tree.{no_members, object};
ghost use Rattle.liquid_value.specs.meaning.View.{members_view};
ghost use Rattle.liquid_views.specs.meaning.Entries.{put_entries, index_members};

use crate::kind::ViewKind;
use crate::object::{ObjectView, list_member, write_member};
use crate::view::ValueView;
use liquid_value::{Object, SharedObject, Value, ValueCow};
use std::alloc::{AllocError, Global};
use std::collections::{BTreeMap, HashMap};
use std::fmt;

/// Printing takes memory for an index of the names, from the allocator of the first of them.
impl<V: ValueView> ValueView for HashMap<String, V> {
    ghost tree = { λ m. object (put_entries V.tree m.entries no_members) };

    #[tactic(auto, using(crate::proofs::HashMaps::has_no_members_of_entries))]
    fn kind(&self) -> ViewKind<'_> {
        ViewKind::Object(self.is_empty())
    }

    fn to_value(&self, alloc: Global) -> Result<Value, AllocError> {
        let object = copy_entries(alloc, self)?;
        Ok(Value::Object(SharedObject::shared(alloc, object)?))
    }

    fn write_render<W: fmt::Write>(&self, f: &mut fmt::Formatter<W>) -> fmt::Result {
        match self.iter().next() {
            Some((first, _)) => write_index(&index_of(*first.allocator(), self)?, f),
            None => Ok(()),
        }
    }

    fn write_source<W: fmt::Write>(&self, f: &mut fmt::Formatter<W>) -> fmt::Result {
        match self.iter().next() {
            Some((first, _)) => write_index_source(&index_of(*first.allocator(), self)?, f),
            None => f.write_str("{}"),
        }
    }
}

fn copy_entries<V: ValueView>(alloc: Global, map: &HashMap<String, V>) -> Result<Object, AllocError>
    ensures { IfOk result (λ m. members_view m.entries ≡ put_entries V.tree map.now.entries no_members) }
{
    let mut copies = Object::new(alloc);
    for (key, member) in map.iter() {
        let name = key.clone()?;
        drop(copies.insert(name, member.to_value(alloc)?)?);
    }
    Ok(copies)
}

// Returns the names and values of the map, borrowed, in byte order of the names.
fn index_of<'m, V: ValueView>(
    alloc: Global,
    map: &'m HashMap<String, V>,
) -> Result<BTreeMap<&'m str, &'m V>, AllocError>
    ensures { IfOk result (λ index. index_members V.tree index.entries ≡ put_entries V.tree map.now.entries no_members) }
{
    let mut index = BTreeMap::new(alloc);
    for (key, member) in map.iter() {
        let _ = index.insert(key.as_str(), member)?;
    }
    Ok(index)
}

fn write_index<V: ValueView, W: fmt::Write>(
    index: &BTreeMap<&str, &V>,
    f: &mut fmt::Formatter<W>,
) -> fmt::Result
    ensures { WritesOnOk W.write_str_gives f.old result (render_members (index_members V.tree index.now.entries)) f.new }
{
    for (key, member) in index.iter() {
        write_member(key, *member, f)?;
    }
    Ok(())
}

fn list_index<V: ValueView, W: fmt::Write>(
    index: &BTreeMap<&str, &V>,
    f: &mut fmt::Formatter<W>,
) -> fmt::Result
    ensures { WritesOnOk W.write_str_gives f.old result (listed_members (index_members V.tree index.now.entries)) f.new }
{
    for (key, member) in index.iter() {
        list_member(key, *member, f)?;
    }
    Ok(())
}

fn write_index_source<V: ValueView, W: fmt::Write>(
    index: &BTreeMap<&str, &V>,
    f: &mut fmt::Formatter<W>,
) -> fmt::Result
    ensures { WritesOnOk W.write_str_gives f.old result (source (object (index_members V.tree index.now.entries))) f.new }
{
    f.write_str("{")?;
    list_index(index, f)?;
    f.write_str("}")
}

impl<V: ValueView> ObjectView for HashMap<String, V> {
    ghost members = { λ m. put_entries V.tree m.entries no_members };

    ghost holds = { λ m. refl };

    #[tactic(auto, using(crate::proofs::EntryLookups::count_of_entries))]
    fn size(&self) -> i64 {
        self.len() as i64
    }

    fn contains_key(&self, index: &str) -> bool {
        value_at(self, index).is_some()
    }

    fn lookup(&self, alloc: Global, index: &str) -> Result<Option<ValueCow<'_>>, AllocError> {
        match value_at(self, index) {
            Some(value) => Ok(Some(value.to_cow(alloc)?)),
            None => Ok(None),
        }
    }

    fn keys(&self, alloc: Global) -> Result<Vec<&str>, AllocError> {
        index_names(alloc, &index_of(alloc, self)?)
    }
}

// The call to the map's size is needed: its clause says that each name is in the map once.
fn value_at<'m, V: ValueView>(map: &'m HashMap<String, V>, name: &str) -> Option<&'m V>
    ensures { option_map (λ v. V.tree v.now) result ≡ get_member name.now (put_entries V.tree map.now.entries no_members) }
{
    let _size = map.len();
    map.get(name)
}

fn index_names<'m, V: ValueView>(
    alloc: Global,
    index: &BTreeMap<&'m str, &'m V>,
) -> Result<Vec<&'m str>, AllocError>
    ensures { IfOk result (λ keys. map (λ key. key.now) keys.items ≡ names (index_members V.tree index.now.entries)) }
{
    let mut names = Vec::with_capacity(alloc, index.len())?;
    for (key, _) in index.iter() {
        names.push(*key)?;
    }
    Ok(names)
}
