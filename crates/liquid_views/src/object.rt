//! Maps of values, and their views.
ghost use Rattle.std.specs.Prelude.{◌≡◌, Some, ◌++◌, ℕ, List, pos, refl, is_some, option_map, IfOk, map, string_bytes};
ghost use Rattle.std.specs.Fmt.{WritesOnOk};
ghost use Rattle.liquid_value.specs.meaning.Cow.{cow_view};
ghost use Rattle.liquid_value.specs.meaning.Members.{get_member, member_count};
ghost use Rattle.liquid_value.specs.meaning.Render.{render, source, listed_member, listed_members};
ghost use Rattle.liquid_value.specs.meaning.Tree.{Members, object};
ghost use Rattle.liquid_value.specs.meaning.View.{members_view};
ghost use Rattle.liquid_value.specs.meaning.Names.{names};
ghost use Rattle.liquid_views.specs.meaning.Trees.{members_by};

use crate::index::ObjectIndex;
use crate::kind::ViewKind;
use crate::view::ValueView;
use liquid_value::{Object, SharedObject, Value, ValueCow};
use std::alloc::{AllocError, Global};
use std::collections::BTreeMap;
use std::fmt;

/// A map from texts to values of one type.
pub trait ObjectView: ValueView {
    ghost members: { Self → Members };

    /// Returns the number of entries.
    fn size(&self) -> i64
        ensures { result ≡ pos (member_count (members self.now)) };

    /// Returns `true` if there is a value at the name. It takes no memory.
    fn contains_key(&self, index: &str) -> bool
        ensures { result ≡ is_some (get_member index.now (members self.now)) };

    /// Returns the value at the name, if there is one. It is borrowed if it is a `Value`.
    fn lookup(&self, alloc: Global, index: &str) -> Result<Option<ValueCow<'_>>, AllocError>
        ensures { IfOk result (λ found. option_map cow_view found ≡ get_member index.now (members self.now)) };

    /// Returns the names in byte order.
    fn keys(&self, alloc: Global) -> Result<Vec<&str>, AllocError>
        ensures { IfOk result (λ keys. map (λ key. key.now) keys.items ≡ names (members self.now)) };

    // the members are those of the value
    ghost holds: { (s : Self) → Self.tree s ≡ object (members s) };
}

impl<K: ObjectIndex, V: ValueView> ValueView for BTreeMap<K, V> {
    ghost tree = { λ m. object (members_by K.index V.tree m.entries) };

    #[tactic(auto, using(crate::proofs::Maps::has_no_members_of_map))]
    fn kind(&self) -> ViewKind<'_> {
        ViewKind::Object(self.is_empty())
    }

    fn to_value(&self, alloc: Global) -> Result<Value, AllocError> {
        let object = copy_members(alloc, self)?;
        Ok(Value::Object(SharedObject::shared(alloc, object)?))
    }

    fn write_render<W: fmt::Write>(&self, f: &mut fmt::Formatter<W>) -> fmt::Result {
        for (key, value) in self.iter() {
            write_member(key.as_index(), value, f)?;
        }
        Ok(())
    }

    fn write_source<W: fmt::Write>(&self, f: &mut fmt::Formatter<W>) -> fmt::Result {
        f.write_str("{")?;
        list_members(self, f)?;
        f.write_str("}")
    }
}

fn copy_members<K: ObjectIndex, V: ValueView>(
    alloc: Global,
    members: &BTreeMap<K, V>,
) -> Result<Object, AllocError>
    ensures { IfOk result (λ m. members_view m.entries ≡ members_by K.index V.tree members.now.entries) }
{
    let mut copies = Object::new(alloc);
    for (key, member) in members.iter() {
        let name = String::from_str(alloc, key.as_index())?;
        drop(copies.insert(name, member.to_value(alloc)?)?);
    }
    Ok(copies)
}

pub(crate) fn write_member<V: ValueView, W: fmt::Write>(
    key: &str,
    value: &V,
    f: &mut fmt::Formatter<W>,
) -> fmt::Result
    ensures { WritesOnOk W.write_str_gives f.old result (key.now ++ render (V.tree value.now)) f.new }
{
    f.write_str(key)?;
    value.write_render(f)
}

fn list_members<K: ObjectIndex, V: ValueView, W: fmt::Write>(
    members: &BTreeMap<K, V>,
    f: &mut fmt::Formatter<W>,
) -> fmt::Result
    ensures { WritesOnOk W.write_str_gives f.old result (listed_members (members_by K.index V.tree members.now.entries)) f.new }
{
    for (key, value) in members.iter() {
        list_member(key.as_index(), value, f)?;
    }
    Ok(())
}

pub(crate) fn list_member<V: ValueView, W: fmt::Write>(
    key: &str,
    value: &V,
    f: &mut fmt::Formatter<W>,
) -> fmt::Result
    ensures { WritesOnOk W.write_str_gives f.old result (listed_member key.now (V.tree value.now)) f.new }
{
    f.write_str("\"")?;
    f.write_str(key)?;
    f.write_str("\": ")?;
    value.write_render(f)?;
    f.write_str(", ")
}

impl<K: ObjectIndex, V: ValueView> ObjectView for BTreeMap<K, V> {
    ghost members = { λ m. members_by K.index V.tree m.entries };

    ghost holds = { λ m. refl };

    #[tactic(auto, using(crate::proofs::Maps::count_of_map))]
    fn size(&self) -> i64 {
        self.len() as i64
    }

    #[tactic(auto, using(crate::proofs::Maps::found_of_map))]
    fn contains_key(&self, index: &str) -> bool {
        K::value_in(self, index).is_some()
    }

    #[tactic(auto, using(crate::proofs::Maps::value_of_map))]
    fn lookup(&self, alloc: Global, index: &str) -> Result<Option<ValueCow<'_>>, AllocError> {
        match K::value_in(self, index) {
            Some(value) => Ok(Some(value.to_cow(alloc)?)),
            None => Ok(None),
        }
    }

    fn keys(&self, alloc: Global) -> Result<Vec<&str>, AllocError> {
        let mut names = Vec::with_capacity(alloc, self.len())?;
        for (key, _) in self.iter() {
            names.push(key.as_index())?;
        }
        Ok(names)
    }
}

/// A map seen through a reference.
impl<O: ObjectView> ObjectView for &O {
    ghost members = { λ o. O.members o.now };

    ghost holds = { λ o. O.holds o.now };

    fn size(&self) -> i64 {
        (**self).size()
    }

    fn contains_key(&self, index: &str) -> bool {
        (**self).contains_key(index)
    }

    fn lookup(&self, alloc: Global, index: &str) -> Result<Option<ValueCow<'_>>, AllocError> {
        (**self).lookup(alloc, index)
    }

    fn keys(&self, alloc: Global) -> Result<Vec<&str>, AllocError> {
        (**self).keys(alloc)
    }
}

/// Prints the source text of an object.
#[derive(Drop)]
pub struct ObjectSource<'s, O> {
    object: &'s O,
}

impl<'s, O: ObjectView> ObjectSource<'s, O> {
    pub fn new(object: &'s O) -> Self
        ensures { result.object.now ≡ object.now }
    {
        ObjectSource { object }
    }
}

impl<O: ObjectView> fmt::Display for ObjectSource<'_, O> {
    ghost output = { λ d. Some (source (O.tree d.object.now)) };

    fn fmt<W: fmt::Write>(&self, f: &mut fmt::Formatter<W>) -> fmt::Result {
        self.object.write_source(f)
    }
}

/// Prints the text that an object renders as.
#[derive(Drop)]
pub struct ObjectRender<'s, O> {
    object: &'s O,
}

impl<'s, O: ObjectView> ObjectRender<'s, O> {
    pub fn new(object: &'s O) -> Self
        ensures { result.object.now ≡ object.now }
    {
        ObjectRender { object }
    }
}

impl<O: ObjectView> fmt::Display for ObjectRender<'_, O> {
    ghost output = { λ d. Some (render (O.tree d.object.now)) };

    fn fmt<W: fmt::Write>(&self, f: &mut fmt::Formatter<W>) -> fmt::Result {
        self.object.write_render(f)
    }
}
