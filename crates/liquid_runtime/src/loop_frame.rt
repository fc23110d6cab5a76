//! The frame of a loop's turn. It holds no map of names: a name is looked up in the loop itself.
ghost use Rattle.std.specs.Prelude.{◌≡◌, IfOk, IfSome, OnOk, Some, None, option_map, codes, string_bytes, cond, bytes_eq};
ghost use Rattle.std.specs.FinMap.{get, insert};
ghost use Rattle.liquid_value.specs.meaning.Cow.{cow_view};
ghost use Rattle.liquid_value.specs.meaning.Members.{get_member, put_member};
ghost use Rattle.liquid_value.specs.meaning.View.{view as tree_of, members_view};
ghost use Rattle.liquid_runtime.specs.meaning.Maps.{names_of};
ghost use Rattle.liquid_runtime.specs.meaning.Roots.{NamesOver};
ghost use Rattle.liquid_runtime.specs.meaning.LoopNames.{forloop, forloop_members, item_tree, loop_names};
ghost use Rattle.liquid_runtime.specs.meaning.LoopNames.{names_of_item, place_tree, seen_tree};

use crate::loop_item::LoopItem;
use crate::names::{add_names, no_names};
use liquid_value::{Object, SharedObject, Value, ValueCow};
use std::alloc::{AllocError, Global};
use std::collections::BTreeSet;

/// The place of an item in a loop, from 0, and the number of items: what the object `forloop` says.
#[derive(Clone, Copy)]
pub struct Counts {
    pub place: u64,
    pub size: u64,
}

/// The frame of a loop's turn: the item under the loop's name, and the object `forloop`, whose members are made when
/// they are asked for. The next turn writes over it.
#[derive(Drop)]
pub struct LoopFrame {
    pub name: String,
    pub item: LoopItem,
    pub counts: Counts,
}

/// The value of a name, as it is found: a value that is lent in place, or an object `forloop` that isn't made yet.
#[derive(Clone, Copy)]
pub enum Seen<'v> {
    Lent(&'v Value),
    Loop(Counts),
}

impl Counts {
    /// Returns the member of the object `forloop` of that name. `None` says nothing.
    pub fn member(&self, word: &str) -> Option<Value>
        ensures { IfSome result (λ part. get_member word.now (forloop_members self.now.place self.now.size) ≡ Some (tree_of part)) }
    {
        match word {
            "first" => Some(Value::scalar(self.place == 0)),
            "last" => {
                let index = self.place.checked_add(1)?;
                Some(Value::scalar(index == self.size))
            }
            "index" => number(self.place.checked_add(1)?),
            "index0" => number(self.place),
            "length" => number(self.size),
            "rindex" => number(self.size.saturating_sub(self.place)),
            "rindex0" => number(self.size.saturating_sub(self.place.checked_add(1)?)),
            _ => None,
        }
    }

    /// Makes the object `forloop`.
    pub fn to_object(&self, alloc: Global) -> Result<Object, AllocError>
        ensures { IfOk result (λ m. members_view m.entries ≡ forloop_members self.now.place self.now.size) }
    {
        let Some(index) = self.place.checked_add(1) else {
            return Err(AllocError);
        };
        let mut object = Object::new(alloc);
        put(alloc, &mut object, "first", Value::scalar(self.place == 0))?;
        put_count(alloc, &mut object, "index", index)?;
        put_count(alloc, &mut object, "index0", self.place)?;
        put(
            alloc,
            &mut object,
            "last",
            Value::scalar(index == self.size),
        )?;
        put_count(alloc, &mut object, "length", self.size)?;
        put_count(
            alloc,
            &mut object,
            "rindex",
            self.size.saturating_sub(self.place),
        )?;
        put_count(
            alloc,
            &mut object,
            "rindex0",
            self.size.saturating_sub(index),
        )?;
        Ok(object)
    }

    /// Makes the object `forloop`, as a value.
    pub fn to_value(&self, alloc: Global) -> Result<Value, AllocError>
        ensures { IfOk result (λ value. tree_of value ≡ forloop self.now.place self.now.size) }
    {
        Ok(Value::Object(SharedObject::shared(alloc, self.to_object(alloc)?)?))
    }
}

/// Inserts a count. If it does not fit, the error is out of memory: no memory holds that many items.
fn put_count(alloc: Global, object: &mut Object, name: &str, count: u64) -> Result<(), AllocError>
    ensures { IfOk result (λ _.
        members_view object.new.entries ≡ put_member name.now (place_tree count) (members_view object.old.entries)) }
{
    match i64::try_from(count) {
        Ok(number) => put(alloc, object, name, Value::scalar(number)),
        Err(_) => Err(AllocError),
    }
}

#[tactic(auto, using(crate::proofs::LoopLaws::inserted))]
fn put(alloc: Global, object: &mut Object, name: &str, value: Value) -> Result<(), AllocError>
    ensures { IfOk result (λ _. members_view object.new.entries ≡ put_member name.now (tree_of value) (members_view object.old.entries)) }
{
    drop(object.insert(String::from_str(alloc, name)?, value)?);
    Ok(())
}

impl<'v> Seen<'v> {
    /// Returns the value, lent in place, or made if it is the object `forloop`.
    pub fn to_cow(&self, alloc: Global) -> Result<ValueCow<'v>, AllocError>
        ensures { IfOk result (λ value. cow_view value ≡ seen_tree self.now) }
    {
        match self {
            Seen::Lent(value) => Ok(ValueCow::Borrowed(*value)),
            Seen::Loop(counts) => Ok(ValueCow::Owned(counts.to_value(alloc)?)),
        }
    }
}

/// Gives a name a value.
#[tactic(auto, using(crate::proofs::Objects::changed_objects))]
fn bind(names: &mut Object, name: String, value: Value) -> Result<(), AllocError>
    ensures { OnOk result (names_of names.new ≡ insert (names_of names.old) (string_bytes name) (tree_of value)) }
{
    drop(names.insert(name, value)?);
    Ok(())
}

/// Returns a count as a value, if it is an integer of one.
fn number(count: u64) -> Option<Value>
    ensures { IfSome result (λ value. tree_of value ≡ place_tree count) }
{
    match i64::try_from(count) {
        Ok(number) => Some(Value::scalar(number)),
        Err(_) => None,
    }
}

impl LoopFrame {
    /// Returns the frame of an item's turn in a loop with this name. It is the frame of the turn before, written over, if that
    /// is given and has the name.
    #[inline(always)]
    pub fn of_turn(
        alloc: Global,
        used: Option<Box<LoopFrame>>,
        name: &str,
        item: LoopItem,
        counts: Counts,
    ) -> Result<Box<LoopFrame>, AllocError>
        ensures { IfOk result (λ frame. loop_names frame.value
            ≡ names_of_item name.now (forloop counts.place counts.size) (item_tree item)) }
    {
        if let Some(mut frame) = used {
            if frame.name.as_str() == name {
                frame.item = item;
                frame.counts = counts;
                return Ok(frame);
            }
        }
        let name = String::from_str(alloc, name)?;
        Ok(Box::new(alloc, LoopFrame { name, item, counts })?)
    }

    /// Returns the loop's name, which is one of the two names of its frame.
    pub fn own_name(&self) -> &str
        ensures { result.now ≡ string_bytes self.now.name }
    {
        self.name.as_str()
    }

    /// Returns the names of the frame, and those below it.
    pub fn add_names(
        &self,
        alloc: Global,
        below: BTreeSet<String>,
    ) -> Result<BTreeSet<String>, AllocError>
        ensures { IfOk result (λ names. NamesOver (loop_names self.now) below names) }
    {
        add_names(&self.to_names(alloc)?, below)
    }

    /// Returns the names of the frame in an object.
    fn to_names(&self, alloc: Global) -> Result<Object, AllocError>
        ensures { IfOk result (λ names. names_of names ≡ loop_names self.now) }
    {
        let mut names = no_names(alloc);
        bind(
            &mut names,
            String::from_str(alloc, "forloop")?,
            self.counts.to_value(alloc)?,
        )?;
        bind(&mut names, self.name.clone()?, self.item.get().clone()?)?;
        Ok(names)
    }

    /// Returns the value that the frame gives a name.
    #[tactic(auto, using(crate::proofs::LoopLaws::looked))]
    pub fn look(&self, name: &str) -> Option<Seen<'_>>
        ensures { option_map seen_tree result ≡ get (loop_names self.now) name.now }
    {
        if name == self.name.as_str() {
            Some(Seen::Lent(self.item.get()))
        } else {
            self.forloop_of(name)
        }
    }

    /// Returns what the name `forloop` gives.
    fn forloop_of(&self, name: &str) -> Option<Seen<'_>>
        ensures { option_map seen_tree result
            ≡ cond (bytes_eq name.now (codes "forloop")) (Some (forloop self.now.counts.place self.now.counts.size)) None }
    {
        if name == "forloop" {
            Some(Seen::Loop(self.counts))
        } else {
            None
        }
    }
}
