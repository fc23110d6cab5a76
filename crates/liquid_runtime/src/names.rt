//! What frames do with the names of an object.
ghost use Rattle.std.specs.Prelude.{◌≡◌, ◌∷◌, [], map, IfOk, IfErr, OnOk, OnErr, IfSome, Some, None, Option, string_bytes, option_map};
ghost use Rattle.std.specs.FinMap.{empty, get, insert};
ghost use Rattle.liquid_error.specs.meaning.Told.{told};
ghost use Rattle.liquid_value.specs.meaning.View.{view as tree_of};
ghost use Rattle.liquid_runtime.specs.meaning.Maps.{names_of, over};
ghost use Rattle.liquid_runtime.specs.meaning.LoopNames.{seen_tree};
ghost use Rattle.liquid_runtime.specs.meaning.Roots.{NamesOf, NamesOver};

use crate::loop_frame::Seen;
use liquid_error::Error;
use liquid_value::{Object, Value};
use std::alloc::{AllocError, Global};
use std::collections::BTreeSet;

/// Returns the name of a frame, if it has one.
pub fn own_name(name: &Option<String>) -> Option<&str>
    ensures { option_map (λ r. r.now) result ≡ option_map (λ s. string_bytes s) name.now }
{
    match name {
        Some(name) => Some(name.as_str()),
        None => None,
    }
}

/// Returns an object without names. It takes no memory.
#[tactic(auto, using(crate::proofs::Objects::changed_objects))]
pub fn no_names(alloc: Global) -> Object
    ensures { names_of result ≡ empty }
{
    Object::new(alloc)
}

/// Returns the value of a name in an object.
#[tactic(auto, using(crate::proofs::Objects::value_of_name))]
pub fn value_of<'o>(object: &'o Object, name: &str) -> Option<&'o Value>
    ensures { option_map (λ r. tree_of r.now) result ≡ get (names_of object.now) name.now }
{
    object.get(name)
}

/// Returns the value of a name in an object, as it is found.
pub fn seen_of<'o>(object: &'o Object, name: &str) -> Option<Seen<'o>>
    ensures { option_map seen_tree result ≡ get (names_of object.now) name.now }
{
    match value_of(object, name) {
        Some(value) => Some(Seen::Lent(value)),
        None => None,
    }
}

/// Gives a name a value, and returns its old one.
#[tactic(auto, using(crate::proofs::Objects::changed_objects))]
pub fn set_name(object: &mut Object, name: String, value: Value) -> Result<Option<Value>, Error>
    ensures old { IfOk result (λ old. option_map tree_of old ≡ get (names_of object.old) (string_bytes name)) }
    ensures sets { OnOk result (names_of object.new ≡ insert (names_of object.old) (string_bytes name) (tree_of value)) }
    ensures err { IfErr result (λ e. told e ≡ None) }
    ensures unchanged { OnErr result (names_of object.new ≡ names_of object.old) }
    ensures absent { OnErr result (None ≡ get (names_of object.old) (string_bytes name)) }
{
    match object.insert(name, value) {
        Ok(old) => Ok(old),
        Err(_) => Err(Error::Memory),
    }
}

/// Returns the names of an object together with those below it.
pub fn add_names(object: &Object, below: BTreeSet<String>) -> Result<BTreeSet<String>, AllocError>
    ensures { IfOk result (λ names. NamesOver (names_of object.now) below names) }
{
    let mut names = below;
    for (name, _) in object.iter() {
        names.insert(name.clone()?)?;
    }
    Ok(names)
}

/// Returns the names of an object.
pub fn only_names(alloc: Global, object: &Object) -> Result<BTreeSet<String>, AllocError>
    ensures { IfOk result (λ names. NamesOf (names_of object.now) names) }
{
    add_names(object, BTreeSet::new(alloc))
}
