//! Texts that are set by an assignment such as `site.title=Home`.
ghost use Rattle.std.specs.Prelude.{◌≡◌, ◌≢◌, ◌∷◌, IfOk, IfErr, OnOk, Some, None, map, option_map};
ghost use Rattle.std.specs.List.{slice_split};
ghost use Rattle.liquid_value.specs.meaning.Members.{get_member, put_member};
ghost use Rattle.liquid_value.specs.meaning.Tree.{nil, object, scalar};
ghost use Rattle.liquid_scalar.specs.meaning.Scalar.{text};
ghost use Rattle.liquid_value.specs.meaning.View.{view, members_view};
ghost use Rattle.page_site.specs.declared.data_files.assign.SetFault.TheVariants.{Memory};
ghost use Rattle.page_site.specs.meaning.data_files.Merged.{assigned, is_point, object_found, put_named, set_at};

use crate::data_files::entry::put;
use liquid_scalar::Scalar;
use liquid_value::{Object, SharedObject, Value};
use std::alloc::{AllocError, AllocFailed, Global};

/// Why a text is not set.
#[derive(Debug, Drop, thiserror::Error)]
pub enum SetFault {
    /// Memory ran out.
    #[error("out of memory")]
    Memory,
    /// There is no `=` after the names.
    #[error("no '=' after the name")]
    NoEquals,
    /// A name is empty.
    #[error("a name is empty")]
    NoName,
    /// The value at this name, which comes before another one, is not an object.
    #[error("the value of '{0}' is not an object")]
    NotAnObject(String),
}

impl From<AllocError> for SetFault {
    ghost from_gives = { λ _ fault. fault ≡ Memory };

    fn from(_refused: AllocError) -> SetFault {
        SetFault::Memory
    }
}

impl<T: Drop> From<AllocFailed<T>> for SetFault {
    ghost from_gives = { λ _ fault. fault ≡ Memory };

    fn from(_refused: AllocFailed<T>) -> SetFault {
        SetFault::Memory
    }
}

/// Sets the text after the `=` of an assignment at the path of names before it. Points are between names, and objects are
/// made on the way.
pub fn set_member(alloc: Global, object: Object, assignment: &str) -> Result<Object, SetFault>
    ensures set { IfOk result (λ changed. assigned assignment.now (members_view object.entries) ≡ Some (members_view changed.entries)) }
    ensures refused { IfErr result (λ fault. fault ≢ SetFault.Memory → assigned assignment.now (members_view object.entries) ≡ None) }
{
    match assignment.split_once('=') {
        Some((path, words)) => {
            let names = names_of(alloc, path)?;
            set_at(alloc, object, &names, words)
        }
        None => Err(SetFault::NoEquals),
    }
}

/// Returns the names of a path.
fn names_of(alloc: Global, path: &str) -> Result<Vec<&str>, AllocError>
    ensures { IfOk result (λ names. map (λ name. name.now) names.items ≡ slice_split is_point path.now) }
{
    path.split('.').collect(alloc)
}

/// Sets a text at a path of names.
#[cycle(set)]
fn set_at(alloc: Global, object: Object, names: &[&str], words: &str) -> Result<Object, SetFault>
    ensures set { IfOk result (λ changed.
        set_at (map (λ name. name.now) names.now) words.now (members_view object.entries) ≡ Some (members_view changed.entries)) }
    ensures refused { IfErr result (λ fault. fault ≢ SetFault.Memory →
        set_at (map (λ name. name.now) names.now) words.now (members_view object.entries) ≡ None) }
{
    match names.split_first() {
        Some((name, rest)) => set_from(alloc, object, name, rest, words),
        None => Err(SetFault::NoName),
    }
}

/// Sets a text at a name, or at a path of names in the object there.
#[cycle(set)]
fn set_from(
    alloc: Global,
    object: Object,
    name: &str,
    rest: &[&str],
    words: &str,
) -> Result<Object, SetFault>
    ensures set { IfOk result (λ changed.
        set_at (name.now ∷ map (λ name. name.now) rest.now) words.now (members_view object.entries) ≡ Some (members_view changed.entries)) }
    ensures refused { IfErr result (λ fault. fault ≢ SetFault.Memory →
        set_at (name.now ∷ map (λ name. name.now) rest.now) words.now (members_view object.entries) ≡ None) }
{
    if rest.is_empty() {
        return put_text(alloc, object, name, words);
    }
    let mut object = object;
    let inner = take_object(alloc, &mut object, name)?;
    let changed = set_at(alloc, inner, rest, words)?;
    put_object(alloc, object, name, changed)
}

fn put_text(alloc: Global, object: Object, name: &str, words: &str) -> Result<Object, SetFault>
    ensures put { IfOk result (λ changed.
        put_named name.now (scalar (text words.now)) (members_view object.entries) ≡ Some (members_view changed.entries)) }
    ensures refused { IfErr result (λ fault. fault ≢ SetFault.Memory →
        put_named name.now (scalar (text words.now)) (members_view object.entries) ≡ None) }
{
    let words = String::from_str(alloc, words)?;
    put_named(alloc, object, name, Value::Scalar(Scalar::Str(words)))
}

fn put_object(alloc: Global, outer: Object, name: &str, inner: Object) -> Result<Object, SetFault>
    ensures put { IfOk result (λ changed.
        put_named name.now (object (members_view inner.entries)) (members_view outer.entries) ≡ Some (members_view changed.entries)) }
    ensures refused { IfErr result (λ fault. fault ≢ SetFault.Memory →
        put_named name.now (object (members_view inner.entries)) (members_view outer.entries) ≡ None) }
{
    let value = Value::Object(SharedObject::shared(alloc, inner)?);
    put_named(alloc, outer, name, value)
}

/// Puts a value at a name that is not empty.
fn put_named(alloc: Global, object: Object, name: &str, value: Value) -> Result<Object, SetFault>
    ensures put { IfOk result (λ changed.
        put_named name.now (view value) (members_view object.entries) ≡ Some (members_view changed.entries)) }
    ensures refused { IfErr result (λ fault. fault ≢ SetFault.Memory →
        put_named name.now (view value) (members_view object.entries) ≡ None) }
{
    if name.is_empty() {
        return Err(SetFault::NoName);
    }
    let mut object = object;
    put(alloc, &mut object, name, value)?;
    Ok(object)
}

/// Takes out the object at a name, or a new one if there is no value, and leaves nil there.
fn take_object(alloc: Global, object: &mut Object, name: &str) -> Result<Object, SetFault>
    ensures found { IfOk result (λ inner.
        object_found (get_member name.now (members_view object.old.entries)) ≡ Some (members_view inner.entries)) }
    ensures left { OnOk result (members_view object.new.entries ≡ put_member name.now nil (members_view object.old.entries)) }
    ensures refused { IfErr result (λ fault. fault ≢ SetFault.Memory →
        object_found (get_member name.now (members_view object.old.entries)) ≡ None) }
{
    match replace_with_nil(alloc, object, name)? {
        None => Ok(Object::new(alloc)),
        Some(Value::Object(inner)) => Ok(inner.into_object()?),
        Some(_) => Err(SetFault::NotAnObject(String::from_str(alloc, name)?)),
    }
}

/// Puts nil at a name, and returns the value that was there.
fn replace_with_nil(
    alloc: Global,
    object: &mut Object,
    name: &str,
) -> Result<Option<Value>, AllocError>
    ensures old { IfOk result (λ value. option_map view value ≡ get_member name.now (members_view object.old.entries)) }
    ensures left { OnOk result (members_view object.new.entries ≡ put_member name.now nil (members_view object.old.entries)) }
{
    let name = String::from_str(alloc, name)?;
    let value = object.insert(name, Value::Nil)?;
    Ok(value)
}
