//! The groups of `cycle`, and the keys under which their places are kept.
ghost use Rattle.std.specs.Prelude.{◌≡◌, ◌++◌, map, string_bytes, IfOk, IfSome, OnOk, codes};
ghost use Rattle.liquid_error.specs.meaning.Told.{told, Gives};
ghost use Rattle.liquid_value.specs.meaning.View.{view as tree_of};
ghost use Rattle.liquid_plugins.specs.meaning.ExpressionOf.{expression_of};
ghost use Rattle.liquid_filters.specs.meaning.value.Errors.{found_error};
ghost use Rattle.liquid_std.specs.meaning.marks.Groups.{displayed, group_key, group_of, key_in, named, named_key, unnamed, with_length};

use liquid_core::model::ValueSource;
use liquid_core::parser::{Bytes, Meant};
use liquid_core::runtime::ExpressionMark;
use liquid_core::{Error, Expression, Runtime, Value};
use std::alloc::{AllocError, Global};

/// The group of a `cycle`. The tags of a group share a place.
#[derive(Drop)]
pub enum Group {
    /// The tags whose name has the same text.
    Named(Expression),
    /// The tags without a name whose values are displayed alike. This is the key of the group.
    Unnamed(String),
}

/// Marks the shape of a group.
pub enum GroupShape {
    Named(ExpressionMark),
    Unnamed(Bytes),
}

impl Meant for Group {
    type Shape = GroupShape;

    ghost shape = { group_of };
}

/// Returns the key of a group.
///
/// A name that is not a scalar is an `Err`, "Group name expected", with the context `found`.
pub fn key_in<R: Runtime>(alloc: Global, group: &Group, runtime: &R) -> Result<String, Error>
    ensures { Gives (λ s. string_bytes s) result (key_in (R.view runtime.now) (group_of group.now)) }
{
    match group {
        Group::Named(name) => {
            let name = name.evaluate(alloc, runtime)?;
            named_key(alloc, name.as_view())
        }
        Group::Unnamed(key) => Ok(key.clone()?),
    }
}

/// Returns the key of the group that a value names.
fn named_key(alloc: Global, value: &Value) -> Result<String, Error>
    ensures { Gives (λ s. string_bytes s) result (named_key (tree_of value.now)) }
{
    match value {
        Value::Scalar(scalar) => {
            let name = scalar.to_kstr(alloc)?;
            let mut key = String::from_str(alloc, "=")?;
            key.push_str(name.as_str())?;
            Ok(key)
        }
        other => Err(name_expected(alloc, other)),
    }
}

/// Returns the error for a value that names no group.
fn name_expected(alloc: Global, value: &Value) -> Error
    ensures { IfSome (told result) (λ r. r ≡ found_error (codes "Group name expected") (tree_of value.now)) }
{
    match ValueSource::new(value).to_string(alloc) {
        Ok(source) => Error::with_msg(alloc, "Group name expected").context(
            alloc,
            "found",
            source.as_str(),
        ),
        Err(_) => Error::Memory,
    }
}

/// Returns the key of the group of these values, which has no name.
pub fn values_key(alloc: Global, values: &[Expression]) -> Result<String, AllocError>
    ensures { IfOk result (λ key. string_bytes key ≡ group_key (unnamed (displayed (map expression_of values.now)))) }
{
    let mut key = String::new(alloc);
    for value in values {
        push_text(alloc, &mut key, value.to_string(alloc)?.as_str())?;
    }
    Ok(key)
}

/// Appends the length of a text, a colon and the text.
fn push_text(alloc: Global, key: &mut String, text: &str) -> Result<(), AllocError>
    ensures { OnOk result (string_bytes key.new ≡ string_bytes key.old ++ with_length text.now) }
{
    key.push_str(text.len().to_string(alloc)?.as_str())?;
    key.push_str(":")?;
    key.push_str(text)
}
