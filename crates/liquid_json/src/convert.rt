//! Conversions from JSON to values, from kind to kind.
ghost use Rattle.std.specs.Prelude.{◌≡◌, IfOk, map, string_bytes};
ghost use Rattle.serde_json.specs.View.{view as json_view, items_view as json_items, members_view as json_members};
ghost use Rattle.liquid_error.specs.meaning.Told.{Gives};
ghost use Rattle.liquid_value.specs.meaning.View.{view, items_view, members_view, entry_view};
ghost use Rattle.liquid_json.specs.meaning.Given.{value_given, object_given, items_given, members_given};

use crate::build::{object_in_order, value_of_array};
use crate::scalar::integer;
use liquid_error::{Error, Result};
use liquid_scalar::Scalar;
use liquid_value::{Array, Object, SharedObject, Value};
use serde_json::{Map, Value as Json};
use std::alloc::Global;

/// Returns the value of JSON: null is nil, and booleans, texts, arrays and objects are the values of their kind.
/// Strings are copied.
///
/// An integer from 2^63 to 2^64 - 1 is the error "Cannot fit number", and a number that is kept as a float is
/// "Fractional number". The first error is returned: items are converted in order, and members in the order of their
/// keys.
pub fn to_value(alloc: Global, json: &Json) -> Result<Value>
    ensures { Gives view result (value_given (json_view json.now)) }
{
    into_value(alloc, json.clone()?)
}

/// Returns the object of an object's members, as `to_value` gives them. Strings are copied.
///
/// The errors of members are those of `to_value`. An array is the error "Object cannot be an array.", and anything else
/// is "Object cannot be a scalar.".
pub fn to_object(alloc: Global, json: &Json) -> Result<Object>
    ensures { Gives (λ object. members_view object.entries) result (object_given (json_view json.now)) }
{
    match json {
        Json::Object(_) => into_object(alloc, json.clone()?),
        Json::Array(_) => Err(Error::with_msg(alloc, "Object cannot be an array.")),
        _ => Err(Error::with_msg(alloc, "Object cannot be a scalar.")),
    }
}

/// Returns the value of JSON, as `to_value` gives it, with the texts of the JSON that it takes apart.
#[cycle(convert)]
pub fn into_value(alloc: Global, json: Json) -> Result<Value>
    ensures { Gives view result (value_given (json_view json)) }
{
    match json {
        Json::Null => Ok(Value::Nil),
        Json::Bool(truth) => Ok(Value::Scalar(Scalar::Bool(truth))),
        Json::Number(number) => Ok(Value::Scalar(Scalar::Integer(integer(alloc, &number)?))),
        Json::String(text) => Ok(Value::Scalar(Scalar::Str(text))),
        Json::Array(items) => {
            let array = into_items(alloc, items)?;
            Ok(value_of_array(alloc, array)?)
        }
        Json::Object(members) => {
            let object = into_members(alloc, members)?;
            Ok(Value::Object(SharedObject::shared(alloc, object)?))
        }
    }
}

/// Returns the object of an object's members, as `to_object` gives it, with the texts of the JSON that it takes apart.
pub fn into_object(alloc: Global, json: Json) -> Result<Object>
    ensures { Gives (λ object. members_view object.entries) result (object_given (json_view json)) }
{
    match json {
        Json::Object(members) => into_members(alloc, members),
        Json::Array(_) => Err(Error::with_msg(alloc, "Object cannot be an array.")),
        _ => Err(Error::with_msg(alloc, "Object cannot be a scalar.")),
    }
}

#[cycle(convert)]
fn into_items(alloc: Global, items: Vec<Json>) -> Result<Array>
    ensures { Gives (λ values. items_view values.items) result (items_given (json_items items.items)) }
{
    let mut values = Vec::with_capacity(alloc, items.len())?;
    for item in items {
        values.push(into_value(alloc, item)?)?;
    }
    Ok(values)
}

#[cycle(convert)]
fn into_members(alloc: Global, members: Map<String, Json>) -> Result<Object>
    ensures { Gives (λ object. members_view object.entries) result (members_given (json_members members.entries)) }
{
    let mut entries = Vec::with_capacity(alloc, members.len())?;
    for (name, member) in members {
        entries.push((name, into_value(alloc, member)?))?;
    }
    Ok(object_in_order(alloc, entries)?)
}
