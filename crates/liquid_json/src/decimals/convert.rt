//! Conversions from JSON that was read to values, in the order of its text.
ghost use Rattle.std.specs.Prelude.{◌≡◌};
ghost use Rattle.json.specs.Value.{value_view as json_view, items_view as json_items, members_view as json_members};
ghost use Rattle.liquid_error.specs.meaning.Told.{Gives};
ghost use Rattle.liquid_value.specs.meaning.Tree.{no_members};
ghost use Rattle.liquid_value.specs.meaning.View.{view, items_view, members_view};
ghost use Rattle.liquid_json.specs.meaning.decimals.Given.{items_given, members_given, object_given, value_given};

use crate::decimals::number::number_value;
use json::Value as Json;
use liquid_error::{Error, Result};
use liquid_scalar::Scalar;
use liquid_value::{Array, Object, SharedArray, SharedObject, Value};
use std::alloc::Global;

/// Returns the object of an object's members.
///
/// An array is the error "Object cannot be an array.", and anything else is "Object cannot be a scalar.". The errors of
/// members are those of their numbers; the first one in the text is returned.
pub(crate) fn object_of(alloc: Global, json: &Json<'_>) -> Result<Object>
    ensures { Gives (λ object. members_view object.entries) result (object_given (json_view json.now)) }
{
    match json {
        Json::Object(members) => convert_members(alloc, members),
        Json::Array(_) => Err(Error::with_msg(alloc, "Object cannot be an array.")),
        _ => Err(Error::with_msg(alloc, "Object cannot be a scalar.")),
    }
}

/// Returns the value of JSON. Strings are copied.
#[cycle(convert)]
fn convert_value(alloc: Global, json: &Json<'_>) -> Result<Value>
    ensures { Gives view result (value_given (json_view json.now)) }
{
    match json {
        Json::Null => Ok(Value::Nil),
        Json::Bool(truth) => Ok(Value::Scalar(Scalar::Bool(*truth))),
        Json::Number(text) => number_value(alloc, text),
        Json::String(text) => Ok(Value::Scalar(Scalar::Str(String::from_str(alloc, text)?))),
        Json::Array(items) => {
            let array = convert_items(alloc, items)?;
            Ok(Value::Array(SharedArray::shared(alloc, array)?))
        }
        Json::Object(members) => {
            let object = convert_members(alloc, members)?;
            Ok(Value::Object(SharedObject::shared(alloc, object)?))
        }
    }
}

/// Returns the values of an array's items.
#[cycle(convert)]
fn convert_items(alloc: Global, items: &Vec<Json<'_>>) -> Result<Array>
    ensures { Gives (λ values. items_view values.items) result (items_given (json_items items.now.items)) }
{
    let mut values = Vec::with_capacity(alloc, items.len())?;
    for item in items {
        values.push(convert_value(alloc, item)?)?;
    }
    Ok(values)
}

/// Returns the object of an object's members. Of two members of one name the later one stays.
#[cycle(convert)]
fn convert_members(alloc: Global, members: &Vec<(&str, Json<'_>)>) -> Result<Object>
    ensures { Gives (λ object. members_view object.entries) result (members_given (json_members members.now.items) no_members) }
{
    let mut object = Object::new(alloc);
    for member in members {
        let name = String::from_str(alloc, member.0)?;
        let value = convert_value(alloc, &member.1)?;
        drop(object.insert(name, value)?);
    }
    Ok(object)
}
