//! Tables of TOML as objects.
ghost use Rattle.std.specs.Prelude.{◌≡◌, IfOk, IfErr, IfSome, string_bytes};
ghost use Rattle.liquid_error.specs.meaning.Told.{told};
ghost use Rattle.liquid_value.specs.meaning.Tree.{no_members};
ghost use Rattle.liquid_value.specs.meaning.View.{view, items_view, members_view};
ghost use Rattle.toml.specs.View.{view as toml_view, array_view as toml_array, table_view};
ghost use Rattle.toml_writer.specs.Text.{IsFloatText};
ghost use Rattle.page_site.specs.meaning.data_files.Tables.{Given, ItemsGiven, MembersGiven, Refused, ItemsRefused, MembersRefused};

use liquid_error::{Error, Result};
use liquid_json::decimals::number_value;
use liquid_scalar::Scalar;
use liquid_value::{Array, Object, SharedArray, SharedObject, Value};
use std::alloc::{AllocError, Global};
use std::fmt::Formatter;
use toml::Value as Toml;
use toml::value::{Array as TomlArray, Table};
use toml_writer::write_float;

/// Returns the object of a table. The error is that of a float that is not a decimal.
#[cycle(convert)]
pub(crate) fn object_of_table(alloc: Global, table: &Table) -> Result<Object>
    ensures given { IfOk result (λ object. MembersGiven (table_view table.now) no_members (members_view object.entries)) }
    ensures refused { IfErr result (λ e. IfSome (told e) (MembersRefused (table_view table.now))) }
{
    let mut object = Object::new(alloc);
    for (key, member) in table.iter() {
        let name = key.clone()?;
        let value = value_of(alloc, member)?;
        drop(object.insert(name, value)?);
    }
    Ok(object)
}

/// Returns the value of an item or a member.
#[cycle(convert)]
fn value_of(alloc: Global, toml: &Toml) -> Result<Value>
    ensures given { IfOk result (λ value. Given (toml_view toml.now) (view value)) }
    ensures refused { IfErr result (λ e. IfSome (told e) (Refused (toml_view toml.now))) }
{
    match toml {
        Toml::String(text) => Ok(Value::Scalar(Scalar::Str(text.clone()?))),
        Toml::Integer(number) => Ok(Value::Scalar(Scalar::Integer(*number))),
        Toml::Float(number) => {
            let text = text_of_float(alloc, *number)?;
            number_value(alloc, text.as_str())
        }
        Toml::Boolean(truth) => Ok(Value::Scalar(Scalar::Bool(*truth))),
        Toml::Datetime(moment) => Ok(Value::Scalar(Scalar::Str(format!(in alloc; "{moment}")?))),
        Toml::Array(items) => {
            let array = array_of(alloc, items)?;
            Ok(Value::Array(SharedArray::shared(alloc, array)?))
        }
        Toml::Table(members) => {
            let object = object_of_table(alloc, members)?;
            Ok(Value::Object(SharedObject::shared(alloc, object)?))
        }
    }
}

/// Returns the values of an array's items.
#[cycle(convert)]
fn array_of(alloc: Global, items: &TomlArray) -> Result<Array>
    ensures given { IfOk result (λ values. ItemsGiven (toml_array items.now) (items_view values.items)) }
    ensures refused { IfErr result (λ e. IfSome (told e) (ItemsRefused (toml_array items.now))) }
{
    let mut values = Vec::with_capacity(alloc, items.len())?;
    for item in items {
        values.push(value_of(alloc, item)?)?;
    }
    Ok(values)
}

/// Returns the shortest text that TOML reads as the float.
fn text_of_float(alloc: Global, number: f64) -> std::result::Result<String, AllocError>
    ensures { IfOk result (λ text. IsFloatText number (string_bytes text)) }
{
    let mut formatter = Formatter::new(String::new(alloc));
    match write_float(&mut formatter, number) {
        Ok(()) => Ok(formatter.into_inner()),
        Err(_) => Err(AllocError),
    }
}
