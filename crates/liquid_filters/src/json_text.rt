//! The filter `json`.
ghost use Rattle.std.specs.Prelude.{◌≡◌, ◌++◌, OnOk, Ok, codes, false, string_bytes};
ghost use Rattle.liquid_error.specs.meaning.Told.{Gives};
ghost use Rattle.liquid_scalar.specs.meaning.Scalar.{scal};
ghost use Rattle.liquid_value.specs.meaning.View.{view as tree_of, items_view, members_view};
ghost use Rattle.liquid_value.specs.meaning.Tree.{array, object};
ghost use Rattle.liquid_filters.specs.meaning.Json.{as_json, comma, items_json, json_text, members_json, quoted, scalar_json};

use liquid_error::Error;
use liquid_scalar::{Scalar, ScalarOf};
use liquid_value::{Array, Object, Value};
use serde_json::Value as Json;
use std::alloc::{AllocError, Global};

/// Returns the input as JSON without whitespace.
pub fn json(alloc: Global, input: &Value) -> Result<Value, Error>
    ensures { Gives tree_of result (Ok (as_json (tree_of input.now))) }
{
    let mut out = String::new(alloc);
    push_json(alloc, input, &mut out)?;
    Ok(Value::Scalar(ScalarOf::Str(out)))
}

/// Appends the JSON of a value.
#[cycle(json)]
fn push_json(alloc: Global, value: &Value, out: &mut String) -> Result<(), AllocError>
    ensures { OnOk result (string_bytes out.new ≡ string_bytes out.old ++ json_text (tree_of value.now)) }
{
    match value {
        Value::Scalar(scalar) => push_scalar(alloc, scalar, out),
        Value::Array(items) => push_items(alloc, items.as_array(), out),
        Value::Object(members) => push_members(alloc, members.as_object(), out),
        Value::State(_) | Value::Nil => out.push_str("null"),
    }
}

#[cycle(json)]
fn push_items(alloc: Global, items: &Array, out: &mut String) -> Result<(), AllocError>
    ensures { OnOk result (string_bytes out.new ≡ string_bytes out.old ++ json_text (array (items_view items.now.items))) }
{
    out.push_str("[")?;
    push_listed(alloc, items, out)?;
    out.push_str("]")
}

#[cycle(json)]
fn push_listed(alloc: Global, items: &Array, out: &mut String) -> Result<(), AllocError>
    ensures { OnOk result (string_bytes out.new ≡ string_bytes out.old ++ items_json false (items_view items.now.items)) }
{
    let mut later = false;
    for item in items {
        push_item(alloc, later, item, out)?;
        later = true;
    }
    Ok(())
}

/// Appends an item, with a comma before it if it is not the first.
#[cycle(json)]
fn push_item(alloc: Global, later: bool, item: &Value, out: &mut String) -> Result<(), AllocError>
    ensures { OnOk result (string_bytes out.new ≡ string_bytes out.old ++ (comma later ++ json_text (tree_of item.now))) }
{
    push_comma(later, out)?;
    push_json(alloc, item, out)
}

#[cycle(json)]
fn push_members(alloc: Global, members: &Object, out: &mut String) -> Result<(), AllocError>
    ensures { OnOk result (string_bytes out.new ≡ string_bytes out.old ++ json_text (object (members_view members.now.entries))) }
{
    out.push_str("{")?;
    push_entries(alloc, members, out)?;
    out.push_str("}")
}

#[cycle(json)]
fn push_entries(alloc: Global, members: &Object, out: &mut String) -> Result<(), AllocError>
    ensures { OnOk result (string_bytes out.new ≡ string_bytes out.old ++ members_json false (members_view members.now.entries)) }
{
    let mut later = false;
    for (name, member) in members.iter() {
        push_member(alloc, later, name, member, out)?;
        later = true;
    }
    Ok(())
}

/// Appends a member, with a comma before it if it is not the first.
#[cycle(json)]
fn push_member(
    alloc: Global,
    later: bool,
    name: &str,
    member: &Value,
    out: &mut String,
) -> Result<(), AllocError>
    ensures { OnOk result (string_bytes out.new ≡ string_bytes out.old
        ++ (comma later ++ (quoted name.now ++ (codes ":" ++ json_text (tree_of member.now))))) }
{
    push_comma(later, out)?;
    push_text(alloc, name, out)?;
    out.push_str(":")?;
    push_json(alloc, member, out)
}

fn push_comma(later: bool, out: &mut String) -> Result<(), AllocError>
    ensures { OnOk result (string_bytes out.new ≡ string_bytes out.old ++ comma later) }
{
    if later { out.push_str(",") } else { Ok(()) }
}

fn push_scalar(alloc: Global, scalar: &Scalar, out: &mut String) -> Result<(), AllocError>
    ensures { OnOk result (string_bytes out.new ≡ string_bytes out.old ++ scalar_json (scal string_bytes scalar.now)) }
{
    match scalar {
        ScalarOf::Integer(_) | ScalarOf::Bool(_) => {
            let text = scalar.to_kstr(alloc)?;
            out.push_str(text.as_str())
        }
        other => {
            let text = other.to_kstr(alloc)?;
            push_text(alloc, text.as_str(), out)
        }
    }
}

/// Appends the text in quotes.
fn push_text(alloc: Global, text: &str, out: &mut String) -> Result<(), AllocError>
    ensures { OnOk result (string_bytes out.new ≡ string_bytes out.old ++ quoted text.now) }
{
    let quoted = Json::String(String::from_str(alloc, text)?).to_string(alloc)?;
    out.push_str(quoted.as_str())
}
