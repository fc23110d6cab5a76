//! The rendered text and the source text of a value.
ghost use Rattle.std.specs.Prelude.{Some, ◌≡◌, ◌++◌, codes};
ghost use Rattle.std.specs.Fmt.{WritesOnOk};
ghost use Rattle.liquid_value.specs.meaning.Tree.{array, object};
ghost use Rattle.liquid_value.specs.meaning.View.{view, items_view, members_view};
ghost use Rattle.liquid_value.specs.meaning.Render.{render, render_items, render_members};
ghost use Rattle.liquid_value.specs.meaning.Render.{source, listed_items, listed_member, listed_members};

use crate::value::{Array, Object, Value};
use std::fmt;
use std::fmt::Display;

/// Prints the text that a value renders as.
#[derive(Clone, Copy)]
pub struct ValueRender<'v> {
    value: &'v Value,
}

impl<'v> ValueRender<'v> {
    pub fn new(value: &'v Value) -> Self
        ensures { result.value.now ≡ value.now }
    {
        ValueRender { value }
    }
}

impl fmt::Display for ValueRender<'_> {
    ghost output = { λ d. Some (render (view d.value.now)) };

    fn fmt<W: fmt::Write>(&self, f: &mut fmt::Formatter<W>) -> fmt::Result {
        write_value(self.value, f)
    }
}

#[cycle(render)]
pub(crate) fn write_value<W: fmt::Write>(value: &Value, f: &mut fmt::Formatter<W>) -> fmt::Result
    ensures { WritesOnOk W.write_str_gives f.old result (render (view value.now)) f.new }
{
    match value {
        Value::Scalar(scalar) => scalar.render().fmt(f),
        Value::Array(items) => write_items(items.as_array(), f),
        Value::Object(members) => write_members(members.as_object(), f),
        Value::State(_) | Value::Nil => Ok(()),
    }
}

#[cycle(render)]
fn write_items<W: fmt::Write>(items: &Array, f: &mut fmt::Formatter<W>) -> fmt::Result
    ensures { WritesOnOk W.write_str_gives f.old result (render_items (items_view items.now.items)) f.new }
{
    for item in items {
        write_value(item, f)?;
    }
    Ok(())
}

#[cycle(render)]
fn write_members<W: fmt::Write>(members: &Object, f: &mut fmt::Formatter<W>) -> fmt::Result
    ensures { WritesOnOk W.write_str_gives f.old result (render_members (members_view members.now.entries)) f.new }
{
    for (key, value) in members.iter() {
        write_member(key, value, f)?;
    }
    Ok(())
}

#[cycle(render)]
pub(crate) fn write_member<W: fmt::Write>(
    key: &str,
    value: &Value,
    f: &mut fmt::Formatter<W>,
) -> fmt::Result
    ensures { WritesOnOk W.write_str_gives f.old result (key.now ++ render (view value.now)) f.new }
{
    f.write_str(key)?;
    write_value(value, f)
}

/// Prints the source text of a value.
#[derive(Clone, Copy)]
pub struct ValueSource<'v> {
    value: &'v Value,
}

impl<'v> ValueSource<'v> {
    pub fn new(value: &'v Value) -> Self
        ensures { result.value.now ≡ value.now }
    {
        ValueSource { value }
    }
}

impl fmt::Display for ValueSource<'_> {
    ghost output = { λ d. Some (source (view d.value.now)) };

    fn fmt<W: fmt::Write>(&self, f: &mut fmt::Formatter<W>) -> fmt::Result {
        write_source(self.value, f)
    }
}

pub(crate) fn write_source<W: fmt::Write>(value: &Value, f: &mut fmt::Formatter<W>) -> fmt::Result
    ensures { WritesOnOk W.write_str_gives f.old result (source (view value.now)) f.new }
{
    match value {
        Value::Scalar(scalar) => scalar.source().fmt(f),
        Value::Array(items) => write_array_source(items.as_array(), f),
        Value::Object(members) => write_object_source(members.as_object(), f),
        Value::State(state) => f.write_str(state.type_name()),
        Value::Nil => f.write_str("nil"),
    }
}

fn write_array_source<W: fmt::Write>(items: &Array, f: &mut fmt::Formatter<W>) -> fmt::Result
    ensures { WritesOnOk W.write_str_gives f.old result (source (array (items_view items.now.items))) f.new }
{
    f.write_str("[")?;
    list_items(items, f)?;
    f.write_str("]")
}

fn write_object_source<W: fmt::Write>(members: &Object, f: &mut fmt::Formatter<W>) -> fmt::Result
    ensures { WritesOnOk W.write_str_gives f.old result (source (object (members_view members.now.entries))) f.new }
{
    f.write_str("{")?;
    list_members(members, f)?;
    f.write_str("}")
}

fn list_items<W: fmt::Write>(items: &Array, f: &mut fmt::Formatter<W>) -> fmt::Result
    ensures { WritesOnOk W.write_str_gives f.old result (listed_items (items_view items.now.items)) f.new }
{
    for item in items {
        list_item(item, f)?;
    }
    Ok(())
}

fn list_item<W: fmt::Write>(item: &Value, f: &mut fmt::Formatter<W>) -> fmt::Result
    ensures { WritesOnOk W.write_str_gives f.old result (render (view item.now) ++ codes ", ") f.new }
{
    write_value(item, f)?;
    f.write_str(", ")
}

fn list_members<W: fmt::Write>(members: &Object, f: &mut fmt::Formatter<W>) -> fmt::Result
    ensures { WritesOnOk W.write_str_gives f.old result (listed_members (members_view members.now.entries)) f.new }
{
    for (key, value) in members.iter() {
        list_member(key.as_str(), value, f)?;
    }
    Ok(())
}

fn list_member<W: fmt::Write>(key: &str, value: &Value, f: &mut fmt::Formatter<W>) -> fmt::Result
    ensures { WritesOnOk W.write_str_gives f.old result
        (listed_member key.now (view value.now)) f.new }
{
    f.write_str("\"")?;
    f.write_str(key)?;
    f.write_str("\": ")?;
    write_value(value, f)?;
    f.write_str(", ")
}
