//! What a tag or a block sees of the names around it.
ghost use Rattle.std.specs.Prelude.{◌≡◌, [], ◌∷◌, option_map, string_bytes, IfOk};
ghost use Rattle.liquid_paths.specs.meaning.PathOf.{index_of};
ghost use Rattle.liquid_runtime.specs.meaning.Lookup.{try_path};
ghost use Rattle.liquid_scalar.specs.meaning.Scalar.{text};
ghost use Rattle.liquid_value.specs.meaning.Cow.{cow_view};
ghost use Rattle.liquid_value.specs.meaning.View.{view as tree_of};
ghost use Rattle.jekyll_tags.specs.meaning.Seen as Spec;

use liquid_core::model::{Scalar, ScalarCow, ScalarOf, ValueRender};
use liquid_core::{Runtime, Value, ValueCow};
use std::alloc::{AllocError, Global};
use std::borrow::CowStr;

/// Returns the value of a name, if it has one.
pub(crate) fn value_seen<'r, R: Runtime>(
    alloc: Global,
    name: &str,
    runtime: &'r R,
) -> Result<Option<ValueCow<'r>>, AllocError>
    ensures { IfOk result (λ v. option_map cow_view v ≡ try_path (R.view runtime.now) (text name.now ∷ [])) }
{
    let name: ScalarCow<'_> = ScalarOf::Str(CowStr::Borrowed(name));
    runtime.try_get(alloc, &[name])
}

/// Returns the text of the value of a name; none for a name without a value.
pub(crate) fn text_seen<R: Runtime>(
    alloc: Global,
    name: &str,
    runtime: &R,
) -> Result<String, AllocError>
    ensures { IfOk result (λ t. string_bytes t ≡ Spec.text_seen name.now (R.view runtime.now)) }
{
    match value_seen(alloc, name, runtime)? {
        Some(value) => ValueRender::new(value.as_view()).to_string(alloc),
        None => Ok(String::new(alloc)),
    }
}

/// Returns a member of an object, if it has one of this name. Other values have none.
pub(crate) fn member<'v>(value: &'v Value, name: &str) -> Option<&'v Value>
    ensures { option_map (λ found. tree_of found.now) result ≡ Spec.member name.now (tree_of value.now) }
{
    match value.as_object() {
        Some(members) => members.get(name),
        None => None,
    }
}

/// Returns the text of a member; none if there is none of this name.
pub(crate) fn member_text(alloc: Global, value: &Value, name: &str) -> Result<String, AllocError>
    ensures { IfOk result (λ t. string_bytes t ≡ Spec.member_text name.now (tree_of value.now)) }
{
    match member(value, name) {
        Some(found) => ValueRender::new(found).to_string(alloc),
        None => Ok(String::new(alloc)),
    }
}

/// Returns the text of a member that is neither nil nor false, if there is one of this name.
pub(crate) fn given_text(
    alloc: Global,
    value: &Value,
    name: &str,
) -> Result<Option<String>, AllocError>
    ensures { IfOk result (λ t. option_map string_bytes t ≡ Spec.given_text name.now (tree_of value.now)) }
{
    match member(value, name) {
        Some(Value::Nil | Value::Scalar(Scalar::Bool(false))) | None => Ok(None),
        Some(found) => Ok(Some(ValueRender::new(found).to_string(alloc)?)),
    }
}

/// Returns a member that is a text, if there is one of this name.
pub(crate) fn text_member<'v>(value: &'v Value, name: &str) -> Option<&'v str>
    ensures { option_map (λ t. t.now) result ≡ Spec.text_member name.now (tree_of value.now) }
{
    match member(value, name) {
        Some(found) => text_of(found),
        None => None,
    }
}

/// Returns the text that a value is, if it is one.
fn text_of(value: &Value) -> Option<&str>
    ensures { option_map (λ t. t.now) result ≡ Spec.text_of (tree_of value.now) }
{
    match value {
        Value::Scalar(Scalar::Str(text)) => Some(text.as_str()),
        _ => None,
    }
}
