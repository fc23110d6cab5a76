//! What a filter reads of the names around it.
ghost use Rattle.std.specs.Prelude.{◌≡◌, option_map, string_bytes, IfOk};
ghost use Rattle.liquid_value.specs.meaning.Cow.{cow_view};
ghost use Rattle.liquid_value.specs.meaning.View.{view as tree_of};
ghost use Rattle.liquid_jekyll.specs.meaning.Seen as Spec;

use liquid_runtime::Runtime;
use liquid_scalar::{ScalarCow, ScalarOf};
use liquid_value::render::ValueRender;
use liquid_value::{Value, ValueCow};
use std::alloc::{AllocError, Global};
use std::borrow::CowStr;

/// Returns the value of a name; nil for a name without a value.
pub(crate) fn value_seen<'r, R: Runtime>(
    alloc: Global,
    name: &str,
    runtime: &'r R,
) -> Result<ValueCow<'r>, AllocError>
    ensures { IfOk result (λ v. cow_view v ≡ Spec.value_seen name.now (R.view runtime.now)) }
{
    let name: ScalarCow<'_> = ScalarOf::Str(CowStr::Borrowed(name));
    match runtime.try_get(alloc, &[name])? {
        Some(value) => Ok(value),
        None => Ok(ValueCow::Owned(Value::Nil)),
    }
}

/// Returns a member of an object, if it has one of this name. Other values have none.
pub(crate) fn member<'v>(value: &'v Value, name: &str) -> Option<&'v Value>
    ensures { option_map (λ found. tree_of found.now) result ≡ Spec.member name.now (tree_of value.now) }
{
    match value.as_object() {
        Some(members) => members.get(name),
        None => None,
    }
}

/// Returns the text of a member; none if there is none of this name.
pub(crate) fn member_text(alloc: Global, value: &Value, name: &str) -> Result<String, AllocError>
    ensures { IfOk result (λ t. string_bytes t ≡ Spec.member_text name.now (tree_of value.now)) }
{
    match member(value, name) {
        Some(found) => ValueRender::new(found).to_string(alloc),
        None => Ok(String::new(alloc)),
    }
}
