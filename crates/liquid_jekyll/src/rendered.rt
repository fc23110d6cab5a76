//! Strings that a host has rendered for a filter, in the object `rendered`.
ghost use Rattle.std.specs.Prelude.{◌≡◌, option_map, IfSome};
ghost use Rattle.liquid_error.specs.meaning.Told.{Gives, told};
ghost use Rattle.liquid_value.specs.meaning.View.{view as tree_of};
ghost use Rattle.liquid_jekyll.specs.meaning.Rendered as Spec;

use crate::seen::{member, value_seen};
use crate::text::smartify;
use liquid_error::Error;
use liquid_runtime::Runtime;
use liquid_scalar::ScalarOf;
use liquid_value::Value;
use std::alloc::Global;

/// Returns the input's entry in the object that `rendered` has under the filter's name. Without an entry it is an error.
pub(crate) fn look_up_text<R: Runtime>(
    alloc: Global,
    filter: &str,
    input: &Value,
    runtime: &R,
) -> Result<Value, Error>
    ensures { Gives tree_of result (Spec.rendered_text filter.now (tree_of input.now) (R.view runtime.now)) }
{
    let text = input.to_kstr(alloc)?;
    let rendered = value_seen(alloc, "rendered", runtime)?;
    match entry(rendered.as_view(), filter, text.as_str()) {
        Some(found) => Ok(found.clone()?),
        None => Err(no_rendered_text(alloc, filter, text.as_str())),
    }
}

/// Returns the input's entry of the filter `smartify`. Without an entry it is the text with typographic signs, or an error
/// if that needs a reader of HTML.
pub(crate) fn smart_text<R: Runtime>(
    alloc: Global,
    input: &Value,
    runtime: &R,
) -> Result<Value, Error>
    ensures { Gives tree_of result (Spec.smart_text (tree_of input.now) (R.view runtime.now)) }
{
    let text = input.to_kstr(alloc)?;
    let rendered = value_seen(alloc, "rendered", runtime)?;
    match entry(rendered.as_view(), "smartify", text.as_str()) {
        Some(found) => Ok(found.clone()?),
        None => typographic(alloc, text.as_str()),
    }
}

/// Returns the entry of a string in the object that a filter's texts are in.
fn entry<'v>(rendered: &'v Value, filter: &str, text: &str) -> Option<&'v Value>
    ensures { option_map (λ found. tree_of found.now) result ≡ Spec.entry filter.now text.now (tree_of rendered.now) }
{
    match member(rendered, filter) {
        Some(texts) => member(texts, text),
        None => None,
    }
}

fn typographic(alloc: Global, text: &str) -> Result<Value, Error>
    ensures { Gives tree_of result (Spec.typographic text.now) }
{
    match smartify(alloc, text)? {
        Some(smart) => Ok(Value::Scalar(ScalarOf::Str(smart))),
        None => Err(no_rendered_text(alloc, "smartify", text)),
    }
}

/// Returns the error of a string that the host has not rendered.
fn no_rendered_text(alloc: Global, filter: &str, text: &str) -> Error
    ensures { IfSome (told result) (λ r. r ≡ Spec.no_rendered_text filter.now text.now) }
{
    Error::with_msg(alloc, "No rendered text")
        .context(alloc, "filter", filter)
        .context(alloc, "text", text)
}
