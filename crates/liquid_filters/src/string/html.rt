//! Filters for HTML.
ghost use Rattle.std.specs.Prelude.{Ok};
ghost use Rattle.liquid_error.specs.meaning.Told.{Gives};
ghost use Rattle.liquid_value.specs.meaning.View.{view as tree_of};
ghost use Rattle.liquid_filters.specs.meaning.string.Html.{html_escaped, html_escaped_once, without_tags};

use liquid_error::Error;
use liquid_scalar::ScalarOf;
use liquid_strings as strings;
use liquid_value::Value;
use std::alloc::Global;

/// Returns the text with each of `&`, `<`, `>`, `"` and `'` as its entity. Nil is kept.
pub fn escape(alloc: Global, input: &Value) -> Result<Value, Error>
    ensures { Gives tree_of result (Ok (html_escaped (tree_of input.now))) }
{
    match input {
        Value::Nil => Ok(Value::Nil),
        other => {
            let text = other.to_kstr(alloc)?;
            let escaped = strings::escape(alloc, text.as_str())?;
            Ok(Value::Scalar(ScalarOf::Str(escaped)))
        }
    }
}

/// Returns the text with each of these characters as its entity, except for an `&` that begins an entity.
pub fn escape_once(alloc: Global, input: &Value) -> Result<Value, Error>
    ensures { Gives tree_of result (Ok (html_escaped_once (tree_of input.now))) }
{
    let text = input.to_kstr(alloc)?;
    let escaped = strings::escape_once(alloc, text.as_str())?;
    Ok(Value::Scalar(ScalarOf::Str(escaped)))
}

/// Returns the text without scripts, comments and styles, and then without tags.
pub fn strip_html(alloc: Global, input: &Value) -> Result<Value, Error>
    ensures { Gives tree_of result (Ok (without_tags (tree_of input.now))) }
{
    let text = input.to_kstr(alloc)?;
    let rest = strings::strip_tags(alloc, text.as_str())?;
    Ok(Value::Scalar(ScalarOf::Str(rest)))
}
