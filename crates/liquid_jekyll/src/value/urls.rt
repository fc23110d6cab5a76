//! Jekyll's filters on URLs, given the URL of the site and the path that it begins at.
ghost use Rattle.std.specs.Prelude.{codes, option_map, string_bytes, IfOk, Ok, ◌≡◌};
ghost use Rattle.liquid_error.specs.meaning.Told.{Gives};
ghost use Rattle.liquid_value.specs.meaning.Members.{get_member};
ghost use Rattle.liquid_value.specs.meaning.Parts.{is_nil};
ghost use Rattle.liquid_value.specs.meaning.Render.{render};
ghost use Rattle.liquid_value.specs.meaning.View.{view as tree_of, members_view};
ghost use Rattle.liquid_jekyll.specs.meaning.url.Sites as Sites;
ghost use Rattle.liquid_jekyll.specs.meaning.value.Urls as Spec;

use crate::url as urls;
use liquid_error::Error;
use liquid_scalar::ScalarOf;
use liquid_value::{Object, Value};
use std::alloc::{AllocError, Global};

/// Returns the text as a path of the site, after the path that it begins at. Nil is kept, and a string with a scheme. Of an
/// object its member `url` is meant, if it has one.
pub fn relative_url(alloc: Global, base: &str, input: &Value) -> Result<Value, Error>
    ensures { Gives tree_of result (Ok (Spec.relative_url base.now (tree_of input.now))) }
{
    if is_nil(input) {
        return Ok(Value::Nil);
    }
    let text = url_value(input).to_kstr(alloc)?;
    let url = urls::relative_url(alloc, base, text.as_str())?;
    Ok(Value::Scalar(ScalarOf::Str(url)))
}

/// Returns the same after the URL of the site, if that isn't empty.
pub fn absolute_url(alloc: Global, site: &str, base: &str, input: &Value) -> Result<Value, Error>
    ensures { Gives tree_of result (Ok (Spec.absolute_url site.now base.now (tree_of input.now))) }
{
    if is_nil(input) {
        return Ok(Value::Nil);
    }
    let url = absolute_text(alloc, site, base, input)?;
    Ok(Value::Scalar(ScalarOf::Str(url)))
}

/// Returns the URL of a value that isn't nil.
fn absolute_text(alloc: Global, site: &str, base: &str, input: &Value) -> Result<String, AllocError>
    ensures { IfOk result (λ t. string_bytes t ≡ Sites.absolute_url site.now base.now (render (Spec.url_value (tree_of input.now)))) }
{
    let text = url_value(input).to_kstr(alloc)?;
    urls::absolute_url(alloc, site, base, text.as_str())
}

fn is_nil(input: &Value) -> bool
    ensures { result ≡ is_nil (tree_of input.now) }
{
    match input {
        Value::Nil => true,
        _ => false,
    }
}

/// Returns the value whose text is meant.
fn url_value(input: &Value) -> &Value
    ensures { tree_of result.now ≡ Spec.url_value (tree_of input.now) }
{
    match input {
        Value::Object(members) => match own_url(members) {
            Some(url) => url,
            None => input,
        },
        other => other,
    }
}

fn own_url(members: &Object) -> Option<&Value>
    ensures { option_map (λ v. tree_of v.now) result ≡ get_member (codes "url") (members_view members.now.entries) }
{
    members.get("url")
}
