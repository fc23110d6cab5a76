//! Jekyll's filters on strings.
ghost use Rattle.std.specs.Prelude.{◌≡◌, map, string_bytes, IfOk, Ok};
ghost use Rattle.liquid_error.specs.meaning.Told.{Gives};
ghost use Rattle.liquid_value.specs.meaning.Cow.{cow_view};
ghost use Rattle.liquid_value.specs.meaning.View.{view as tree_of};
ghost use Rattle.liquid_jekyll.specs.meaning.value.Texts as Spec;

use crate::text as jekyll;
use crate::text::{SlugMode, WordMode};
use crate::url::{UrlPart, clean};
use liquid_error::Error;
use liquid_filters::value::errors::unexpected_arguments_error;
use liquid_scalar::ScalarOf;
use liquid_strings::to_lowercase;
use liquid_value::{Value, ValueCow};
use std::alloc::{AllocError, Global};

/// Returns the text with one space in place of each run of whitespace, and none at the ends.
pub fn normalize_whitespace(alloc: Global, input: &Value) -> Result<Value, Error>
    ensures { Gives tree_of result (Ok (Spec.normalized (tree_of input.now))) }
{
    let text = input.to_kstr(alloc)?;
    let normalized = jekyll::normalize_whitespace(alloc, text.as_str())?;
    Ok(Value::Scalar(ScalarOf::Str(normalized)))
}

/// Returns the text with each of `&`, `<`, `>`, `"` and `'` as its entity in XML.
pub fn xml_escape(alloc: Global, input: &Value) -> Result<Value, Error>
    ensures { Gives tree_of result (Ok (Spec.xml_escaped (tree_of input.now))) }
{
    let text = input.to_kstr(alloc)?;
    let escaped = jekyll::xml_escape(alloc, text.as_str())?;
    Ok(Value::Scalar(ScalarOf::Str(escaped)))
}

/// Returns the text with an escape of each character that doesn't mean itself in a URL. Nil is kept.
pub fn uri_escape(alloc: Global, input: &Value) -> Result<Value, Error>
    ensures { Gives tree_of result (Ok (Spec.uri_escaped (tree_of input.now))) }
{
    match input {
        Value::Nil => Ok(Value::Nil),
        other => {
            let text = other.to_kstr(alloc)?;
            let escaped = clean(alloc, text.as_str(), UrlPart::Whole)?;
            Ok(Value::Scalar(ScalarOf::Str(escaped)))
        }
    }
}

/// Returns the text with a slash in place of the first `/index.html` or `/index.htm` that ends a line, or nil if the
/// text is empty.
pub fn strip_index(alloc: Global, input: &Value) -> Result<Value, Error>
    ensures { Gives tree_of result (Ok (Spec.index_stripped (tree_of input.now))) }
{
    let text = input.to_kstr(alloc)?;
    if text.as_str().is_empty() {
        return Ok(Value::Nil);
    }
    let stripped = jekyll::strip_index(alloc, text.as_str())?;
    Ok(Value::Scalar(ScalarOf::Str(stripped)))
}

/// Returns the slug of the text by the mode that the argument names: `default`, `raw`, `pretty`, `ascii` or `latin`. Any
/// other name gives the text in lower case. Nil is kept.
pub fn slugify(alloc: Global, input: &Value, arguments: &[ValueCow<'_>]) -> Result<Value, Error>
    ensures { Gives tree_of result (Spec.slugified (tree_of input.now) (map cow_view arguments.now)) }
{
    match arguments {
        [] => slugify_by(alloc, input, Some(SlugMode::Default)),
        [name] => {
            let mode = slug_mode_of(alloc, name.as_view())?;
            slugify_by(alloc, input, mode)
        }
        _ => Err(unexpected_arguments_error(alloc)),
    }
}

fn slugify_by(alloc: Global, input: &Value, mode: Option<SlugMode>) -> Result<Value, Error>
    ensures { Gives tree_of result (Ok (Spec.slugified_by mode (tree_of input.now))) }
{
    match input {
        Value::Nil => Ok(Value::Nil),
        other => {
            let text = other.to_kstr(alloc)?;
            let slug = slug_by(alloc, text.as_str(), mode)?;
            Ok(Value::Scalar(ScalarOf::Str(slug)))
        }
    }
}

fn slug_by(alloc: Global, text: &str, mode: Option<SlugMode>) -> Result<String, AllocError>
    ensures { IfOk result (λ t. string_bytes t ≡ Spec.slug_by mode text.now) }
{
    match mode {
        Some(mode) => jekyll::slugify(alloc, text, mode),
        None => to_lowercase(alloc, text),
    }
}

fn slug_mode_of(alloc: Global, name: &Value) -> Result<Option<SlugMode>, AllocError>
    ensures { IfOk result (λ mode. mode ≡ Spec.slug_mode_of (tree_of name.now)) }
{
    match name {
        Value::Nil => Ok(Some(SlugMode::Default)),
        other => {
            let name = other.to_kstr(alloc)?;
            Ok(slug_mode(name.as_str()))
        }
    }
}

fn slug_mode(name: &str) -> Option<SlugMode>
    ensures { result ≡ Spec.slug_mode name.now }
{
    if name == "default" {
        Some(SlugMode::Default)
    } else if name == "raw" {
        Some(SlugMode::Raw)
    } else if name == "pretty" {
        Some(SlugMode::Pretty)
    } else if name == "ascii" {
        Some(SlugMode::Ascii)
    } else if name == "latin" {
        Some(SlugMode::Latin)
    } else {
        None
    }
}

/// Returns the number of words of the text. The argument says what counts as one: `cjk`, `auto`, or by default each run
/// without whitespace.
pub fn number_of_words(
    alloc: Global,
    input: &Value,
    arguments: &[ValueCow<'_>],
) -> Result<Value, Error>
    ensures { Gives tree_of result (Spec.words_counted (tree_of input.now) (map cow_view arguments.now)) }
{
    match arguments {
        [] => count_words(alloc, input, WordMode::Spaced),
        [name] => {
            let name = name.as_view().to_kstr(alloc)?;
            count_words(alloc, input, word_mode(name.as_str()))
        }
        _ => Err(unexpected_arguments_error(alloc)),
    }
}

fn word_mode(name: &str) -> WordMode
    ensures { result ≡ Spec.word_mode name.now }
{
    if name == "cjk" {
        WordMode::Mixed
    } else if name == "auto" {
        WordMode::Auto
    } else {
        WordMode::Spaced
    }
}

fn count_words(alloc: Global, input: &Value, mode: WordMode) -> Result<Value, Error>
    ensures { Gives tree_of result (Ok (Spec.counted mode (tree_of input.now))) }
{
    let text = input.to_kstr(alloc)?;
    match i64::try_from(jekyll::number_of_words(text.as_str(), mode)) {
        Ok(number) => Ok(Value::Scalar(ScalarOf::Integer(number))),
        Err(_) => Err(Error::Memory),
    }
}
