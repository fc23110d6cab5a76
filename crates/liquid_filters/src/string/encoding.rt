//! Filters that encode and decode a string.
ghost use Rattle.std.specs.Prelude.{Ok};
ghost use Rattle.liquid_error.specs.meaning.Told.{Gives};
ghost use Rattle.liquid_value.specs.meaning.View.{view as tree_of};
ghost use Rattle.liquid_filters.specs.meaning.string.Encoding.{base64_decoded, base64_encoded, decoded_text, url_decoded, url_encoded};
ghost use Rattle.liquid_strings.specs.meaning.Utf8.{text_of_bytes};
ghost use Rattle.liquid_filters.specs.meaning.string.Encoding.{base64_url_safe_decoded, base64_url_safe_encoded};

use crate::value::errors::{base64_error, not_text_error};
use base64::DecodeAllocError;
use base64::engine::general_purpose::{STANDARD, URL_SAFE};
use liquid_error::Error;
use liquid_scalar::ScalarOf;
use liquid_strings as strings;
use liquid_value::Value;
use std::alloc::Global;

/// Returns the text as a part of a URL. Nil is kept.
pub fn url_encode(alloc: Global, input: &Value) -> Result<Value, Error>
    ensures { Gives tree_of result (Ok (url_encoded (tree_of input.now))) }
{
    match input {
        Value::Nil => Ok(Value::Nil),
        other => {
            let text = other.to_kstr(alloc)?;
            let encoded = strings::url_encode(alloc, text.as_str())?;
            Ok(Value::Scalar(ScalarOf::Str(encoded)))
        }
    }
}

/// Returns the text of a part of a URL. Nil is kept. Fails for bytes that are not text.
pub fn url_decode(alloc: Global, input: &Value) -> Result<Value, Error>
    ensures { Gives tree_of result (url_decoded (tree_of input.now)) }
{
    match input {
        Value::Nil => Ok(Value::Nil),
        other => {
            let text = other.to_kstr(alloc)?;
            match strings::url_decode(alloc, text.as_str())? {
                Some(decoded) => Ok(Value::Scalar(ScalarOf::Str(decoded))),
                None => Err(not_text_error(alloc)),
            }
        }
    }
}

/// Returns the base64 of the text.
pub fn base64_encode(alloc: Global, input: &Value) -> Result<Value, Error>
    ensures { Gives tree_of result (Ok (base64_encoded (tree_of input.now))) }
{
    let text = input.to_kstr(alloc)?;
    let encoded = STANDARD.encode(alloc, text.as_str().as_bytes())?;
    Ok(Value::Scalar(ScalarOf::Str(encoded)))
}

/// Returns the text whose base64 is the input. Fails for a string that is not base64, and for bytes that are not text.
pub fn base64_decode(alloc: Global, input: &Value) -> Result<Value, Error>
    ensures { Gives tree_of result (base64_decoded (tree_of input.now)) }
{
    let text = input.to_kstr(alloc)?;
    match STANDARD.decode(alloc, text.as_str().as_bytes()) {
        Ok(bytes) => decode_text(alloc, bytes),
        Err(DecodeAllocError::DecodeError(_)) => Err(base64_error(alloc)),
        Err(DecodeAllocError::OutOfMemory) => Err(Error::Memory),
    }
}

/// Returns the base64 of the text, with `-` and `_` in place of `+` and `/`.
pub fn base64_url_safe_encode(alloc: Global, input: &Value) -> Result<Value, Error>
    ensures { Gives tree_of result (Ok (base64_url_safe_encoded (tree_of input.now))) }
{
    let text = input.to_kstr(alloc)?;
    let encoded = URL_SAFE.encode(alloc, text.as_str().as_bytes())?;
    Ok(Value::Scalar(ScalarOf::Str(encoded)))
}

/// Returns the text whose base64 with `-` and `_` is the input. Fails as [`base64_decode`] does.
pub fn base64_url_safe_decode(alloc: Global, input: &Value) -> Result<Value, Error>
    ensures { Gives tree_of result (base64_url_safe_decoded (tree_of input.now)) }
{
    let text = input.to_kstr(alloc)?;
    match URL_SAFE.decode(alloc, text.as_str().as_bytes()) {
        Ok(bytes) => decode_text(alloc, bytes),
        Err(DecodeAllocError::DecodeError(_)) => Err(base64_error(alloc)),
        Err(DecodeAllocError::OutOfMemory) => Err(Error::Memory),
    }
}

/// Returns bytes that were decoded, as a string. Fails for bytes that are not text.
fn decode_text(alloc: Global, bytes: Vec<u8>) -> Result<Value, Error>
    ensures { Gives tree_of result (decoded_text (text_of_bytes bytes.items)) }
{
    match strings::text_of_bytes(bytes) {
        Some(decoded) => Ok(Value::Scalar(ScalarOf::Str(decoded))),
        None => Err(not_text_error(alloc)),
    }
}
