//! The errors of standard filters.
ghost use Rattle.std.specs.Prelude.{◌≡◌, IfSome};
ghost use Rattle.liquid_error.specs.meaning.Told.{told};
ghost use Rattle.liquid_value.specs.meaning.View.{view as tree_of};
ghost use Rattle.liquid_filters.specs.meaning.value.Errors.{array_expected, decoded_no_text, digits_past_limit};
ghost use Rattle.liquid_filters.specs.meaning.value.Errors.{divided_by_zero, found_error};
ghost use Rattle.liquid_filters.specs.meaning.value.Errors.{invalid_base64, object_expected, past_limit, unexpected_arguments};
ghost use Rattle.liquid_filters.specs.meaning.value.Errors.{whole_number_expected, without_order};

use liquid_error::Error;
use liquid_value::Value;
use liquid_value::render::ValueSource;
use std::alloc::Global;

/// Returns the error for too few or too many arguments.
pub fn unexpected_arguments_error(alloc: Global) -> Error
    ensures { IfSome (told result) (λ r. r ≡ unexpected_arguments) }
{
    Error::with_msg(alloc, "Unexpected arguments")
}

/// Returns the error for a value that is not a number.
pub fn whole_number_error(alloc: Global, value: &Value) -> Error
    ensures { IfSome (told result) (λ r. r ≡ whole_number_expected (tree_of value.now)) }
{
    found_error(alloc, "Whole number expected", value)
}

/// Returns the error for a result that is too large or too small.
pub fn past_limit_error(alloc: Global) -> Error
    ensures { IfSome (told result) (λ r. r ≡ past_limit) }
{
    Error::with_msg(alloc, "Number past its limit")
}

/// Returns the error for digits after the point that are too few for a number, or fewer than none.
pub fn digits_past_limit_error(alloc: Global) -> Error
    ensures { IfSome (told result) (λ r. r ≡ digits_past_limit) }
{
    Error::with_msg(alloc, "Digits past their limit")
}

/// Returns the error for a division by 0.
pub fn division_by_zero_error(alloc: Global) -> Error
    ensures { IfSome (told result) (λ r. r ≡ divided_by_zero) }
{
    Error::with_msg(alloc, "Divided by zero")
}

/// Returns the error for a value that is not an array.
pub fn array_error(alloc: Global, value: &Value) -> Error
    ensures { IfSome (told result) (λ r. r ≡ array_expected (tree_of value.now)) }
{
    found_error(alloc, "Array expected", value)
}

/// Returns the error for a value that can have no property, since it is not an object.
pub fn object_error(alloc: Global, property: &str, value: &Value) -> Error
    ensures { IfSome (told result) (λ r. r ≡ object_expected property.now (tree_of value.now)) }
{
    match ValueSource::new(value).to_string(alloc) {
        Ok(source) => Error::with_msg(alloc, "Object expected")
            .context(alloc, "property", property)
            .context(alloc, "found", source.as_str()),
        Err(_) => Error::Memory,
    }
}

/// Returns the error for two values that have no order.
pub fn order_error(alloc: Global, first: &Value, second: &Value) -> Error
    ensures { IfSome (told result) (λ r. r ≡ without_order (tree_of first.now) (tree_of second.now)) }
{
    let Ok(first) = ValueSource::new(first).to_string(alloc) else {
        return Error::Memory;
    };
    let Ok(second) = ValueSource::new(second).to_string(alloc) else {
        return Error::Memory;
    };
    Error::with_msg(alloc, "Values without an order")
        .context(alloc, "first", first.as_str())
        .context(alloc, "second", second.as_str())
}

/// Returns the error for a string that is not the base64 of any bytes.
pub fn base64_error(alloc: Global) -> Error
    ensures { IfSome (told result) (λ r. r ≡ invalid_base64) }
{
    Error::with_msg(alloc, "Invalid base64")
}

/// Returns the error for decoded bytes that are not UTF-8.
pub fn not_text_error(alloc: Global) -> Error
    ensures { IfSome (told result) (λ r. r ≡ decoded_no_text) }
{
    Error::with_msg(alloc, "Decoded bytes are no text")
}

fn found_error(alloc: Global, message: &str, value: &Value) -> Error
    ensures { IfSome (told result) (λ r. r ≡ found_error message.now (tree_of value.now)) }
{
    match ValueSource::new(value).to_string(alloc) {
        Ok(source) => Error::with_msg(alloc, message).context(alloc, "found", source.as_str()),
        Err(_) => Error::Memory,
    }
}
