//! The error of a pattern.
ghost use Rattle.std.specs.Prelude.{◌≡◌, IfSome, Some};
ghost use Rattle.liquid_dates.specs.meaning.ErrorText.{date_format_error_text};
ghost use Rattle.liquid_error.specs.meaning.Told.{told};
ghost use Rattle.filter_dates.specs.meaning.Errors.{error_of_pattern, pattern_error};

use liquid_dates::DateFormatError;
use liquid_error::Error;
use std::alloc::Global;

/// Returns the error for a pattern that a date time can't be printed by.
pub fn pattern_error(alloc: Global, error: DateFormatError, pattern: &str) -> Error
    ensures { IfSome (told result) (λ r. error_of_pattern error pattern.now ≡ Some r) }
{
    match error {
        DateFormatError::NoFormatSpecifier
        | DateFormatError::NoFormatSpecifierAfterModifier
        | DateFormatError::InvalidWidth => with_reason(alloc, error, pattern),
        DateFormatError::Memory => Error::Memory,
    }
}

fn with_reason(alloc: Global, reason: DateFormatError, pattern: &str) -> Error
    ensures { IfSome (told result) (λ r. r ≡ pattern_error (date_format_error_text reason) pattern.now) }
{
    match reason.to_string(alloc) {
        Ok(message) => {
            Error::with_msg(alloc, message.as_str()).context(alloc, "pattern", pattern)
        }
        Err(_) => Error::Memory,
    }
}
