//! The errors of dates and of patterns.
ghost use Rattle.std.specs.Prelude.{◌≡◌, Some};
ghost use Rattle.liquid_dates.specs.meaning.ErrorText.{date_error_text, date_format_error_text};

use std::alloc::AllocError;
use std::error::Error;
use std::fmt;

/// Why a date or a date time can't be made, changed or written.
#[derive(Clone, Copy, Debug, PartialEq, Eq)]
pub enum DateError {
    /// A date that the calendar doesn't have, a time that a clock doesn't show, or an offset of 26 hours or more.
    PartOutOfRange,
    /// The result is before the year -9999 or after the year 9999.
    OutsideYears,
    /// The year is below 1900, or the offset has seconds.
    NoRfc2822Form,
    /// There was no memory for the text.
    Memory,
}

impl fmt::Display for DateError {
    ghost output = { λ e. Some (date_error_text e) };

    fn fmt<W: fmt::Write>(&self, f: &mut fmt::Formatter<W>) -> fmt::Result {
        f.write_str(match *self {
            DateError::PartOutOfRange => "part out of range",
            DateError::OutsideYears => "result outside the years",
            DateError::NoRfc2822Form => "no RFC 2822 form",
            DateError::Memory => "out of memory",
        })
    }
}

impl Error for DateError {}

impl From<AllocError> for DateError {
    ghost use Rattle.liquid_dates.specs.declared.error.DateError.{DateError};

    ghost from_gives = { λ _ e. e ≡ DateError.Memory };

    fn from(_: AllocError) -> DateError {
        DateError::Memory
    }
}

/// Why a pattern can't be printed.
#[derive(Clone, Copy, Debug, PartialEq, Eq)]
pub enum DateFormatError {
    /// The pattern ends after a `%`, its flags or its width.
    NoFormatSpecifier,
    /// The pattern ends after the modifier `E` or `O`.
    NoFormatSpecifierAfterModifier,
    /// A width that is too great for a `usize`.
    InvalidWidth,
    /// There was no memory for the text.
    Memory,
}

impl fmt::Display for DateFormatError {
    ghost output = { λ e. Some (date_format_error_text e) };

    fn fmt<W: fmt::Write>(&self, f: &mut fmt::Formatter<W>) -> fmt::Result {
        f.write_str(match *self {
            DateFormatError::NoFormatSpecifier => "no format specifier following '%'",
            DateFormatError::NoFormatSpecifierAfterModifier => {
                "no format specifier following '%' with a format modifier"
            }
            DateFormatError::InvalidWidth => {
                "failed to parse padding width: number too large to fit in target type"
            }
            DateFormatError::Memory => "out of memory",
        })
    }
}

impl Error for DateFormatError {}

impl From<AllocError> for DateFormatError {
    ghost use Rattle.liquid_dates.specs.declared.error.DateFormatError.{DateFormatError};

    ghost from_gives = { λ _ e. e ≡ DateFormatError.Memory };

    fn from(_: AllocError) -> DateFormatError {
        DateFormatError::Memory
    }
}
