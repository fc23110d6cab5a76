//! The texts of a scalar: its rendered text, its source and the name of its kind.
ghost use Rattle.std.specs.Prelude.{◌≡◌, Some, IfOk};
ghost use Rattle.std.specs.Cow.{cow_str_bytes};
ghost use Rattle.liquid_scalar.specs.meaning.Scalar.{scal, render_scalar, source_scalar, scalar_type_name};

use super::ScalarOf;
use std::alloc::{AllocError, Global};
use std::borrow::CowStr;
use std::convert::AsStr;
use std::fmt;

impl<T: AsStr> ScalarOf<T> {
    /// Returns a value that prints what the scalar renders as.
    pub fn render(&self) -> ScalarRender<'_, T>
        ensures { result.scalar.now ≡ self.now }
    {
        ScalarRender { scalar: self }
    }

    /// Returns a value that prints the source of the scalar.
    pub fn source(&self) -> ScalarSource<'_, T>
        ensures { result.scalar.now ≡ self.now }
    {
        ScalarSource { scalar: self }
    }

    /// Returns the name of the scalar's kind: `whole number`, `boolean`, `string`, `date` or `date time`.
    pub fn type_name(&self) -> &'static str
        ensures { result.now ≡ scalar_type_name (scal T.text self.now) }
    {
        match self {
            ScalarOf::Integer(_) => "whole number",
            ScalarOf::Bool(_) => "boolean",
            ScalarOf::Str(_) => "string",
            ScalarOf::Date(_) => "date",
            ScalarOf::DateTime(_) => "date time",
        }
    }

    /// Returns the text that the scalar renders as. A string or a boolean is borrowed.
    pub fn to_kstr(&self, alloc: Global) -> Result<CowStr<'_>, AllocError>
        ensures { IfOk result (λ t. cow_str_bytes t ≡ render_scalar (scal T.text self.now)) }
    {
        match self {
            ScalarOf::Integer(number) => Ok(CowStr::Owned(number.to_string(alloc)?)),
            ScalarOf::Bool(true) => Ok(CowStr::Borrowed("true")),
            ScalarOf::Bool(false) => Ok(CowStr::Borrowed("false")),
            ScalarOf::Str(text) => Ok(CowStr::Borrowed(text.as_str())),
            ScalarOf::Date(date) => Ok(CowStr::Owned(date.to_string(alloc)?)),
            ScalarOf::DateTime(date_time) => Ok(CowStr::Owned(date_time.to_string(alloc)?)),
        }
    }
}

/// Prints what a scalar renders as: a number in decimal, `true` or `false`, a string as it is, and a date or a date time
/// in its printed form.
#[derive(Clone, Copy)]
pub struct ScalarRender<'s, T> {
    pub scalar: &'s ScalarOf<T>,
}

impl<T: AsStr> fmt::Display for ScalarRender<'_, T> {
    ghost output = { λ d. Some (render_scalar (scal T.text d.scalar.now)) };

    fn fmt<W: fmt::Write>(&self, f: &mut fmt::Formatter<W>) -> fmt::Result {
        match self.scalar {
            ScalarOf::Integer(number) => write!(f, "{number}"),
            ScalarOf::Bool(truth) => write!(f, "{truth}"),
            ScalarOf::Str(text) => f.write_str(text.as_str()),
            ScalarOf::Date(date) => write!(f, "{date}"),
            ScalarOf::DateTime(date_time) => write!(f, "{date_time}"),
        }
    }
}

/// Prints the source of a scalar: a string between double quotes, unescaped, and any other scalar as it renders.
#[derive(Clone, Copy)]
pub struct ScalarSource<'s, T> {
    pub scalar: &'s ScalarOf<T>,
}

impl<T: AsStr> fmt::Display for ScalarSource<'_, T> {
    ghost output = { λ d. Some (source_scalar (scal T.text d.scalar.now)) };

    fn fmt<W: fmt::Write>(&self, f: &mut fmt::Formatter<W>) -> fmt::Result {
        match self.scalar {
            ScalarOf::Integer(number) => write!(f, "{number}"),
            ScalarOf::Bool(truth) => write!(f, "{truth}"),
            ScalarOf::Str(text) => {
                let text = text.as_str();
                write!(f, "\"{text}\"")
            }
            ScalarOf::Date(date) => write!(f, "{date}"),
            ScalarOf::DateTime(date_time) => write!(f, "{date_time}"),
        }
    }
}
