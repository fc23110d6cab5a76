//! Conversions that take a scalar by value, and clones.
ghost use Rattle.std.specs.Prelude.{◌≡◌, pos, IfOk, string_bytes};
ghost use Rattle.std.specs.Cow.{cow_str_bytes};
ghost use Rattle.liquid_scalar.specs.meaning.Scalar.{Scal, scal, integer, boolean, text, render_scalar};

use super::{Scalar, ScalarCow, ScalarOf};
use std::alloc::{AllocError, Global};
use std::borrow::CowStr;
use std::convert::AsStr;

/// The text of a scalar that can be passed on as a borrowed or owned string, without memory.
pub trait ScalarText<'s>: AsStr + Drop {
    fn into_cow_str(self) -> CowStr<'s>
        ensures { cow_str_bytes result ≡ Self.text self };
}

impl<'s> ScalarText<'s> for CowStr<'s> {
    fn into_cow_str(self) -> CowStr<'s> {
        self
    }
}

impl<'s> ScalarText<'s> for String {
    fn into_cow_str(self) -> CowStr<'s> {
        CowStr::Owned(self)
    }
}

impl<'s> ScalarText<'s> for &'s str {
    fn into_cow_str(self) -> CowStr<'s> {
        CowStr::Borrowed(self)
    }
}

impl<T> ScalarOf<T> {
    /// Returns the text that the scalar renders as. A string is passed on as it is, borrowed or owned.
    pub fn into_cow_str<'s>(self, alloc: Global) -> Result<CowStr<'s>, AllocError>
    where
        T: ScalarText<'s>,
        ensures { IfOk result (λ t. cow_str_bytes t ≡ render_scalar (scal T.text self)) }
    {
        match self {
            ScalarOf::Integer(number) => Ok(CowStr::Owned(number.to_string(alloc)?)),
            ScalarOf::Bool(true) => Ok(CowStr::Borrowed("true")),
            ScalarOf::Bool(false) => Ok(CowStr::Borrowed("false")),
            ScalarOf::Str(text) => Ok(text.into_cow_str()),
            ScalarOf::Date(date) => Ok(CowStr::Owned(date.to_string(alloc)?)),
            ScalarOf::DateTime(date_time) => Ok(CowStr::Owned(date_time.to_string(alloc)?)),
        }
    }

    /// Returns the text that the scalar renders as. An owned string is passed on as it is.
    pub fn into_string<'s>(self, alloc: Global) -> Result<String, AllocError>
    where
        T: ScalarText<'s>,
        ensures { IfOk result (λ t. string_bytes t ≡ render_scalar (scal T.text self)) }
    {
        self.into_cow_str(alloc)?.into_owned(alloc)
    }

    /// Returns the same scalar with an owned string. A borrowed string is copied.
    pub fn into_owned<'s>(self, alloc: Global) -> Result<Scalar, AllocError>
    where
        T: ScalarText<'s>,
        ensures { IfOk result (λ s. scal string_bytes s ≡ scal T.text self) }
    {
        match self {
            ScalarOf::Integer(number) => Ok(ScalarOf::Integer(number)),
            ScalarOf::Bool(truth) => Ok(ScalarOf::Bool(truth)),
            ScalarOf::Str(text) => Ok(ScalarOf::Str(text.into_cow_str().into_owned(alloc)?)),
            ScalarOf::Date(date) => Ok(ScalarOf::Date(date)),
            ScalarOf::DateTime(date_time) => Ok(ScalarOf::DateTime(date_time)),
        }
    }
}

impl Clone for ScalarOf<String> {
    ghost is_clone = { λ s copy. scal string_bytes copy ≡ scal string_bytes s };

    fn clone(&self) -> Result<Scalar, AllocError> {
        match self {
            ScalarOf::Integer(number) => Ok(ScalarOf::Integer(*number)),
            ScalarOf::Bool(truth) => Ok(ScalarOf::Bool(*truth)),
            ScalarOf::Str(text) => Ok(ScalarOf::Str(text.clone()?)),
            ScalarOf::Date(date) => Ok(ScalarOf::Date(*date)),
            ScalarOf::DateTime(date_time) => Ok(ScalarOf::DateTime(*date_time)),
        }
    }
}

impl<'s> Clone for ScalarOf<CowStr<'s>> {
    ghost is_clone = { λ s copy. scal cow_str_bytes copy ≡ scal cow_str_bytes s };

    fn clone(&self) -> Result<ScalarCow<'s>, AllocError> {
        match self {
            ScalarOf::Integer(whole) => Ok(ScalarOf::Integer(*whole)),
            ScalarOf::Bool(flag) => Ok(ScalarOf::Bool(*flag)),
            ScalarOf::Str(shown) => Ok(ScalarOf::Str(shown.clone()?)),
            ScalarOf::Date(date) => Ok(ScalarOf::Date(*date)),
            ScalarOf::DateTime(date_time) => Ok(ScalarOf::DateTime(*date_time)),
        }
    }
}
