//! A scalar: an integer, a boolean, a string, a date or a date time.
ghost use Rattle.std.specs.Prelude.{◌≡◌, IfOk};
ghost use Rattle.std.specs.Cow.{cow_str_bytes};
ghost use Rattle.liquid_scalar.specs.meaning.Scalar.{scal, to_integer, to_bool};

mod compare;
mod convert;
mod dates;
mod from;
mod laws;
mod text;

pub use convert::ScalarText;
pub use laws::{
    equal_in_order_is_loosely_equal, hash_agrees_with_equality, loose_equality_is_reflexive,
    loose_equality_is_symmetric, order_swapped_is_reversed, strict_equality_is_equivalence,
    strictly_equal_is_loosely_equal,
};
use liquid_dates::{Date, DateTime};
use std::borrow::CowStr;
use std::convert::AsStr;
pub use text::{ScalarRender, ScalarSource};

/// A scalar whose texts are of the type `T`.
#[derive(Debug, Drop)]
pub enum ScalarOf<T> {
    Integer(i64),
    Bool(bool),
    Str(T),
    Date(Date),
    DateTime(DateTime),
}

/// A scalar that owns its text.
pub type Scalar = ScalarOf<String>;

/// A scalar whose text may be borrowed.
pub type ScalarCow<'s> = ScalarOf<CowStr<'s>>;

impl<T> ScalarOf<T> {
    /// Returns the scalar of a number, a boolean, a string, a date or a date time.
    pub fn new<V: Into<ScalarOf<T>>>(value: V) -> ScalarOf<T>
        ensures { V.converts value result }
    {
        value.into()
    }
}

impl<T: AsStr> ScalarOf<T> {
    /// Returns the same scalar with its text borrowed.
    pub fn as_ref(&self) -> ScalarCow<'_>
        ensures { scal cow_str_bytes result ≡ scal T.text self.now }
    {
        match self {
            ScalarOf::Integer(number) => ScalarOf::Integer(*number),
            ScalarOf::Bool(truth) => ScalarOf::Bool(*truth),
            ScalarOf::Str(text) => ScalarOf::Str(CowStr::Borrowed(text.as_str())),
            ScalarOf::Date(date) => ScalarOf::Date(*date),
            ScalarOf::DateTime(date_time) => ScalarOf::DateTime(*date_time),
        }
    }

    /// Returns the number itself, or the integer that a string writes: an optional sign and digits, from -2^63 to
    /// 2^63 - 1. Returns `None` for every other scalar.
    pub fn to_integer(&self) -> Option<i64>
        ensures { result ≡ to_integer (scal T.text self.now) }
    {
        match self {
            ScalarOf::Integer(number) => Some(*number),
            ScalarOf::Bool(_) => None,
            ScalarOf::Str(text) => text.as_str().parse::<i64>().ok(),
            ScalarOf::Date(_) => None,
            ScalarOf::DateTime(_) => None,
        }
    }

    /// Returns the boolean itself, and `None` for every other scalar.
    pub fn to_bool(&self) -> Option<bool>
        ensures { result ≡ to_bool (scal T.text self.now) }
    {
        match self {
            ScalarOf::Integer(_) => None,
            ScalarOf::Bool(truth) => Some(*truth),
            ScalarOf::Str(_) => None,
            ScalarOf::Date(_) => None,
            ScalarOf::DateTime(_) => None,
        }
    }
}
