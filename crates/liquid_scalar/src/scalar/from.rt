//! Conversions into a scalar, which neither fail nor take memory.
ghost use Rattle.std.specs.Prelude.{◌≡◌, pos, string_bytes};
ghost use Rattle.std.specs.Cow.{cow_str_bytes};
ghost use Rattle.liquid_scalar.specs.declared.scalar.ScalarOf.TheVariants as variant;
ghost use Rattle.liquid_scalar.specs.meaning.Scalar.{scal, text};

use super::ScalarOf;
use liquid_dates::{Date, DateTime};
use std::borrow::CowStr;

impl<T> From<i8> for ScalarOf<T> {
    ghost from_gives = { λ number scalar. scalar ≡ variant.Integer (number) };

    fn from(number: i8) -> ScalarOf<T> {
        ScalarOf::Integer(i64::from(number))
    }
}

impl<T> From<i16> for ScalarOf<T> {
    ghost from_gives = { λ number scalar. scalar ≡ variant.Integer (number) };

    fn from(number: i16) -> ScalarOf<T> {
        ScalarOf::Integer(i64::from(number))
    }
}

impl<T> From<i32> for ScalarOf<T> {
    ghost from_gives = { λ number scalar. scalar ≡ variant.Integer (number) };

    fn from(number: i32) -> ScalarOf<T> {
        ScalarOf::Integer(i64::from(number))
    }
}

impl<T> From<i64> for ScalarOf<T> {
    ghost from_gives = { λ number scalar. scalar ≡ variant.Integer (number) };

    fn from(number: i64) -> ScalarOf<T> {
        ScalarOf::Integer(number)
    }
}

impl<T> From<u8> for ScalarOf<T> {
    ghost from_gives = { λ number scalar. scalar ≡ variant.Integer (pos number) };

    fn from(number: u8) -> ScalarOf<T> {
        ScalarOf::Integer(i64::from(number))
    }
}

impl<T> From<u16> for ScalarOf<T> {
    ghost from_gives = { λ number scalar. scalar ≡ variant.Integer (pos number) };

    fn from(number: u16) -> ScalarOf<T> {
        ScalarOf::Integer(i64::from(number))
    }
}

impl<T> From<u32> for ScalarOf<T> {
    ghost from_gives = { λ number scalar. scalar ≡ variant.Integer (pos number) };

    fn from(number: u32) -> ScalarOf<T> {
        ScalarOf::Integer(i64::from(number))
    }
}

impl<T> From<bool> for ScalarOf<T> {
    ghost from_gives = { λ truth scalar. scalar ≡ variant.Bool truth };

    fn from(truth: bool) -> ScalarOf<T> {
        ScalarOf::Bool(truth)
    }
}

impl<T> From<Date> for ScalarOf<T> {
    ghost from_gives = { λ date scalar. scalar ≡ variant.Date date };

    fn from(date: Date) -> ScalarOf<T> {
        ScalarOf::Date(date)
    }
}

impl<T> From<DateTime> for ScalarOf<T> {
    ghost from_gives = { λ date_time scalar. scalar ≡ variant.DateTime date_time };

    fn from(date_time: DateTime) -> ScalarOf<T> {
        ScalarOf::DateTime(date_time)
    }
}

impl From<String> for ScalarOf<String> {
    ghost from_gives = { λ bytes scalar. scal string_bytes scalar ≡ text (string_bytes bytes) };

    fn from(text: String) -> ScalarOf<String> {
        ScalarOf::Str(text)
    }
}

impl<'s> From<String> for ScalarOf<CowStr<'s>> {
    ghost from_gives = { λ bytes scalar. scal cow_str_bytes scalar ≡ text (string_bytes bytes) };

    fn from(text: String) -> ScalarOf<CowStr<'s>> {
        ScalarOf::Str(CowStr::Owned(text))
    }
}

impl<'s> From<&'s str> for ScalarOf<CowStr<'s>> {
    ghost from_gives = { λ bytes scalar. scal cow_str_bytes scalar ≡ text bytes.now };

    fn from(text: &'s str) -> ScalarOf<CowStr<'s>> {
        ScalarOf::Str(CowStr::Borrowed(text))
    }
}

impl<'s> From<&'s String> for ScalarOf<CowStr<'s>> {
    ghost from_gives = { λ bytes scalar. scal cow_str_bytes scalar ≡ text (string_bytes bytes.now) };

    fn from(text: &'s String) -> ScalarOf<CowStr<'s>> {
        ScalarOf::Str(CowStr::Borrowed(text.as_str()))
    }
}

impl<'s> From<CowStr<'s>> for ScalarOf<CowStr<'s>> {
    ghost from_gives = { λ bytes scalar. scal cow_str_bytes scalar ≡ text (cow_str_bytes bytes) };

    fn from(text: CowStr<'s>) -> ScalarOf<CowStr<'s>> {
        ScalarOf::Str(text)
    }
}
