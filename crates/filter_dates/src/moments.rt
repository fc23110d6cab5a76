//! The moment that a value means.
ghost use Rattle.std.specs.Prelude.{◌≡◌, ◌↔◌, ℤ, IfOk, IfSome, IfNone, IsSome, IsTrue, string_bytes};
ghost use Rattle.jiff_core.specs.Calendar.{IsWithin};
ghost use Rattle.jiff_core.specs.Timestamp.{nanos_of_seconds};
ghost use Rattle.liquid_dates.specs.declared.date_time.DateTime.{DateTime};
ghost use Rattle.liquid_dates.specs.meaning.DateText.{IsNow, IsUnixTime};
ghost use Rattle.liquid_scalar.specs.meaning.Scalar.{scal};
ghost use Rattle.liquid_value.specs.meaning.View.{view as tree_of};
ghost use Rattle.filter_dates.specs.meaning.Moments.{IsMidnight, IsMomentOf, IsMomentOfScalar, IsMomentText, IsPlainTextAt, IsTextAt};
ghost use Rattle.filter_dates.specs.meaning.MomentText.{IsMomentInText};

use crate::fields::date_time_of;
use crate::moment_text::fields_of;
use liquid_dates::{Date, DateTime};
use liquid_scalar::{Scalar, ScalarOf};
use liquid_value::Value;
use std::alloc::{AllocError, Global};

/// Returns the date time that a value means, if there is one.
///
/// A date time means itself, a date its midnight at offset 0, and a number that many seconds since 1970. A string means
/// the date time or the date that it writes, first as [`DateTime::from_str`] and [`Date::from_str`] read it, then in
/// the other spellings of programs and people. `now` and `today` are the moment that is given, if one is.
///
/// # Errors
///
/// Fails if memory runs out.
pub fn moment_of(
    alloc: Global,
    value: &Value,
    now: Option<DateTime>,
) -> Result<Option<DateTime>, AllocError>
    ensures fits { IfOk result (λ o. IfSome o (λ dt. IsMomentOf now (tree_of value.now) dt)) }
    ensures none { IfOk result (λ o. IfNone o ((dt : DateTime) → ¬ (IsMomentOf now (tree_of value.now) dt))) }
{
    match value {
        Value::Scalar(scalar) => moment_of_scalar(alloc, scalar, now),
        Value::State(_) | Value::Nil | Value::Array(_) | Value::Object(_) => Ok(None),
    }
}

fn moment_of_scalar(
    alloc: Global,
    scalar: &Scalar,
    now: Option<DateTime>,
) -> Result<Option<DateTime>, AllocError>
    ensures fits { IfOk result (λ o. IfSome o (λ dt. IsMomentOfScalar now (scal string_bytes scalar.now) dt)) }
    ensures none { IfOk result (λ o. IfNone o ((dt : DateTime) → ¬ (IsMomentOfScalar now (scal string_bytes scalar.now) dt))) }
{
    match scalar {
        ScalarOf::Integer(seconds) => Ok(at_unix_seconds(*seconds)),
        ScalarOf::Bool(_) => Ok(None),
        ScalarOf::Str(text) => moment_of_text(alloc, text.as_str(), now),
        ScalarOf::Date(date) => Ok(midnight(*date)),
        ScalarOf::DateTime(date_time) => Ok(Some(*date_time)),
    }
}

fn moment_of_text(
    alloc: Global,
    text: &str,
    now: Option<DateTime>,
) -> Result<Option<DateTime>, AllocError>
    ensures fits { IfOk result (λ o. IfSome o (λ dt. IsMomentText now text.now dt)) }
    ensures none { IfOk result (λ o. IfNone o ((dt : DateTime) → ¬ (IsMomentText now text.now dt))) }
{
    match now {
        Some(now) => text_at(alloc, text, &now),
        None => if is_now(text) {
            Ok(None)
        } else {
            text_at_any_moment(alloc, text)
        },
    }
}

/// Returns the date time that a string means at each moment.
fn text_at_any_moment(alloc: Global, text: &str) -> Result<Option<DateTime>, AllocError>
    requires { ¬ (IsNow text.now) }
    ensures fits { IfOk result (λ o. IfSome o (λ dt. (now : DateTime) → IsTextAt now text.now dt)) }
    ensures none { IfOk result (λ o. IfNone o ((dt : DateTime) → ¬ ((now : DateTime) → IsTextAt now text.now dt))) }
{
    match epoch() {
        Some(epoch) => text_at(alloc, text, &epoch),
        None => Ok(None),
    }
}

fn epoch() -> Option<DateTime>
    ensures { IsSome result }
{
    match DateTime::from_ymd(1970, 1, 1) {
        Ok(epoch) => Some(epoch),
        Err(_) => None,
    }
}

/// Returns the date time that a string writes, otherwise midnight of the date that it writes, otherwise the date time of
/// another spelling.
fn text_at(alloc: Global, text: &str, now: &DateTime) -> Result<Option<DateTime>, AllocError>
    ensures fits { IfOk result (λ o. IfSome o (λ dt. IsTextAt now.now text.now dt)) }
    ensures none { IfOk result (λ o. IfNone o ((dt : DateTime) → ¬ (IsTextAt now.now text.now dt))) }
{
    match plain_text_at(text, now) {
        Some(date_time) => Ok(Some(date_time)),
        None => moment_in_text(alloc, text),
    }
}

/// Returns the date time that a string writes, otherwise midnight of the date that it writes.
fn plain_text_at(text: &str, now: &DateTime) -> Option<DateTime>
    ensures fits { IfSome result (λ dt. IsPlainTextAt now.now text.now dt) }
    ensures none { IfNone result ((dt : DateTime) → ¬ (IsPlainTextAt now.now text.now dt)) }
{
    match DateTime::from_str(text, *now) {
        Some(date_time) => Some(date_time),
        None => match Date::from_str(text, *now) {
            Some(date) => midnight(date),
            None => None,
        },
    }
}

/// Returns the date time of another spelling.
fn moment_in_text(alloc: Global, text: &str) -> Result<Option<DateTime>, AllocError>
    ensures fits { IfOk result (λ o. IfSome o (λ dt. IsMomentInText text.now dt)) }
    ensures none { IfOk result (λ o. IfNone o ((dt : DateTime) → ¬ (IsMomentInText text.now dt))) }
{
    match fields_of(alloc, text)? {
        Some(fields) => Ok(date_time_of(fields)),
        None => Ok(None),
    }
}

/// Returns `true` if a string is `now` or `today`, in any case and between whitespace.
fn is_now(text: &str) -> bool
    ensures { IsTrue result ↔ IsNow text.now }
{
    let word = text.trim().as_bytes();
    word.eq_ignore_ascii_case(b"now") || word.eq_ignore_ascii_case(b"today")
}

/// Returns midnight of a date at offset 0.
fn midnight(date: Date) -> Option<DateTime>
    ensures some { IsSome result }
    ensures is { IfSome result (λ dt. IsMidnight date dt) }
{
    match DateTime::from_parts(date, 0, 0, 0, 0, 0) {
        Ok(midnight) => Some(midnight),
        Err(_) => None,
    }
}

/// Returns the date time of that many seconds since 1970 at offset 0, if the years have it.
fn at_unix_seconds(seconds: i64) -> Option<DateTime>
    ensures found { IfSome result (λ dt. IsUnixTime seconds dt) }
    ensures none { IfNone result ((dt : DateTime) → ¬ (IsUnixTime seconds dt)) }
{
    let nanoseconds = in_nanoseconds(seconds);
    match DateTime::now(nanoseconds) {
        Ok(date_time) => Some(date_time),
        Err(_) => None,
    }
}

fn in_nanoseconds(seconds: i64) -> i128
    ensures value { result ≡ nanos_of_seconds seconds }
    ensures bound { IsWithin 10_000_000_000_000_000_000_000_000_000 result }
{
    i128::from(seconds) * 1_000_000_000
}
