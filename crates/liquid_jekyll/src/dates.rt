//! Jekyll's filters on dates.
ghost use Rattle.std.specs.Prelude.{◌≡◌, map, string_bytes, IfOk, IfSome};
ghost use Rattle.liquid_error.specs.meaning.Told.{Gives, told};
ghost use Rattle.liquid_scalar.specs.meaning.Scalar.{text as text_of};
ghost use Rattle.liquid_value.specs.meaning.Cow.{cow_view};
ghost use Rattle.liquid_value.specs.meaning.Render.{render};
ghost use Rattle.liquid_value.specs.meaning.Tree.{scalar};
ghost use Rattle.liquid_value.specs.meaning.View.{view as tree_of};
ghost use Rattle.liquid_filters.specs.meaning.Dates.{formatted, printed};
ghost use Rattle.liquid_jekyll.specs.meaning.Dates as Spec;

use filter_dates::{moment_of, pattern_error};
use liquid_dates::DateTime;
use liquid_error::Error;
use liquid_filters::value::errors::unexpected_arguments_error;
use liquid_scalar::ScalarOf;
use liquid_value::render::ValueSource;
use liquid_value::{Value, ValueCow};
use std::alloc::{AllocError, Global};

/// How a filter writes a date.
#[derive(Debug, Clone, Copy, PartialEq, Eq, Drop)]
pub enum DateForm {
    /// The day, the short name of the month, and the year.
    Short,
    /// The day, the name of the month, and the year.
    Long,
    /// The date time of XML Schema.
    Xmlschema,
    /// The date time of RFC 822, with a year of four digits.
    Rfc822,
}

/// How the day of a month is written.
#[derive(Debug, Clone, Copy, PartialEq, Eq, Drop)]
pub(crate) enum DayStyle {
    /// As a number of two digits, before the month.
    Plain,
    /// As an ordinal number, before the month.
    Ordinal,
    /// As an ordinal number, after the month.
    American,
}

/// Writes the moment that the input means, in a form. Nil and the empty string are kept. Any other input that means no moment
/// is an error.
///
/// The arguments say how the day is written: `"ordinal"` as `22nd Dec 2020`, and with `"US"` after it as `Dec 22nd, 2020`.
pub(crate) fn write_date(
    alloc: Global,
    form: DateForm,
    now: Option<DateTime>,
    input: &Value,
    arguments: &[ValueCow<'_>],
) -> Result<Value, Error>
    ensures { Gives tree_of result (Spec.written_date form now (tree_of input.now) (map cow_view arguments.now)) }
{
    match arguments {
        [] => write_moment(alloc, form, DayStyle::Plain, now, input),
        [day] => {
            let style = day_style(alloc, day.as_view(), "")?;
            write_moment(alloc, form, style, now, input)
        }
        [day, order] => {
            let order = order.as_view().to_kstr(alloc)?;
            let style = day_style(alloc, day.as_view(), order.as_str())?;
            write_moment(alloc, form, style, now, input)
        }
        _ => Err(unexpected_arguments_error(alloc)),
    }
}

fn day_style(alloc: Global, day: &Value, order: &str) -> Result<DayStyle, AllocError>
    ensures { IfOk result (λ style. style ≡ Spec.style_named (render (tree_of day.now)) order.now) }
{
    let day = day.to_kstr(alloc)?;
    Ok(style_named(day.as_str(), order))
}

fn style_named(day: &str, order: &str) -> DayStyle
    ensures { result ≡ Spec.style_named day.now order.now }
{
    if day != "ordinal" {
        DayStyle::Plain
    } else if order == "US" {
        DayStyle::American
    } else {
        DayStyle::Ordinal
    }
}

fn write_moment(
    alloc: Global,
    form: DateForm,
    style: DayStyle,
    now: Option<DateTime>,
    input: &Value,
) -> Result<Value, Error>
    ensures { Gives tree_of result (Spec.written form style now (tree_of input.now)) }
{
    if is_kept(input) {
        return Ok(input.clone()?);
    }
    match moment_of(alloc, input, now)? {
        Some(moment) => {
            let pattern = pattern(alloc, form, style, moment.day())?;
            print_moment(alloc, &moment, pattern.as_str())
        }
        None => Err(moment_expected(alloc, input)),
    }
}

/// Returns `true` for nil and the empty string.
fn is_kept(input: &Value) -> bool
    ensures { result ≡ Spec.is_kept (tree_of input.now) }
{
    match input {
        Value::Nil => true,
        Value::Scalar(ScalarOf::Str(text)) => text.as_str().is_empty(),
        _ => false,
    }
}

fn print_moment(alloc: Global, moment: &DateTime, pattern: &str) -> Result<Value, Error>
    ensures { Gives tree_of result (printed pattern.now (formatted moment.now pattern.now)) }
{
    match moment.format(alloc, pattern) {
        Ok(text) => Ok(text_value(text)),
        Err(error) => Err(pattern_error(alloc, error, pattern)),
    }
}

fn text_value(text: String) -> Value
    ensures { tree_of result ≡ scalar (text_of (string_bytes text)) }
{
    Value::Scalar(ScalarOf::Str(text))
}

/// Returns the pattern of a form, for a day of the month.
fn pattern(alloc: Global, form: DateForm, style: DayStyle, day: u8) -> Result<String, AllocError>
    ensures { IfOk result (λ t. string_bytes t ≡ Spec.pattern form style day) }
{
    match form {
        DateForm::Short => day_pattern(alloc, style, "%b", ordinal_mark(day)),
        DateForm::Long => day_pattern(alloc, style, "%B", ordinal_mark(day)),
        DateForm::Xmlschema => String::from_str(alloc, "%Y-%m-%dT%H:%M:%S%:z"),
        DateForm::Rfc822 => String::from_str(alloc, "%a, %d %b %Y %H:%M:%S %z"),
    }
}

/// Returns the pattern of a day with this month and this mark of an ordinal number.
fn day_pattern(
    alloc: Global,
    style: DayStyle,
    month: &str,
    mark: &str,
) -> Result<String, AllocError>
    ensures { IfOk result (λ t. string_bytes t ≡ Spec.day_pattern style month.now mark.now) }
{
    match style {
        DayStyle::Plain => format!(in alloc; "%d {month} %Y"),
        DayStyle::Ordinal => format!(in alloc; "%-d{mark} {month} %Y"),
        DayStyle::American => format!(in alloc; "{month} %-d{mark}, %Y"),
    }
}

/// Returns what follows the digits of an ordinal number in English.
fn ordinal_mark(day: u8) -> &'static str
    ensures { result.now ≡ Spec.ordinal_mark day }
{
    if day >= 11 && day <= 13 {
        return "th";
    }
    match day % 10 {
        1 => "st",
        2 => "nd",
        3 => "rd",
        _ => "th",
    }
}

/// Returns the error for a value that means no moment.
fn moment_expected(alloc: Global, value: &Value) -> Error
    ensures { IfSome (told result) (λ r. r ≡ Spec.moment_expected (tree_of value.now)) }
{
    match ValueSource::new(value).to_string(alloc) {
        Ok(source) => {
            Error::with_msg(alloc, "Moment expected").context(alloc, "found", source.as_str())
        }
        Err(_) => Error::Memory,
    }
}
