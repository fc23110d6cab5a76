//! The text that a directive prints.
ghost use Rattle.std.specs.Prelude.{◌≡◌, ◌-◌, ◌^◌, ◌<◌, ◌++◌, OnOk, true};
ghost use Rattle.std.specs.Int.{IsInRange};
ghost use Rattle.std.specs.String.{string_bytes};
ghost use Rattle.liquid_dates.specs.meaning.DirectiveText as Spec;
ghost use Rattle.liquid_dates.specs.meaning.Filling.{is_ascii_text, cased, number_filling, text_filler};

use crate::DateTime;
use crate::composites::composite_text;
use crate::directive::{Directive, Name, Number};
use crate::flags::{Case, Filling, Flags, NumberFilling};
use crate::names::{month_name, short_month_name, short_weekday_name, weekday_name};
use crate::numbers::{default_width, number_value};
use crate::offset_text::write_offset;
use crate::writing::{fill, write_cased, write_number};
use jiff_core::civil::Time;
use std::alloc::AllocError;

/// Appends what a directive prints for a date time.
#[tactic(auto, unfolding(crate::specs::meaning::DirectiveText::directive_text))]
pub(crate) fn write_directive(
    out: &mut String,
    date_time: DateTime,
    flags: Flags,
    width: Option<usize>,
    directive: Directive,
) -> Result<(), AllocError>
    ensures { OnOk result (string_bytes out.new
        ≡ string_bytes out.old ++ Spec.directive_text date_time flags width directive) }
{
    match directive {
        Directive::OfNumber(number, default) => {
            number_text(out, date_time, flags, width, number, default)
        }
        Directive::OfName(name) => name_text(out, date_time, flags, width, name),
        Directive::OfComposite(composite) => {
            composite_text(out, date_time, flags, width, composite)
        }
        Directive::OfFraction(digits) => {
            fraction_of(out, width.unwrap_or(digits), date_time.nanosecond())
        }
        Directive::OfOffset(offset) => write_offset(out, date_time, flags, width, offset),
    }
}

#[tactic(auto, unfolding(crate::specs::meaning::DirectiveText::number_text))]
fn number_text(
    out: &mut String,
    date_time: DateTime,
    flags: Flags,
    width: Option<usize>,
    number: Number,
    default: NumberFilling,
) -> Result<(), AllocError>
    ensures { OnOk result (string_bytes out.new
        ≡ string_bytes out.old ++ Spec.number_text flags width default number date_time) }
{
    let value = number_value(number, date_time);
    let width = number_width(flags, width, number, value);
    write_number(out, number_filling(flags.filling, default), width, value)
}

fn number_width(flags: Flags, width: Option<usize>, number: Number, value: i64) -> usize
    ensures { result ≡ Spec.number_width flags width number value }
{
    if flags.unfilled {
        return 0;
    }
    let default = default_width(number);
    width.unwrap_or(if value < 0 { default + 1 } else { default })
}

// Returns what a number is padded with: what its letter says, unless a flag is given.
fn number_filling(filling: Filling, default: NumberFilling) -> NumberFilling
    ensures { result ≡ number_filling filling default }
{
    match filling {
        Filling::Unset => default,
        Filling::Zeros => NumberFilling::ZerosAfterSign,
        Filling::Spaces => NumberFilling::SpacesBeforeSign,
    }
}

/// Returns what a text is padded with.
pub(crate) fn text_filler(filling: Filling) -> char
    ensures value { result ≡ text_filler filling }
    ensures ascii { result < 128 }
{
    match filling {
        Filling::Unset => ' ',
        Filling::Zeros => '0',
        Filling::Spaces => ' ',
    }
}

#[tactic(auto, unfolding(crate::specs::meaning::DirectiveText::name_text, crate::specs::meaning::Filling::filled_text))]
fn name_text(
    out: &mut String,
    date_time: DateTime,
    flags: Flags,
    width: Option<usize>,
    name: Name,
) -> Result<(), AllocError>
    ensures { OnOk result (string_bytes out.new
        ≡ string_bytes out.old ++ Spec.name_text flags width name date_time) }
{
    let width = if flags.unfilled {
        0
    } else {
        width.unwrap_or(0)
    };
    let filler = text_filler(flags.filling);
    let (text, case) = name_of(flags.case, name, date_time);
    fill(out, width.saturating_sub(text.len()), filler)?;
    write_cased(out, text, case)
}

// Returns a name's text, and the case in which it is written.
#[tactic(auto, unfolding(crate::specs::meaning::DirectiveText::name_of))]
fn name_of(case: Case, name: Name, date_time: DateTime) -> (&'static str, Case)
    ensures value { cased result.1 result.0.now ≡ Spec.name_of case name date_time }
    ensures ascii { is_ascii_text result.0.now ≡ true }
{
    let local = date_time.local();
    match name {
        Name::ShortMonth => (short_month_name(local.date.month), case),
        Name::WholeMonth => (month_name(local.date.month), case),
        Name::ShortWeekday => (short_weekday_name(local.date.weekday().index()), case),
        Name::WholeWeekday => (weekday_name(local.date.weekday().index()), case),
        Name::UpperHalf => (upper_half_as(case, local.time), Case::Plain),
        Name::LowerHalf => (lower_half_as(case, local.time), Case::Plain),
        Name::LineFeed => ("\n", Case::Plain),
        Name::Tab => ("\t", Case::Plain),
        Name::Percent => ("%", Case::Plain),
    }
}

/// Returns `AM` before noon, and `PM` from noon on.
pub(crate) fn upper_half(time: Time) -> &'static str
    ensures value { result.now ≡ Spec.upper_half time.hour }
    ensures ascii { is_ascii_text result.now ≡ true }
{
    if time.hour < 12 { "AM" } else { "PM" }
}

fn lower_half(time: Time) -> &'static str
    ensures value { result.now ≡ Spec.lower_half time.hour }
    ensures ascii { is_ascii_text result.now ≡ true }
{
    if time.hour < 12 { "am" } else { "pm" }
}

fn upper_half_as(case: Case, time: Time) -> &'static str
    ensures value { result.now ≡ Spec.upper_half_as case time.hour }
    ensures ascii { is_ascii_text result.now ≡ true }
{
    match case {
        Case::Plain => upper_half(time),
        Case::Upper => upper_half(time),
        Case::Change => lower_half(time),
    }
}

fn lower_half_as(case: Case, time: Time) -> &'static str
    ensures value { result.now ≡ Spec.lower_half_as case time.hour }
    ensures ascii { is_ascii_text result.now ≡ true }
{
    match case {
        Case::Plain => lower_half(time),
        Case::Upper => upper_half(time),
        Case::Change => upper_half(time),
    }
}

#[tactic(auto, unfolding(crate::specs::meaning::DirectiveText::fraction_of))]
fn fraction_of(out: &mut String, digits: usize, nanosecond: u32) -> Result<(), AllocError>
    requires { nanosecond < 1_000_000_000 }
    ensures { OnOk result
        (string_bytes out.new ≡ string_bytes out.old ++ Spec.fraction_of digits nanosecond) }
{
    write_number(
        out,
        NumberFilling::ZerosAfterSign,
        digits.min(9),
        i64::from(nanosecond / unit_of(digits)),
    )?;
    fill(out, digits.saturating_sub(9), '0')
}

// Returns what the last of that many digits of the fraction counts, in nanoseconds.
fn unit_of(digits: usize) -> u32
    ensures value { result ≡ 10 ^ (9 - digits) }
    ensures bound { IsInRange 1 1_000_000_000 result }
{
    match digits {
        0 => 1_000_000_000,
        1 => 100_000_000,
        2 => 10_000_000,
        3 => 1_000_000,
        4 => 100_000,
        5 => 10_000,
        6 => 1_000,
        7 => 100,
        8 => 10,
        _ => 1,
    }
}
