//! The composites of patterns, such as `%F` and `%T`.
ghost use Rattle.std.specs.Prelude.{◌≡◌, ◌<◌, ◌++◌, OnOk, pos};
ghost use Rattle.std.specs.String.{string_bytes};
ghost use Rattle.liquid_dates.specs.meaning.DirectiveText as Spec;
ghost use Rattle.liquid_dates.specs.meaning.Filling.{cased};
ghost use Rattle.liquid_dates.specs.meaning.Instant.{civil_date};
ghost use Rattle.liquid_dates.specs.meaning.Names as Names;

use crate::DateTime;
use crate::directive::Composite;
use crate::directive_text::{text_filler, upper_half};
use crate::flags::{Case, Flags, NumberFilling};
use crate::names::{short_month_name, short_weekday_name};
use crate::numbers::hour_of_12;
use crate::writing::{fill, write_cased, write_number};
use std::alloc::AllocError;

/// Appends a composite, following its flags and its width.
#[tactic(auto, unfolding(crate::specs::meaning::DirectiveText::composite_text, crate::specs::meaning::Filling::filled_text))]
pub(crate) fn composite_text(
    out: &mut String,
    date_time: DateTime,
    flags: Flags,
    width: Option<usize>,
    composite: Composite,
) -> Result<(), AllocError>
    ensures { OnOk result (string_bytes out.new
        ≡ string_bytes out.old ++ Spec.composite_text flags width composite date_time) }
{
    let missing = width
        .unwrap_or(0)
        .saturating_sub(composite_length(composite));
    fill(out, missing, text_filler(flags.filling))?;
    composite_of(out, flags.case, composite, date_time)
}

fn composite_length(composite: Composite) -> usize
    ensures { result ≡ Spec.composite_length composite }
{
    match composite {
        Composite::DashedDate => 10,
        Composite::NamedDate => 11,
        Composite::HourMinute => 5,
        Composite::SlashedDate => 8,
        Composite::Clock => 8,
        Composite::ClockOf12 => 11,
        Composite::DateAndTime => 24,
    }
}

#[tactic(auto, unfolding(crate::specs::meaning::DirectiveText::composite_of))]
fn composite_of(
    out: &mut String,
    case: Case,
    composite: Composite,
    date_time: DateTime,
) -> Result<(), AllocError>
    ensures { OnOk result (string_bytes out.new
        ≡ string_bytes out.old ++ Spec.composite_of case composite date_time) }
{
    match composite {
        Composite::DashedDate => write_dashed_date(out, date_time),
        Composite::NamedDate => write_named_date(out, date_time),
        Composite::HourMinute => write_hour_minute(out, date_time),
        Composite::SlashedDate => write_slashed_date(out, date_time),
        Composite::Clock => write_clock(out, date_time),
        Composite::ClockOf12 => write_clock_of_12(out, date_time),
        Composite::DateAndTime => write_date_and_time(out, case, date_time),
    }
}

/// Appends a number, padded with zeros to two characters.
pub(crate) fn write_two(out: &mut String, number: u8) -> Result<(), AllocError>
    ensures { OnOk result (string_bytes out.new ≡ string_bytes out.old ++ Spec.two number) }
{
    write_number(out, NumberFilling::ZerosAfterSign, 2, i64::from(number))
}

fn write_year(out: &mut String, date_time: &DateTime) -> Result<(), AllocError>
    ensures { OnOk result
        (string_bytes out.new ≡ string_bytes out.old ++ Spec.year_of_four date_time.now) }
{
    write_number(
        out,
        NumberFilling::ZerosAfterSign,
        4,
        i64::from(date_time.year()),
    )
}

// Appends the remainder of the year by 100, padded with zeros to two characters.
#[tactic(auto, unfolding(crate::specs::meaning::DirectiveText::year_of_two))]
fn write_short_year(out: &mut String, date_time: &DateTime) -> Result<(), AllocError>
    ensures { OnOk result
        (string_bytes out.new ≡ string_bytes out.old ++ Spec.year_of_two date_time.now) }
{
    write_number(
        out,
        NumberFilling::ZerosAfterSign,
        2,
        i64::from(date_time.year()) % 100,
    )
}

#[tactic(auto, unfolding(crate::specs::meaning::DirectiveText::hour_minute_of))]
fn write_hour_minute(out: &mut String, date_time: DateTime) -> Result<(), AllocError>
    ensures { OnOk result
        (string_bytes out.new ≡ string_bytes out.old ++ Spec.hour_minute_of date_time) }
{
    write_two(out, date_time.hour())?;
    out.push_str(":")?;
    write_two(out, date_time.minute())
}

#[tactic(auto, unfolding(crate::specs::meaning::DirectiveText::clock_of))]
fn write_clock(out: &mut String, date_time: DateTime) -> Result<(), AllocError>
    ensures { OnOk result
        (string_bytes out.new ≡ string_bytes out.old ++ Spec.clock_of date_time) }
{
    write_hour_minute(out, date_time)?;
    out.push_str(":")?;
    write_two(out, date_time.second())
}

#[tactic(auto, unfolding(crate::specs::meaning::DirectiveText::clock_of_12))]
fn write_clock_of_12(out: &mut String, date_time: DateTime) -> Result<(), AllocError>
    ensures { OnOk result
        (string_bytes out.new ≡ string_bytes out.old ++ Spec.clock_of_12 date_time) }
{
    let time = date_time.local().time;
    write_two(out, hour_of_12(time))?;
    out.push_str(":")?;
    write_two(out, time.minute)?;
    out.push_str(":")?;
    write_two(out, time.second)?;
    out.push_str(" ")?;
    out.push_str(upper_half(time))
}

#[tactic(auto, unfolding(crate::specs::meaning::DirectiveText::dashed_date_text))]
fn write_dashed_date(out: &mut String, date_time: DateTime) -> Result<(), AllocError>
    ensures { OnOk result
        (string_bytes out.new ≡ string_bytes out.old ++ Spec.dashed_date_text date_time) }
{
    write_year(out, &date_time)?;
    out.push_str("-")?;
    write_two(out, date_time.month())?;
    out.push_str("-")?;
    write_two(out, date_time.day())
}

#[tactic(auto, unfolding(crate::specs::meaning::DirectiveText::named_date_text))]
fn write_named_date(out: &mut String, date_time: DateTime) -> Result<(), AllocError>
    ensures { OnOk result
        (string_bytes out.new ≡ string_bytes out.old ++ Spec.named_date_text date_time) }
{
    write_number(
        out,
        NumberFilling::SpacesBeforeSign,
        2,
        i64::from(date_time.day()),
    )?;
    out.push_str("-")?;
    write_short_month(out, Case::Upper, date_time)?;
    out.push_str("-")?;
    write_year(out, &date_time)
}

#[tactic(auto, unfolding(crate::specs::meaning::DirectiveText::slashed_date_text))]
fn write_slashed_date(out: &mut String, date_time: DateTime) -> Result<(), AllocError>
    ensures { OnOk result
        (string_bytes out.new ≡ string_bytes out.old ++ Spec.slashed_date_text date_time) }
{
    write_two(out, date_time.month())?;
    out.push_str("/")?;
    write_two(out, date_time.day())?;
    out.push_str("/")?;
    write_short_year(out, &date_time)
}

#[tactic(auto, unfolding(crate::specs::meaning::DirectiveText::date_and_time))]
fn write_date_and_time(out: &mut String, case: Case, date_time: DateTime) -> Result<(), AllocError>
    ensures { OnOk result
        (string_bytes out.new ≡ string_bytes out.old ++ Spec.date_and_time case date_time) }
{
    write_named_day(out, case, date_time)?;
    out.push_str(" ")?;
    write_clock(out, date_time)?;
    out.push_str(" ")?;
    write_year(out, &date_time)
}

#[tactic(auto, unfolding(crate::specs::meaning::DirectiveText::named_day))]
fn write_named_day(out: &mut String, case: Case, date_time: DateTime) -> Result<(), AllocError>
    ensures { OnOk result
        (string_bytes out.new ≡ string_bytes out.old ++ Spec.named_day case date_time) }
{
    let date = date_time.local().date;
    write_cased(out, short_weekday_name(date.weekday().index()), case)?;
    out.push_str(" ")?;
    write_short_month(out, case, date_time)?;
    out.push_str(" ")?;
    write_number(out, NumberFilling::SpacesBeforeSign, 2, i64::from(date.day))
}

fn write_short_month(out: &mut String, case: Case, date_time: DateTime) -> Result<(), AllocError>
    ensures { OnOk result (string_bytes out.new
        ≡ string_bytes out.old ++ cased case (Names.short_month_name (civil_date date_time).month)) }
{
    write_cased(out, short_month_name(date_time.local().date.month), case)
}
