//! The texts that dates and date times print.
ghost use Rattle.std.specs.Prelude.{◌+◌, ◌<◌, [], ◌∷◌, Some};
ghost use Rattle.std.specs.Fmt.{WritesOnOk};
ghost use Rattle.std.specs.Str.{byte};
ghost use Rattle.jiff_core.specs.Calendar.{IsYear};
ghost use Rattle.jiff_core.specs.Timestamp.{IsOffsetSeconds};
ghost use Rattle.liquid_dates.specs.meaning.Printed as Spec;

use crate::names::{short_month_name, short_weekday_name};
use crate::{Date, DateTime};
use std::fmt;

impl fmt::Display for Date {
    ghost output = { λ d. Some (Spec.date_text d) };

    fn fmt<W: fmt::Write>(&self, f: &mut fmt::Formatter<W>) -> fmt::Result {
        date(f, self.to_civil())
    }
}

impl fmt::Debug for Date {
    ghost debug_output = { λ d. Some (Spec.date_text d) };

    fn fmt<W: fmt::Write>(&self, f: &mut fmt::Formatter<W>) -> fmt::Result {
        write!(f, "{self}")
    }
}

impl fmt::Display for DateTime {
    ghost output = { λ dt. Some (Spec.date_time_text dt) };

    fn fmt<W: fmt::Write>(&self, f: &mut fmt::Formatter<W>) -> fmt::Result {
        let local = self.local();
        date(f, local.date)?;
        f.write_str(" ")?;
        clock(f, local.time)?;
        fraction(f, local.time.subsec_nanosecond)?;
        f.write_str(" ")?;
        offset(f, self.offset())
    }
}

impl fmt::Debug for DateTime {
    ghost debug_output = { λ dt. Some (Spec.date_time_text dt) };

    fn fmt<W: fmt::Write>(&self, f: &mut fmt::Formatter<W>) -> fmt::Result {
        write!(f, "{self}")
    }
}

/// A date time as mail and news write it.
#[derive(Clone, Copy)]
pub(crate) struct Rfc2822 {
    pub date_time: DateTime,
}

impl fmt::Display for Rfc2822 {
    ghost output = { λ r. Some (Spec.rfc2822_text r.date_time) };

    fn fmt<W: fmt::Write>(&self, f: &mut fmt::Formatter<W>) -> fmt::Result {
        let local = self.date_time.local();
        mail_date(f, local.date)?;
        f.write_str(" ")?;
        clock(f, local.time)?;
        f.write_str(" ")?;
        offset(f, self.date_time.offset())
    }
}

#[tactic(auto, unfolding(crate::specs::meaning::Printed::mail_date_text))]
fn mail_date<W: fmt::Write>(f: &mut fmt::Formatter<W>, date: jiff_core::civil::Date) -> fmt::Result
    ensures { WritesOnOk W.write_str_gives f.old result (Spec.mail_date_text date) f.new }
{
    mail_day(f, date)?;
    f.write_str(" ")?;
    let month = short_month_name(date.month);
    f.write_str(month)?;
    f.write_str(" ")?;
    year(f, date.year)
}

#[tactic(auto, unfolding(crate::specs::meaning::Printed::mail_day_text))]
fn mail_day<W: fmt::Write>(f: &mut fmt::Formatter<W>, date: jiff_core::civil::Date) -> fmt::Result
    ensures { WritesOnOk W.write_str_gives f.old result (Spec.mail_day_text date) f.new }
{
    f.write_str(short_weekday_name(date.weekday().index()))?;
    f.write_str(", ")?;
    two_digits(f, date.day)
}

#[tactic(auto, unfolding(crate::specs::meaning::Printed::date_text))]
fn date<W: fmt::Write>(f: &mut fmt::Formatter<W>, date: jiff_core::civil::Date) -> fmt::Result
    ensures { WritesOnOk W.write_str_gives f.old result (Spec.date_text date) f.new }
{
    year(f, date.year)?;
    f.write_str("-")?;
    two_digits(f, date.month)?;
    f.write_str("-")?;
    two_digits(f, date.day)
}

#[tactic(auto, unfolding(crate::specs::meaning::Printed::clock_text))]
fn clock<W: fmt::Write>(f: &mut fmt::Formatter<W>, time: jiff_core::civil::Time) -> fmt::Result
    ensures { WritesOnOk W.write_str_gives f.old result (Spec.clock_text time) f.new }
{
    two_digits(f, time.hour)?;
    f.write_str(":")?;
    two_digits(f, time.minute)?;
    f.write_str(":")?;
    two_digits(f, time.second)
}

#[tactic(auto, unfolding(crate::specs::meaning::Printed::fraction_text))]
fn fraction<W: fmt::Write>(f: &mut fmt::Formatter<W>, nanosecond: u32) -> fmt::Result
    requires { nanosecond < 1_000_000_000 }
    ensures { WritesOnOk W.write_str_gives f.old result (Spec.fraction_text nanosecond) f.new }
{
    if nanosecond == 0 {
        return Ok(());
    }
    f.write_str(".")?;
    fraction_digits(f, nanosecond)
}

fn fraction_digits<W: fmt::Write>(f: &mut fmt::Formatter<W>, nanosecond: u32) -> fmt::Result
    requires { nanosecond < 1_000_000_000 }
    ensures { WritesOnOk W.write_str_gives f.old result (Spec.fraction_digits 9 nanosecond) f.new }
{
    let mut left = nanosecond;
    let mut place = 100_000_000;
    'digits: loop {
        digit(f, left / place)?;
        left %= place;
        if left == 0 {
            return Ok(());
        }
        place /= 10;
    }
}

#[tactic(auto, unfolding(crate::specs::meaning::Printed::offset_text))]
fn offset<W: fmt::Write>(f: &mut fmt::Formatter<W>, seconds: i32) -> fmt::Result
    requires { IsOffsetSeconds seconds }
    ensures { WritesOnOk W.write_str_gives f.old result (Spec.offset_text seconds) f.new }
{
    f.write_str(if seconds < 0 { "-" } else { "+" })?;
    let size = seconds.unsigned_abs();
    two_digits(f, (size / 3600) as u8)?;
    two_digits(f, (size / 60 % 60) as u8)
}

#[tactic(auto, unfolding(crate::specs::meaning::Printed::year_text))]
fn year<W: fmt::Write>(f: &mut fmt::Formatter<W>, year: i16) -> fmt::Result
    requires { IsYear year }
    ensures { WritesOnOk W.write_str_gives f.old result (Spec.year_text year) f.new }
{
    if year < 0 {
        f.write_str("-")?;
    }
    four_digits(f, year.unsigned_abs())
}

fn four_digits<W: fmt::Write>(f: &mut fmt::Formatter<W>, number: u16) -> fmt::Result
    requires { number < 10000 }
    ensures { WritesOnOk W.write_str_gives f.old result (Spec.four_digits number) f.new }
{
    two_digits(f, (number / 100) as u8)?;
    two_digits(f, (number % 100) as u8)
}

fn two_digits<W: fmt::Write>(f: &mut fmt::Formatter<W>, number: u8) -> fmt::Result
    requires { number < 100 }
    ensures { WritesOnOk W.write_str_gives f.old result (Spec.two_digits number) f.new }
{
    digit(f, u32::from(number / 10))?;
    digit(f, u32::from(number % 10))
}

fn digit<W: fmt::Write>(f: &mut fmt::Formatter<W>, digit: u32) -> fmt::Result
    requires { digit < 10 }
    ensures { WritesOnOk W.write_str_gives f.old result ((byte "0" + digit) ∷ []) f.new }
{
    f.write_char(char::from(b'0' + digit as u8))
}
