//! The text of an offset.
ghost use Rattle.std.specs.Prelude.{◌≡◌, ◌/◌, ◌++◌, OnOk, [], ◌∷◌, pos, unsigned_abs};
ghost use Rattle.std.specs.String.{string_bytes};
ghost use Rattle.jiff_core.specs.Timestamp.{IsOffsetSeconds};
ghost use Rattle.liquid_dates.specs.meaning.DirectiveText as Spec;
ghost use Rattle.liquid_dates.specs.meaning.Filling.{filled_number};
ghost use Rattle.liquid_dates.specs.declared.flags.NumberFilling.TheVariants.{ZerosAfterSign};
ghost use Rattle.liquid_dates.specs.meaning.Printed.{sign_of};

use crate::DateTime;
use crate::composites::write_two;
use crate::directive::Offset;
use crate::flags::{Filling, Flags, NumberFilling};
use crate::writing::{fill, write_number};
use std::alloc::AllocError;

/// Appends the offset, following its flags and its width.
#[tactic(auto, unfolding(crate::specs::meaning::DirectiveText::offset_of))]
pub(crate) fn write_offset(
    out: &mut String,
    date_time: DateTime,
    flags: Flags,
    width: Option<usize>,
    offset: Offset,
) -> Result<(), AllocError>
    ensures { OnOk result (string_bytes out.new
        ≡ string_bytes out.old ++ Spec.offset_of flags width offset date_time) }
{
    let seconds = date_time.offset();
    write_signed_hours(out, flags.filling, hours_width(width, offset), seconds)?;
    offset_minutes(out, offset, seconds)
}

fn hours_width(width: Option<usize>, offset: Offset) -> usize
    ensures { result ≡ Spec.hours_width width offset }
{
    let length = match offset {
        Offset::Joined => 5,
        Offset::Minutes => 6,
        Offset::Seconds => 9,
    };
    2 + width.unwrap_or(0).saturating_sub(length)
}

#[tactic(auto, unfolding(crate::specs::meaning::DirectiveText::write_signed_hours))]
fn write_signed_hours(
    out: &mut String,
    filling: Filling,
    width: usize,
    seconds: i32,
) -> Result<(), AllocError>
    requires { IsOffsetSeconds seconds }
    ensures { OnOk result (string_bytes out.new
        ≡ string_bytes out.old ++ Spec.write_signed_hours filling width seconds) }
{
    let hours = seconds.unsigned_abs() / 3600;
    match filling {
        Filling::Unset => zero_filled_hours(out, width, seconds),
        Filling::Zeros => zero_filled_hours(out, width, seconds),
        Filling::Spaces => {
            let mut buffer = itoa::Buffer::new();
            let digits = buffer.format(u64::from(hours));
            fill(out, width.saturating_sub(1 + digits.len()), ' ')?;
            write_offset_sign(out, seconds)?;
            out.push_str(digits)
        }
    }
}

fn zero_filled_hours(out: &mut String, width: usize, seconds: i32) -> Result<(), AllocError>
    requires { IsOffsetSeconds seconds }
    ensures { OnOk result (string_bytes out.new ≡ string_bytes out.old
        ++ (sign_of seconds ∷ filled_number ZerosAfterSign width (pos (unsigned_abs seconds / 3600)))) }
{
    write_offset_sign(out, seconds)?;
    write_number(
        out,
        NumberFilling::ZerosAfterSign,
        width,
        i64::from(seconds.unsigned_abs() / 3600),
    )
}

fn write_offset_sign(out: &mut String, seconds: i32) -> Result<(), AllocError>
    ensures { OnOk result
        (string_bytes out.new ≡ string_bytes out.old ++ sign_of seconds ∷ []) }
{
    if seconds < 0 {
        return out.push_str("-");
    }
    out.push_str("+")
}

#[tactic(auto, unfolding(crate::specs::meaning::DirectiveText::offset_minutes))]
fn offset_minutes(out: &mut String, offset: Offset, seconds: i32) -> Result<(), AllocError>
    requires { IsOffsetSeconds seconds }
    ensures { OnOk result (string_bytes out.new
        ≡ string_bytes out.old ++ Spec.offset_minutes offset seconds) }
{
    let size = seconds.unsigned_abs();
    let minutes = (size / 60 % 60) as u8;
    match offset {
        Offset::Joined => write_two(out, minutes),
        Offset::Minutes => {
            out.push_str(":")?;
            write_two(out, minutes)
        }
        Offset::Seconds => {
            out.push_str(":")?;
            write_two(out, minutes)?;
            out.push_str(":")?;
            write_two(out, (size % 60) as u8)
        }
    }
}
