//! Padding, numbers and cased texts.
ghost use Rattle.std.specs.Prelude.{◌≡◌, ◌<◌, ◌≤◌, ◌++◌, OnOk, length, replicate, unsigned_abs};
ghost use Rattle.std.specs.Fmt.{decimal};
ghost use Rattle.std.specs.String.{string_bytes};
ghost use Rattle.liquid_dates.specs.meaning.Filling as Spec;
ghost use Rattle.liquid_dates.specs.meaning.Filling.{is_ascii_text};
ghost use Rattle.std.specs.Prelude.{true};

use crate::flags::{Case, NumberFilling};
use std::alloc::AllocError;

/// Appends that many copies of an ASCII character. Room for all of them is made first.
pub(crate) fn fill(out: &mut String, count: usize, filler: char) -> Result<(), AllocError>
    requires { filler < 128 }
    ensures { OnOk result (string_bytes out.new ≡ string_bytes out.old ++ replicate count filler) }
{
    out.reserve(count)?;
    'fill: for _ in 0..count {
        out.push(filler)?;
    }
    Ok(())
}

/// Appends a number padded to a width: with spaces before its sign, or with zeros after it.
#[tactic(auto, unfolding(crate::specs::meaning::Filling::filled_number))]
pub(crate) fn write_number(
    out: &mut String,
    filling: NumberFilling,
    width: usize,
    value: i64,
) -> Result<(), AllocError>
    ensures { OnOk result
        (string_bytes out.new ≡ string_bytes out.old ++ Spec.filled_number filling width value) }
{
    let mut buffer = itoa::Buffer::new();
    let digits = buffer.format(value.unsigned_abs());
    let missing = missing(width, value, digits.len());
    match filling {
        NumberFilling::SpacesBeforeSign => {
            fill(out, missing, ' ')?;
            write_minus(out, value)?;
        }
        NumberFilling::ZerosAfterSign => {
            write_minus(out, value)?;
            fill(out, missing, '0')?;
        }
    }
    out.push_str(digits)
}

// Returns the number of characters that a number with that many digits is short of a width.
fn missing(width: usize, value: i64, digits: usize) -> usize
    requires count { digits ≡ length (decimal (unsigned_abs value)) }
    requires bound { digits ≤ 40 }
    ensures { result ≡ Spec.missing width value }
{
    if value < 0 {
        return width.saturating_sub(1 + digits);
    }
    width.saturating_sub(digits)
}

fn write_minus(out: &mut String, value: i64) -> Result<(), AllocError>
    ensures { OnOk result (string_bytes out.new ≡ string_bytes out.old ++ Spec.minus value) }
{
    if value < 0 {
        return out.push('-');
    }
    Ok(())
}

/// Appends an ASCII text, in upper case if a flag says so.
pub(crate) fn write_cased(out: &mut String, text: &str, case: Case) -> Result<(), AllocError>
    requires { is_ascii_text text.now ≡ true }
    ensures { OnOk result
        (string_bytes out.new ≡ string_bytes out.old ++ Spec.cased case text.now) }
{
    match case {
        Case::Plain => out.push_str(text),
        Case::Upper => write_upper(out, text),
        Case::Change => write_upper(out, text),
    }
}

fn write_upper(out: &mut String, text: &str) -> Result<(), AllocError>
    requires { is_ascii_text text.now ≡ true }
    ensures { OnOk result
        (string_bytes out.new ≡ string_bytes out.old ++ Spec.cased Case.Upper text.now) }
{
    for byte in text.as_bytes() {
        out.push(char::from(byte.to_ascii_uppercase()))?;
    }
    Ok(())
}
