//! The texts of decimals.
ghost use Rattle.std.specs.Prelude.{◌≡◌, ◌<◌, ◌≤◌, ◌∷◌, ◌++◌, ◌+◌, ◌%◌, ◌^◌, string_bytes, OnOk, IfOk};
ghost use Rattle.std.specs.Str.{IsAscii};
ghost use Rattle.liquid_decimals.specs.meaning.Dec.{dec};
ghost use Rattle.liquid_decimals.specs.meaning.Written.{grouped, minus_sign, places, point_and_places, separator_before, styled, written};

use crate::decimal::Decimal;
use std::alloc::{AllocError, Global};

impl Decimal {
    /// Returns the text of the decimal: a minus if it is below 0, at least one digit, and, if the scale is above 0, a point
    /// and as many digits after it. Fails if memory runs out.
    pub fn to_string(self, alloc: Global) -> Result<String, AllocError>
        ensures { IfOk result (λ t. string_bytes t ≡ written (dec self)) }
    {
        let mut text = String::new(alloc);
        self.push_sign(&mut text)?;
        let magnitude = self.mantissa.unsigned_abs();
        let mut buffer = itoa::Buffer::new();
        text.push_str(buffer.format(magnitude / ten_to(self.scale)))?;
        push_fraction(&mut text, ".", magnitude, self.scale)?;
        Ok(text)
    }

    /// Returns the text of the decimal with this point, and with the separator between each three digits before it, counted
    /// from the point. Fails if memory runs out.
    pub fn to_grouped(
        self,
        alloc: Global,
        point: &str,
        separator: &str,
    ) -> Result<String, AllocError>
        ensures { IfOk result (λ t. string_bytes t ≡ styled point.now separator.now (dec self)) }
    {
        let mut text = String::new(alloc);
        self.push_sign(&mut text)?;
        let magnitude = self.mantissa.unsigned_abs();
        let mut buffer = itoa::Buffer::new();
        push_grouped(
            &mut text,
            buffer.format(magnitude / ten_to(self.scale)),
            separator,
        )?;
        push_fraction(&mut text, point, magnitude, self.scale)?;
        Ok(text)
    }

    fn push_sign(self, text: &mut String) -> Result<(), AllocError>
        ensures { OnOk result (string_bytes text.new ≡ string_bytes text.old ++ minus_sign (dec self)) }
    {
        if self.mantissa < 0 {
            text.push('-')?;
        }
        Ok(())
    }
}

/// Appends the digits, with the separator between each three, counted from their end.
fn push_grouped(text: &mut String, digits: &str, separator: &str) -> Result<(), AllocError>
    requires { IsAscii digits.now }
    ensures { OnOk result (string_bytes text.new ≡ string_bytes text.old ++ grouped separator.now digits.now) }
{
    let digits = digits.as_bytes();
    for (index, digit) in digits.iter().enumerate() {
        push_digit(text, *digit, digits.len() - index - 1, separator)?;
    }
    Ok(())
}

/// Appends a digit, and the separator if the digits that are left make up whole groups of three.
fn push_digit(text: &mut String, digit: u8, left: usize, separator: &str) -> Result<(), AllocError>
    requires { digit < 128 }
    ensures { OnOk result (string_bytes text.new ≡ string_bytes text.old ++ (digit ∷ separator_before separator.now left)) }
{
    text.push(char::from(digit))?;
    if left > 0 && left % 3 == 0 {
        text.push_str(separator)?;
    }
    Ok(())
}

/// Appends the point and as many of the last digits of the magnitude as the scale says, or nothing at scale 0.
fn push_fraction(
    text: &mut String,
    point: &str,
    magnitude: u64,
    scale: u32,
) -> Result<(), AllocError>
    requires { scale ≤ 18 }
    ensures { OnOk result (string_bytes text.new ≡ string_bytes text.old ++ point_and_places point.now scale magnitude) }
{
    if scale > 0 {
        text.push_str(point)?;
        push_places(text, magnitude, scale)?;
    }
    Ok(())
}

/// Appends the last digits of the magnitude, as many as the count says.
fn push_places(text: &mut String, magnitude: u64, count: u32) -> Result<(), AllocError>
    requires { count ≤ 18 }
    ensures { OnOk result (string_bytes text.new ≡ string_bytes text.old ++ places count magnitude) }
{
    let mut left = count;
    while left > 0 {
        left -= 1;
        text.push(digit(magnitude / ten_to(left)))?;
    }
    Ok(())
}

/// Returns the last digit of the number.
fn digit(number: u64) -> char
    ensures value { result ≡ 48 + number % 10 }
    ensures ascii { result < 128 }
{
    char::from(b'0' + (number % 10) as u8)
}

/// Returns ten to a scale.
#[tactic(auto, using(crate::proofs::Tens::tens_le_18, crate::proofs::Tens::tens_above_0))]
fn ten_to(scale: u32) -> u64
    requires { scale ≤ 18 }
    ensures value { result ≡ 10 ^ scale }
    ensures above { 0 < result }
{
    10u64.pow(scale)
}
