//! The mantissa and the scale of a decimal.
ghost use Rattle.std.specs.Prelude.{◌≡◌, ◌≤◌, ◌<◌, ◌^◌, pos, option_map};
ghost use Rattle.liquid_decimals.specs.meaning.Dec.{dec, limited, signed};

use crate::decimal::Decimal;

/// The greatest number of digits after the point.
pub(crate) const GREATEST_SCALE: u32 = 18;

impl Decimal {
    /// Returns the decimal of this mantissa and this number of digits after the point, if those are at most 18.
    pub fn new(mantissa: i64, scale: u32) -> Option<Decimal>
        ensures { option_map dec result ≡ limited mantissa scale }
    {
        if scale > GREATEST_SCALE {
            return None;
        }
        Some(Decimal { mantissa, scale })
    }

    /// Returns an integer as a decimal without digits after the point.
    pub fn from_whole(number: i64) -> Decimal
        ensures { dec result ≡ (number, 0) }
    {
        Decimal {
            mantissa: number,
            scale: 0,
        }
    }

    /// Returns the decimal without its point.
    pub fn mantissa(&self) -> i64
        ensures { result ≡ (dec self.now).0 }
    {
        self.mantissa
    }

    /// Returns the number of digits after the point.
    pub fn scale(&self) -> u32
        ensures { result ≡ (dec self.now).1 }
    {
        self.scale
    }
}

/// Returns the decimal of a sign, a magnitude without its point and a scale, if the mantissa is an `i64`.
pub(crate) fn decimal_from(minus: bool, magnitude: u64, scale: u32) -> Option<Decimal>
    requires { scale ≤ 18 }
    ensures { option_map dec result ≡ limited (signed minus magnitude) scale }
{
    let magnitude = i128::from(magnitude);
    let signed = if minus { -magnitude } else { magnitude };
    narrow(signed, scale)
}

/// Returns the decimal of a mantissa and a scale, if the mantissa is an `i64`.
pub(crate) fn narrow(mantissa: i128, scale: u32) -> Option<Decimal>
    requires { scale ≤ 18 }
    ensures { option_map dec result ≡ limited mantissa scale }
{
    match i64::try_from(mantissa) {
        Ok(mantissa) => Some(Decimal { mantissa, scale }),
        Err(_) => None,
    }
}
