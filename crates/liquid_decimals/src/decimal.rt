//! The type of a decimal, and how one is made.
ghost use Rattle.std.specs.Prelude.{◌≤◌};

/// An exact number: a mantissa, which is an integer of 64 bits, divided by a power of ten. The exponent of that power
/// is the scale, which is the number of digits after the point and at most 18.
#[derive(Clone, Copy)]
pub struct Decimal {
    pub(crate) mantissa: i64,
    pub(crate) scale: u32,
    pub ghost limited: { scale ≤ 18 },
}
