//! A value wrapped for loose comparison.
ghost use Rattle.std.specs.Prelude.{◌≡◌};
ghost use Rattle.liquid_value.specs.meaning.Loose.{value_eq};
ghost use Rattle.liquid_value.specs.meaning.Order.{value_cmp};
ghost use Rattle.liquid_value.specs.meaning.View.{view};

use crate::loose::value_eq;
use crate::order::value_cmp;
use crate::value::Value;
use std::cmp::Ordering;

/// A value to be compared loosely, as templates compare.
#[derive(Clone, Copy, Debug)]
pub struct ValueViewCmp<'v>(pub &'v Value);

impl<'v> ValueViewCmp<'v> {
    pub fn new(value: &'v Value) -> ValueViewCmp<'v>
        ensures { result.0.now ≡ value.now }
    {
        ValueViewCmp(value)
    }

    /// Compares loosely for equality. It takes no memory, and ends with the smaller of the two values.
    pub fn value_eq(&self, other: &ValueViewCmp<'_>) -> bool
        ensures { result ≡ value_eq (view self.now.0.now) (view other.now.0.now) }
    {
        value_eq(self.0, other.0)
    }

    /// Compares loosely for order, if the values have one. It takes no memory, and ends with the smaller of the two
    /// values.
    pub fn value_cmp(&self, other: &ValueViewCmp<'_>) -> Option<Ordering>
        ensures { result ≡ value_cmp (view self.now.0.now) (view other.now.0.now) }
    {
        value_cmp(self.0, other.0)
    }
}
