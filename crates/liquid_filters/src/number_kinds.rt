//! The filters on numbers.
ghost use Rattle.liquid_filters.specs.meaning.Standard.{number_sense};

use crate::arguments::CallArguments;
use crate::number::arithmetic::{at_least, at_most, divided_by, minus, modulo, plus, times};
use crate::number::single::{abs, ceil, floor, round};
use crate::number::units::{from_minor, to_minor, written_decimal};
use crate::parameters::{DECIMAL, DIGITS, DIVISOR, NONE, NUMBER, UNIT};
use crate::row::{FilterKind, FilterRow};
use liquid_error::Error;
use liquid_value::Value;
use std::alloc::Global;

/// A filter on numbers.
#[derive(Debug, Clone, Copy, PartialEq, Eq, Drop)]
pub enum NumberKind {
    Abs,
    AtLeast,
    AtMost,
    Ceil,
    Decimal,
    DividedBy,
    Floor,
    FromMinor,
    Minus,
    Modulo,
    Plus,
    Round,
    Times,
    ToMinor,
}

impl FilterKind for NumberKind {
    ghost sense = { number_sense };

    fn row(&self) -> FilterRow {
        match self {
            NumberKind::Abs => FilterRow::new("abs", "Removes the sign of a number.", &NONE),
            NumberKind::AtLeast => FilterRow::new(
                "at_least",
                "Returns the greater of two numbers.",
                &NUMBER,
            ),
            NumberKind::AtMost => FilterRow::new(
                "at_most",
                "Returns the lesser of two numbers.",
                &NUMBER,
            ),
            NumberKind::Ceil => FilterRow::new("ceil", "Rounds up to an integer.", &NONE),
            NumberKind::Decimal => FilterRow::new(
                "decimal",
                "Writes a number with a fixed number of digits after the point.",
                &DECIMAL,
            ),
            NumberKind::DividedBy => FilterRow::new(
                "divided_by",
                "Divides by a number. The quotient of integers is rounded down.",
                &DIVISOR,
            ),
            NumberKind::Floor => FilterRow::new("floor", "Rounds down to an integer.", &NONE),
            NumberKind::FromMinor => FilterRow::new(
                "from_minor",
                "Converts cents, or another smaller unit, to the larger unit.",
                &UNIT,
            ),
            NumberKind::Minus => FilterRow::new("minus", "Subtracts a number.", &NUMBER),
            NumberKind::Modulo => FilterRow::new(
                "modulo",
                "Returns the remainder of a division.",
                &NUMBER,
            ),
            NumberKind::Plus => FilterRow::new("plus", "Adds a number.", &NUMBER),
            NumberKind::Round => FilterRow::new(
                "round",
                "Rounds to a number of digits after the point.",
                &DIGITS,
            ),
            NumberKind::Times => FilterRow::new("times", "Multiplies by a number.", &NUMBER),
            NumberKind::ToMinor => FilterRow::new(
                "to_minor",
                "Converts to cents, or to another smaller unit.",
                &UNIT,
            ),
        }
    }

    fn answer(
        &self,
        alloc: Global,
        input: &Value,
        arguments: &CallArguments<'_>,
    ) -> Result<Value, Error> {
        let given = arguments.positional;
        match self {
            NumberKind::Abs => abs(alloc, input),
            NumberKind::AtLeast => at_least(alloc, input, given),
            NumberKind::AtMost => at_most(alloc, input, given),
            NumberKind::Ceil => ceil(alloc, input),
            NumberKind::Decimal => written_decimal(alloc, input, given),
            NumberKind::DividedBy => divided_by(alloc, input, given),
            NumberKind::Floor => floor(alloc, input),
            NumberKind::FromMinor => from_minor(alloc, input, given),
            NumberKind::Minus => minus(alloc, input, given),
            NumberKind::Modulo => modulo(alloc, input, given),
            NumberKind::Plus => plus(alloc, input, given),
            NumberKind::Round => round(alloc, input, given),
            NumberKind::Times => times(alloc, input, given),
            NumberKind::ToMinor => to_minor(alloc, input, given),
        }
    }
}
