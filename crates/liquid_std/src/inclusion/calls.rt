//! A call of a partial with a value.
ghost use Rattle.liquid_std.specs.meaning.inclusion.Calls.{call_of};

use liquid_core::Expression;
use liquid_core::parser::{Bytes, ListOf, Meant};
use liquid_core::runtime::ExpressionMark;
use liquid_tags::for_block::series::SeriesShape;
use liquid_tags::{Inclusion, Series};

/// How a call passes its value.
#[derive(Debug, Clone, Copy, PartialEq, Eq, Drop)]
pub enum Manner {
    /// The value, once.
    Whole,
    /// The items of an array one by one, and any other value once.
    Items,
    /// The items of an array, an object or a range one by one with `forloop`, and any other value once without it.
    Loop,
}

/// A call of a partial with a value.
#[derive(Drop)]
pub struct PartialCall {
    pub inclusion: Inclusion,
    /// The value that names the partial.
    pub name: Expression,
    pub manner: Manner,
    /// What is passed.
    pub series: Series,
    /// The name of what is passed. Without it that is the last part of the partial's name.
    pub alias: Option<String>,
    pub pairs: Vec<(String, Expression)>,
}

/// Marks the shape of a call.
pub struct PartialCallShape {
    pub inclusion: Inclusion,
    pub name: ExpressionMark,
    pub manner: Manner,
    pub series: SeriesShape,
    pub alias: Option<Bytes>,
    pub pairs: ListOf<(Bytes, ExpressionMark)>,
}

impl Meant for PartialCall {
    type Shape = PartialCallShape;

    ghost shape = { call_of };
}
