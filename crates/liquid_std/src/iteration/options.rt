//! The options of a loop: `offset` and `limit`, `reversed` of a `for`, and `cols` of a `tablerow`.
ghost use Rattle.std.specs.Prelude.{◌≡◌, option_map, unwrap_or, pos};
ghost use Rattle.liquid_error.specs.meaning.Told.{Gives};
ghost use Rattle.liquid_value.specs.meaning.View.{view as tree_of};
ghost use Rattle.liquid_plugins.specs.meaning.ExpressionOf.{expression_of};
ghost use Rattle.liquid_std.specs.meaning.iteration.Options.{number_given, option_number, options_of};

use liquid_core::parser::Meant;
use liquid_core::runtime::ExpressionMark;
use liquid_core::{Error, Expression, Runtime, Value};
use liquid_filters::value::numbers::whole;
use std::alloc::{AllocError, Global};

/// A block that goes over items.
#[derive(Debug, Clone, Copy, PartialEq, Eq, Drop)]
pub enum LoopBlock {
    For,
    Tablerow,
}

/// An option of a loop.
#[derive(Debug, Clone, Copy, PartialEq, Eq, Drop)]
pub enum LoopOption {
    /// `offset`: the first place, counted from 0.
    Offset,
    /// `limit`: the greatest number of places.
    Limit,
    /// `reversed`: the items in reverse order.
    Reversed,
    /// `cols`: the number of columns.
    Cols,
}

/// The options that a loop was given.
#[derive(Drop)]
pub struct Options {
    pub offset: Option<Expression>,
    pub limit: Option<Expression>,
    pub is_reversed: bool,
    pub cols: Option<Expression>,
}

/// Marks the shape of the options.
pub struct OptionsShape {
    pub offset: Option<ExpressionMark>,
    pub limit: Option<ExpressionMark>,
    pub is_reversed: bool,
    pub cols: Option<ExpressionMark>,
}

impl Meant for Options {
    type Shape = OptionsShape;

    ghost shape = { options_of };
}

/// Returns the integer of an option, or `None` if the option is missing or nil. Any other value is an `Err`.
pub fn option_number<R: Runtime>(
    alloc: Global,
    option: &Option<Expression>,
    runtime: &R,
) -> Result<Option<i64>, Error>
    ensures { Gives (λ n. n) result (option_number (R.view runtime.now) (option_map expression_of option.now)) }
{
    match option {
        Some(expression) => {
            let value = expression.evaluate(alloc, runtime)?;
            number_given(alloc, value.as_view())
        }
        None => Ok(None),
    }
}

/// Returns the integer that a value is, or `None` for nil.
fn number_given(alloc: Global, value: &Value) -> Result<Option<i64>, Error>
    ensures { Gives (λ n. n) result (number_given (tree_of value.now)) }
{
    match value {
        Value::Nil => Ok(None),
        other => Ok(Some(whole(alloc, other)?)),
    }
}
