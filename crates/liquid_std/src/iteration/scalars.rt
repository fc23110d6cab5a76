//! The items of a series, where a loop may go over a scalar.
ghost use Rattle.std.specs.Prelude.{◌≡◌, string_bytes, IfOk, Ok};
ghost use Rattle.liquid_error.specs.meaning.Told.{Gives};
ghost use Rattle.liquid_scalar.specs.meaning.Scalar.{scal};
ghost use Rattle.liquid_value.specs.meaning.View.{view as tree_of};
ghost use Rattle.liquid_tags.specs.meaning.Items.{items_left};
ghost use Rattle.liquid_tags.specs.meaning.Series.{items_in, series_of};
ghost use Rattle.liquid_std.specs.meaning.iteration.Scalars.{items_over, scalar_items};

use liquid_core::model::{Array, Scalar, ScalarOf};
use liquid_core::{Error, Expression, Runtime, SharedArray, Value};
use liquid_tags::for_block::series::items_of;
use liquid_tags::{Items, Series};
use std::alloc::{AllocError, Global};

/// What a loop over a scalar goes over.
#[derive(Debug, Clone, Copy, PartialEq, Eq, Drop)]
pub enum OverScalar {
    /// Nothing: a scalar is an `Err`, "Array expected".
    Refused,
    /// A text itself, unless it is empty. Other scalars have no items.
    TextItself,
}

/// Returns the items of a series.
#[inline(never)]
pub(crate) fn items_over<R: Runtime>(
    alloc: Global,
    over: OverScalar,
    series: &Series,
    runtime: &R,
) -> Result<Items, Error>
    ensures { Gives items_left result (items_over over (R.view runtime.now) (series_of series.now)) }
{
    match (over, series) {
        (OverScalar::TextItself, Series::Of(expression)) => {
            let value = expression.evaluate(alloc, runtime)?;
            match value.as_view() {
                Value::Scalar(scalar) => {
                    let items = Expression::Literal(scalar_items(alloc, scalar)?);
                    items_of(alloc, &Series::Of(items), runtime)
                }
                _ => items_of(alloc, series, runtime),
            }
        }
        (_, series) => items_of(alloc, series, runtime),
    }
}

/// Returns a value that has the items of a scalar: an array with the text alone, or nil if there are none.
fn scalar_items(alloc: Global, scalar: &Scalar) -> Result<Value, AllocError>
    ensures { IfOk result (λ v. items_in (tree_of v) ≡ Ok (scalar_items (scal string_bytes scalar.now))) }
{
    match scalar {
        ScalarOf::Str(text) if !text.as_str().is_empty() => {
            let mut items = Array::with_capacity(alloc, 1)?;
            items.push(Value::scalar(text.clone()?))?;
            Ok(Value::Array(SharedArray::shared(alloc, items)?))
        }
        _ => Ok(Value::Nil),
    }
}
