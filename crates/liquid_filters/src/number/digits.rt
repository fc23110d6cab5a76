//! How many digits a number has after the point, as an argument says it.
ghost use Rattle.liquid_error.specs.meaning.Told.{Gives};
ghost use Rattle.liquid_value.specs.meaning.View.{view as tree_of};
ghost use Rattle.liquid_filters.specs.meaning.number.Digits.{scale};

use crate::value::errors::{digits_past_limit_error, past_limit_error};
use crate::value::numbers::whole;
use liquid_error::Error;
use liquid_value::Value;
use std::alloc::Global;

/// The greatest number of digits after the point.
const GREATEST_SCALE: i64 = 18;

/// Returns a number of digits after the point, which is from 0 to 18.
pub(crate) fn scale(alloc: Global, digits: &Value) -> Result<u32, Error>
    ensures { Gives (λ n. n) result (scale (tree_of digits.now)) }
{
    let digits = whole(alloc, digits)?;
    if digits < 0 {
        return Err(digits_past_limit_error(alloc));
    }
    if digits > GREATEST_SCALE {
        return Err(past_limit_error(alloc));
    }
    Ok(digits as u32)
}
