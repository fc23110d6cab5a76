//! The moment that a page is given for `now` and `today`.
ghost use Rattle.std.specs.Prelude.{◌≡◌, IfOk, IfSome, IfNone, None};
ghost use Rattle.liquid_dates.specs.declared.date_time.DateTime.{DateTime};
ghost use Rattle.liquid_scalar.specs.meaning.Scalar.{text};
ghost use Rattle.liquid_value.specs.meaning.Tree.{scalar};
ghost use Rattle.liquid_value.specs.meaning.View.{view as tree_of};
ghost use Rattle.filter_dates.specs.meaning.Moments.{IsMomentOf};
ghost use Rattle.liquid_c.specs.meaning.Moments.{Writes};
ghost use Rattle.liquid_c.specs.steps.Chosen.{IsGiven};

use crate::languages::has_bit;
use crate::page::{NOW, Page};
use filter_dates::moment_of;
use liquid_dates::DateTime;
use liquid_value::Value;
use std::alloc::{AllocError, Global};
use std::str::from_utf8;

/// Why a page has no moment, though its options say that it has one.
#[derive(Clone, Copy, Drop)]
pub(crate) enum MomentFault {
    /// Its bytes write none.
    NoMoment,
    /// Memory ran out.
    NoMemory,
}

/// Returns the moment of a page, or `None` if its options say that it has none.
pub(crate) fn given_moment(alloc: Global, page: &Page<'_>) -> Result<Option<DateTime>, MomentFault>
    ensures { IsGiven page.now result }
{
    if !has_bit(page.options, NOW) {
        return Ok(None);
    }
    match moment_in(alloc, page.moment) {
        Ok(Some(moment)) => Ok(Some(moment)),
        Ok(None) => Err(MomentFault::NoMoment),
        Err(_) => Err(MomentFault::NoMemory),
    }
}

/// Returns the moment that bytes write, if they write one. `now` and `today` write none.
fn moment_in(alloc: Global, bytes: &[u8]) -> Result<Option<DateTime>, AllocError>
    ensures fits { IfOk result (λ o. IfSome o (λ dt. Writes bytes.now dt)) }
    ensures none { IfOk result (λ o. IfNone o ((dt : DateTime) → ¬ (Writes bytes.now dt))) }
{
    match from_utf8(bytes) {
        Ok(written) => moment_in_text(alloc, written),
        Err(_) => Ok(None),
    }
}

/// Returns the moment that a text writes, if it writes one.
fn moment_in_text(alloc: Global, written: &str) -> Result<Option<DateTime>, AllocError>
    ensures fits { IfOk result (λ o. IfSome o (λ dt. IsMomentOf None (scalar (text written.now)) dt)) }
    ensures none { IfOk result (λ o. IfNone o ((dt : DateTime) → ¬ (IsMomentOf None (scalar (text written.now)) dt))) }
{
    let value = text_value(alloc, written)?;
    moment_of(alloc, &value, None)
}

fn text_value(alloc: Global, written: &str) -> Result<Value, AllocError>
    ensures { IfOk result (λ value. tree_of value ≡ scalar (text written.now)) }
{
    Ok(Value::scalar(String::from_str(alloc, written)?))
}
