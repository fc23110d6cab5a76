//! The items for which a condition holds.
ghost use Rattle.std.specs.Prelude.{map};
ghost use Rattle.liquid_error.specs.meaning.Told.{Gives};
ghost use Rattle.liquid_value.specs.meaning.View.{view as tree_of};
ghost use Rattle.liquid_runtime.specs.meaning.Erased.{erase};
ghost use Rattle.jekyll_language.specs.meaning.expressions.Items as Spec;
ghost use Rattle.jekyll_language.specs.meaning.expressions.Kinds.{call_of};

use crate::expressions::kinds::{ExpressionCall, ExpressionKind};
use crate::expressions::names::one_name;
use crate::expressions::read_only::ReadOnly;
use liquid_error::Error;
use liquid_runtime::{Runtime, StackFrame};
use liquid_std::conditions::{Equality, holds};
use liquid_value::Value;
use std::alloc::Global;

/// Returns the items for which the condition of a filter holds, or the first of them. Without one, `find_exp` returns nil.
pub(crate) fn choose_items<R: Runtime>(
    alloc: Global,
    call: &ExpressionCall,
    items: &[&Value],
    runtime: &R,
) -> Result<Value, Error>
    ensures { Gives tree_of result (Spec.chosen (call_of call.now) (erase (R.view runtime.now)) (map (λ r. tree_of r.now) items.now)) }
{
    match call.kind {
        ExpressionKind::WhereExp => Ok(Value::from(keep_items(alloc, call, items, runtime)?)),
        ExpressionKind::FindExp => first(alloc, call, items, runtime),
    }
}

fn keep_items<R: Runtime>(
    alloc: Global,
    call: &ExpressionCall,
    items: &[&Value],
    runtime: &R,
) -> Result<Vec<Value>, Error>
    ensures { Gives (λ v. map tree_of v.items) result
        (Spec.kept (call_of call.now) (erase (R.view runtime.now)) (map (λ r. tree_of r.now) items.now)) }
{
    let mut kept = Vec::new(alloc);
    for item in items {
        if item_holds(alloc, call, item, runtime)? {
            kept.push((*item).clone()?)?;
        }
    }
    Ok(kept)
}

fn first<R: Runtime>(
    alloc: Global,
    call: &ExpressionCall,
    items: &[&Value],
    runtime: &R,
) -> Result<Value, Error>
    ensures { Gives tree_of result (Spec.first (call_of call.now) (erase (R.view runtime.now)) (map (λ r. tree_of r.now) items.now)) }
{
    for item in items {
        if item_holds(alloc, call, item, runtime)? {
            return Ok((*item).clone()?);
        }
    }
    Ok(Value::Nil)
}

/// Returns `true` if the condition holds where the item has its name over all others.
fn item_holds<R: Runtime>(
    alloc: Global,
    call: &ExpressionCall,
    item: &Value,
    runtime: &R,
) -> Result<bool, Error>
    ensures { Gives (λ b. b) result (Spec.item_holds (call_of call.now) (erase (R.view runtime.now)) (tree_of item.now)) }
{
    let names = one_name(alloc, call.name.as_str(), item)?;
    let frame = StackFrame::new(ReadOnly::new(runtime)?, names);
    holds(alloc, Equality::Same, &call.condition, &frame)
}
