//! Conditions.
ghost use Rattle.std.specs.Prelude.{◌≡◌, ℕ, map, option_map};
ghost use Rattle.liquid_error.specs.meaning.Told.{Gives};
ghost use Rattle.liquid_value.specs.meaning.Cow.{cow_view};
ghost use Rattle.liquid_value.specs.meaning.View.{view as tree_of};
ghost use Rattle.liquid_tags.specs.meaning.Conditions.{chosen, compares, condition_of, holds, is_ordered, is_truthy};

use liquid_core::model::{State, ValueViewCmp};
use liquid_core::parser::Meant;
use liquid_core::runtime::ExpressionMark;
use liquid_core::{Error, Expression, Runtime, Value, ValueCow};
use std::alloc::Global;
use std::cmp::Ordering;

/// A comparison of two values.
#[derive(Debug, Clone, Copy, PartialEq, Eq, Drop)]
pub enum Comparison {
    Equal,
    Unequal,
    Less,
    Greater,
    AtMost,
    AtLeast,
}

/// The condition of an `if` or `elsif`.
#[derive(Drop)]
pub enum Condition {
    /// There is a value, and it is truthy.
    Holds(Expression),
    /// Two values compare in this way.
    Compares(Expression, Comparison, Expression),
}

/// Marks the shape of a condition.
pub enum ConditionShape {
    Holds(ExpressionMark),
    Compares(ExpressionMark, Comparison, ExpressionMark),
}

impl Meant for Condition {
    type Shape = ConditionShape;

    ghost shape = { condition_of };
}

/// Returns the place of the first condition that holds, or the place after them all if none does.
#[inline(always)]
pub(crate) fn choose_part<R: Runtime>(
    alloc: Global,
    conditions: &[Condition],
    runtime: &R,
) -> Result<u64, Error>
    ensures { Gives (λ n. n) result (chosen (R.view runtime.now) 0 (map condition_of conditions.now)) }
{
    let mut place = 0;
    for condition in conditions {
        if holds(alloc, condition, runtime)? {
            return Ok(place);
        }
        place += 1;
    }
    Ok(place)
}

/// Returns `true` if the condition holds.
fn holds<R: Runtime>(alloc: Global, condition: &Condition, runtime: &R) -> Result<bool, Error>
    ensures { Gives (λ b. b) result (holds (R.view runtime.now) (condition_of condition.now)) }
{
    match condition {
        Condition::Holds(value) => Ok(is_truthy(value.try_evaluate(alloc, runtime)?)),
        Condition::Compares(left, comparison, right) => {
            let left = left.evaluate(alloc, runtime)?;
            if let Expression::Literal(right) = right {
                return Ok(compares(*comparison, left.as_view(), right));
            }
            let right = right.evaluate(alloc, runtime)?;
            Ok(compares(*comparison, left.as_view(), right.as_view()))
        }
    }
}

/// Returns `true` if there is a value, and it is truthy.
pub fn is_truthy(value: Option<ValueCow<'_>>) -> bool
    ensures { result ≡ is_truthy (option_map cow_view value.entry) }
{
    match value {
        Some(value) => value.as_view().query_state(State::Truthy),
        None => false,
    }
}

/// Returns `true` if two values compare in this way.
pub fn compares(comparison: Comparison, left: &Value, right: &Value) -> bool
    ensures { result ≡ compares comparison (tree_of left.now) (tree_of right.now) }
{
    let (left, right) = (ValueViewCmp::new(left), ValueViewCmp::new(right));
    match comparison {
        Comparison::Equal => left.value_eq(&right),
        Comparison::Unequal => !left.value_eq(&right),
        _ => is_ordered(comparison, left.value_cmp(&right)),
    }
}

fn is_ordered(comparison: Comparison, order: Option<Ordering>) -> bool
    ensures { result ≡ is_ordered comparison order }
{
    match (comparison, order) {
        (Comparison::Less | Comparison::AtMost, Some(Ordering::Less)) => true,
        (Comparison::Greater | Comparison::AtLeast, Some(Ordering::Greater)) => true,
        (Comparison::AtMost | Comparison::AtLeast, Some(Ordering::Equal)) => true,
        _ => false,
    }
}
