//! The parts that `if`, `unless` and `case` choose. Parts are counted from 0, and a part after the last one is empty.
ghost use Rattle.std.specs.Prelude.{◌≡◌, ◌≤◌, map};
ghost use Rattle.liquid_error.specs.meaning.Told.{Gives};
ghost use Rattle.liquid_value.specs.meaning.View.{view as tree_of};
ghost use Rattle.liquid_plugins.specs.meaning.ExpressionOf.{expression_of};
ghost use Rattle.liquid_std.specs.meaning.conditions.Branches.{case_of, equals_one, part_case, part_if, part_unless, part_when};
ghost use Rattle.liquid_std.specs.meaning.conditions.Conditions.{condition_of};
ghost use Rattle.liquid_std.specs.meaning.conditions.Values.{expressions_of};

use crate::conditions::condition::{Condition, holds};
use crate::conditions::equality::{Equality, are_equal};
use liquid_core::parser::{ListOf, Meant};
use liquid_core::runtime::ExpressionMark;
use liquid_core::{Error, Expression, Runtime, Value};
use std::alloc::Global;

/// The value of a `case`, and the alternatives of each `when`.
#[derive(Drop)]
pub struct Case {
    pub value: Expression,
    pub alternatives: Vec<Vec<Expression>>,
}

/// Marks the shape of a `case`.
pub struct CaseShape {
    pub value: ExpressionMark,
    pub alternatives: ListOf<ListOf<ExpressionMark>>,
}

impl Meant for Case {
    type Shape = CaseShape;

    ghost shape = { case_of };
}

/// Returns the part after the first condition that holds, or the part after them all if none does.
///
/// Conditions compare by this equality. Those after one that holds are not evaluated.
pub fn part_if<R: Runtime>(
    alloc: Global,
    equality: Equality,
    conditions: &[Condition],
    runtime: &R,
) -> Result<u64, Error>
    ensures { Gives (λ n. n) result (part_if equality (R.view runtime.now) 0 (map condition_of conditions.now)) }
{
    part_from(alloc, equality, 0, conditions, runtime)
}

/// Returns the same as [`part_if`], except that the first condition must not hold.
pub fn part_unless<R: Runtime>(
    alloc: Global,
    equality: Equality,
    conditions: &[Condition],
    runtime: &R,
) -> Result<u64, Error>
    ensures { Gives (λ n. n) result (part_unless equality (R.view runtime.now) (map condition_of conditions.now)) }
{
    match conditions {
        [first, others @ ..] => {
            if holds(alloc, equality, first, runtime)? {
                part_from(alloc, equality, 1, others, runtime)
            } else {
                Ok(0)
            }
        }
        [] => Ok(0),
    }
}

/// Returns the same as [`part_if`], where `first` is the part after the first condition.
fn part_from<R: Runtime>(
    alloc: Global,
    equality: Equality,
    first: u64,
    conditions: &[Condition],
    runtime: &R,
) -> Result<u64, Error>
    requires { first ≤ 1 }
    ensures { Gives (λ n. n) result (part_if equality (R.view runtime.now) first (map condition_of conditions.now)) }
{
    let mut part = first;
    for condition in conditions {
        if holds(alloc, equality, condition, runtime)? {
            return Ok(part);
        }
        part += 1;
    }
    Ok(part)
}

/// Returns the part of the first `when` with an equal value, or the part after them all if there is none.
///
/// Values are compared by this equality. The value of the `case` is evaluated once, and alternatives after an equal one
/// are not evaluated.
pub fn part_case<R: Runtime>(
    alloc: Global,
    equality: Equality,
    case: &Case,
    runtime: &R,
) -> Result<u64, Error>
    ensures { Gives (λ n. n) result (part_case equality (R.view runtime.now) (case_of case.now)) }
{
    let value = case.value.evaluate(alloc, runtime)?;
    part_when(
        alloc,
        equality,
        value.as_view(),
        case.alternatives.as_slice(),
        runtime,
    )
}

/// Returns the part of the first list of alternatives with an equal value, or the part after them all.
fn part_when<R: Runtime>(
    alloc: Global,
    equality: Equality,
    value: &Value,
    alternatives: &[Vec<Expression>],
    runtime: &R,
) -> Result<u64, Error>
    ensures { Gives (λ n. n) result (part_when equality (R.view runtime.now) (tree_of value.now) 1 (map expressions_of alternatives.now)) }
{
    let mut part = 1;
    for values in alternatives {
        if equals_one(alloc, equality, value, values.as_slice(), runtime)? {
            return Ok(part);
        }
        part += 1;
    }
    Ok(part)
}

/// Returns `true` if the value equals that of one of the expressions.
fn equals_one<R: Runtime>(
    alloc: Global,
    equality: Equality,
    value: &Value,
    expressions: &[Expression],
    runtime: &R,
) -> Result<bool, Error>
    ensures { Gives (λ b. b) result (equals_one equality (R.view runtime.now) (tree_of value.now) (map expression_of expressions.now)) }
{
    for expression in expressions {
        let other = expression.evaluate(alloc, runtime)?;
        if are_equal(equality, value, other.as_view()) {
            return Ok(true);
        }
    }
    Ok(false)
}
