//! Conditions, and whether they hold.
ghost use Rattle.std.specs.Prelude.{◌≡◌, IfOk};
ghost use Rattle.liquid_error.specs.meaning.Told.{Gives};
ghost use Rattle.liquid_value.specs.meaning.View.{view as tree_of};
ghost use Rattle.liquid_std.specs.meaning.conditions.Conditions.{compares_by, condition_of, decides, holds};
ghost use Rattle.liquid_std.specs.meaning.conditions.Conditions.{joined_of, passes, test_holds, test_of};

use crate::conditions::contained::contains;
use crate::conditions::equality::{Equality, are_equal};
use liquid_core::parser::{ListOf, Meant};
use liquid_core::runtime::ExpressionMark;
use liquid_core::{Error, Expression, Runtime, Value};
use liquid_tags::Comparison;
use liquid_tags::if_block::condition::{compares, is_truthy};
use std::alloc::{AllocError, Global};

/// An operator between two values.
#[derive(Debug, Clone, Copy, PartialEq, Eq, Drop)]
pub enum Operator {
    /// A comparison, such as `==`.
    Compares(Comparison),
    /// `contains`: the first value contains the second.
    Contains,
}

/// A condition without `and` and `or`.
#[derive(Drop)]
pub enum Test {
    /// Holds if there is a value, and it is truthy.
    Holds(Expression),
    /// Holds if two values pass the operator.
    Passes(Expression, Operator, Expression),
}

/// Marks the shape of a test.
pub enum TestShape {
    Holds(ExpressionMark),
    Passes(ExpressionMark, Operator, ExpressionMark),
}

/// The word between a test and the rest of its condition.
#[derive(Debug, Clone, Copy, PartialEq, Eq, Drop)]
pub enum Connective {
    And,
    Or,
}

/// Tests that are joined from right to left: `a and b or c` is `a and (b or c)`.
#[derive(Drop)]
pub struct Condition {
    /// The tests before the last one, each with the word after it.
    pub joined: Vec<(Test, Connective)>,
    /// The last test.
    pub last: Test,
}

/// Marks the shape of a condition.
pub struct ConditionShape {
    pub joined: ListOf<(TestShape, Connective)>,
    pub last: TestShape,
}

impl Meant for Condition {
    type Shape = ConditionShape;

    ghost shape = { condition_of };
}

/// Returns `true` if the condition holds, where `==` and `!=` compare by this equality.
///
/// A missing value is an `Err` in a comparison, and does not hold as a test of its own. Tests after one that decides are
/// not evaluated.
pub fn holds<R: Runtime>(
    alloc: Global,
    equality: Equality,
    condition: &Condition,
    runtime: &R,
) -> Result<bool, Error>
    ensures { Gives (λ b. b) result (holds equality (R.view runtime.now) (condition_of condition.now)) }
{
    for joined in condition.joined.as_slice() {
        let it_holds = test_holds(alloc, equality, &joined.0, runtime)?;
        if decides(joined.1, it_holds) {
            return Ok(it_holds);
        }
    }
    test_holds(alloc, equality, &condition.last, runtime)
}

fn test_holds<R: Runtime>(
    alloc: Global,
    equality: Equality,
    test: &Test,
    runtime: &R,
) -> Result<bool, Error>
    ensures { Gives (λ b. b) result (test_holds equality (R.view runtime.now) (test_of test.now)) }
{
    match test {
        Test::Holds(value) => Ok(is_truthy(value.try_evaluate(alloc, runtime)?)),
        Test::Passes(left, operator, right) => {
            let left = left.evaluate(alloc, runtime)?;
            let right = right.evaluate(alloc, runtime)?;
            Ok(passes(alloc, equality, *operator, left.as_view(), right.as_view())?)
        }
    }
}

/// Returns `true` if the whole condition has the result of this test: `false` before `and`, `true` before `or`.
fn decides(connective: Connective, it_holds: bool) -> bool
    ensures { result ≡ decides connective it_holds }
{
    match connective {
        Connective::And => !it_holds,
        Connective::Or => it_holds,
    }
}

fn passes(
    alloc: Global,
    equality: Equality,
    operator: Operator,
    left: &Value,
    right: &Value,
) -> Result<bool, AllocError>
    ensures { IfOk result (λ b. b ≡ passes equality operator (tree_of left.now) (tree_of right.now)) }
{
    match operator {
        Operator::Compares(comparison) => Ok(compares_by(equality, comparison, left, right)),
        Operator::Contains => contains(alloc, left, right),
    }
}

/// Returns `true` if two values compare in that way. Only `==` and `!=` depend on the equality.
fn compares_by(equality: Equality, comparison: Comparison, left: &Value, right: &Value) -> bool
    ensures { result ≡ compares_by equality comparison (tree_of left.now) (tree_of right.now) }
{
    match comparison {
        Comparison::Equal => are_equal(equality, left, right),
        Comparison::Unequal => !are_equal(equality, left, right),
        _ => compares(comparison, left, right),
    }
}
