//! Values that are borrowed in place where an expression leads.
ghost use Rattle.std.specs.Prelude.{◌≡◌, IfSome, Ok, Some, option_and_then, option_map, string_bytes};
ghost use Rattle.liquid_scalar.specs.meaning.Scalar.{Scal, render_scalar, scal, text};
ghost use Rattle.liquid_value.specs.meaning.Tree.{scalar};
ghost use Rattle.liquid_value.specs.meaning.Cow.{cow_view};
ghost use Rattle.liquid_value.specs.meaning.View.{view as tree_of};
ghost use Rattle.liquid_runtime.specs.meaning.Made.{InPlaceOrMade, OfLoop};
ghost use Rattle.liquid_runtime.specs.meaning.LoopNames.{forloop, seen_tree};
ghost use Rattle.liquid_paths.specs.meaning.PathOf.{index_of};
ghost use Rattle.liquid_paths.specs.meaning.Step.{step};
ghost use Rattle.liquid_paths.specs.meaning.Walk.{walk};
ghost use Rattle.liquid_runtime.specs.meaning.NamesSeen.{lookup};
ghost use Rattle.liquid_plugins.specs.meaning.Evaluation.{evaluate, try_evaluate, try_path_of};
ghost use Rattle.liquid_plugins.specs.meaning.Expression.{variable, no_indexes, index, literal};
ghost use Rattle.liquid_plugins.specs.meaning.ExpressionOf.{expression_of, expressions_of};
ghost use Rattle.liquid_plugins.specs.steps.LiteralWalk.{literal_part, literal_walk};

use crate::expression::Expression;
use liquid_paths::{own_part, step};
use liquid_runtime::{Counts, Runtime, Seen};
use liquid_scalar::{Scalar, ScalarCow, ScalarOf};
use liquid_value::{Value, ValueCow};
use std::alloc::Global;

/// Returns the value of a name, which is the value of the variable of the name alone. Returns `None` if it has none.
#[tactic(auto, using(crate::proofs::BorrowedValues::borrowed_name))]
pub fn named_value<'c, R: Runtime>(name: &str, runtime: &'c R) -> Option<Seen<'c>>
    ensures value { option_map seen_tree result ≡ lookup (R.view runtime.now) name.now }
    ensures evaluates { IfSome result (λ seen. evaluate (R.view runtime.now) (variable (text name.now) no_indexes)
        ≡ Ok (seen_tree seen)) }
{
    runtime.try_get_name(name)
}

/// Returns the value of the expression, if it and each index on the way are borrowed in place, or are sizes. No list is
/// made for the path. `None` says nothing about the value of the expression.
#[cycle(borrow)]
#[inline(always)]
pub(crate) fn borrow_value<'c, R: Runtime>(
    alloc: Global,
    expression: &'c Expression,
    runtime: &'c R,
) -> Option<ValueCow<'c>>
    ensures gives { IfSome result (λ value. try_evaluate (R.view runtime.now) (expression_of expression.now) ≡ Some (cow_view value)) }
    ensures in_place { IfSome result InPlaceOrMade }
{
    match expression {
        Expression::Literal(value) => Some(ValueCow::Borrowed(value)),
        Expression::Variable(variable) => {
            match value_of(&variable.variable, runtime)? {
                Seen::Lent(value) => {
                    if variable.indexes.is_empty() {
                        return Some(ValueCow::Borrowed(value));
                    }
                    borrow_through(alloc, &variable.indexes, value, runtime)
                }
                Seen::Loop(counts) => loop_member(counts, &variable.indexes, runtime),
            }
        }
    }
}

/// Returns the value that these indexes lead to from a borrowed value, if each index and each value on the way is
/// borrowed in place, or is a size.
#[cycle(borrow)]
fn borrow_through<'c, R: Runtime>(
    alloc: Global,
    indexes: &'c Vec<Expression>,
    value: &'c Value,
    runtime: &'c R,
) -> Option<ValueCow<'c>>
    ensures gives { IfSome result (λ found.
        option_and_then (λ path. walk (tree_of value.now) path) (try_path_of (R.view runtime.now) (expressions_of indexes.now.items))
        ≡ Some (cow_view found)) }
    ensures in_place { IfSome result InPlaceOrMade }
{
    if let Some(own) = own_value(indexes, value) {
        return Some(ValueCow::Borrowed(own));
    }
    let mut at = ValueCow::Borrowed(value);
    for index in indexes {
        let scalar = borrow_value(alloc, index, runtime)?;
        at = part_of(alloc, &at, scalar.as_view())?;
    }
    Some(at)
}

/// Returns the member of an object `forloop` that the indexes name, if they are one literal text.
#[tactic(auto, using(crate::proofs::BorrowedValues::made_of_loop))]
fn loop_member<'c, R: Runtime>(
    counts: Counts,
    indexes: &Vec<Expression>,
    _runtime: &'c R,
) -> Option<ValueCow<'c>>
    ensures gives { IfSome result (λ found.
        option_and_then (λ path. walk (forloop counts.place counts.size) path)
        (try_path_of (R.view _runtime.now) (expressions_of indexes.now.items))
        ≡ Some (cow_view found)) }
    ensures in_place { IfSome result InPlaceOrMade }
{
    let word = only_word(indexes)?;
    let part = member_at(counts, word)?;
    Some(ValueCow::Owned(part))
}

/// Returns the literal text that is the only index.
fn only_word(indexes: &Vec<Expression>) -> Option<&str>
    ensures { IfSome result (λ word. expressions_of indexes.now.items ≡ index (literal (scalar (text word.now))) no_indexes) }
{
    if indexes.len() != 1 {
        return None;
    }
    match &indexes[0] {
        Expression::Literal(Value::Scalar(ScalarOf::Str(word))) => Some(word.as_str()),
        _ => None,
    }
}

/// Returns the member of an object `forloop` of that name.
#[tactic(auto, using(crate::proofs::BorrowedValues::member_leads))]
fn member_at(counts: Counts, word: &str) -> Option<Value>
    ensures walks { IfSome result (λ part.
        literal_walk (forloop counts.place counts.size) (index (literal (scalar (text word.now))) no_indexes) ≡ Some (tree_of part)) }
    ensures made { IfSome result (λ part. OfLoop (tree_of part)) }
{
    let part = counts.member(word)?;
    Some(part)
}

/// Returns the value that literal indexes lead to from a value, each of them to a member or an item, as in most paths.
/// `None` says nothing about where the indexes lead.
#[inline(always)]
fn own_value<'c>(indexes: &Vec<Expression>, value: &'c Value) -> Option<&'c Value>
    ensures { IfSome result (λ found. literal_walk (tree_of value.now) (expressions_of indexes.now.items) ≡ Some (tree_of found.now)) }
{
    let mut at = value;
    for index in indexes {
        at = own_part_of(at, index)?;
    }
    Some(at)
}

/// Returns the member or the item of a value at a literal index. `None` says nothing about where the index leads.
fn own_part_of<'c>(value: &'c Value, index: &Expression) -> Option<&'c Value>
    ensures { IfSome result (λ part. literal_part (tree_of value.now) (expression_of index.now) ≡ Some (tree_of part.now)) }
{
    match index {
        Expression::Literal(Value::Scalar(scalar)) => own_part(value, scalar),
        _ => None,
    }
}

/// Returns the value of a name that is a text.
fn value_of<'c, R: Runtime>(name: &Scalar, runtime: &'c R) -> Option<Seen<'c>>
    ensures { IfSome result (λ seen. lookup (R.view runtime.now) (render_scalar (scal string_bytes name.now)) ≡ Some (seen_tree seen)) }
{
    match name {
        ScalarOf::Str(text) => runtime.try_get_name(text.as_str()),
        _ => None,
    }
}

/// Returns the part of a value at an index that is a scalar. The part of a borrowed value is borrowed in place, or is a
/// size.
fn part_of<'v>(alloc: Global, value: &ValueCow<'v>, index: &Value) -> Option<ValueCow<'v>>
    ensures gives { IfSome result (λ part.
        (x : Scal) × (tree_of index.now ≡ scalar x) × (step (cow_view value.now) x ≡ Some (cow_view part))) }
    ensures in_place { InPlaceOrMade value.now → IfSome result InPlaceOrMade }
{
    let Value::Scalar(scalar) = index else {
        return None;
    };
    step_into(alloc, value, &scalar.as_ref())
}

/// Returns the part of a value at an index.
fn step_into<'v>(alloc: Global, value: &ValueCow<'v>, index: &ScalarCow<'_>) -> Option<ValueCow<'v>>
    ensures gives { IfSome result (λ part. step (cow_view value.now) (index_of index.now) ≡ Some (cow_view part)) }
    ensures in_place { InPlaceOrMade value.now → IfSome result InPlaceOrMade }
{
    match value {
        ValueCow::Borrowed(value) => match step(alloc, *value, index) {
            Ok(Some(part)) => Some(part),
            _ => None,
        },
        ValueCow::Owned(value) => match step(alloc, value, index) {
            Ok(Some(ValueCow::Owned(part))) => Some(ValueCow::Owned(part)),
            _ => None,
        },
    }
}
