//! Calls of filters in a template: a kind and its arguments.
ghost use Rattle.std.specs.Prelude.{◌≡◌, [], ◌∷◌, map};
ghost use Rattle.liquid_error.specs.meaning.Refusal.{ok_then};
ghost use Rattle.liquid_error.specs.meaning.Told.{Gives};
ghost use Rattle.liquid_value.specs.meaning.View.{view as tree_of};
ghost use Rattle.liquid_plugins.specs.meaning.Evaluation.{evaluate};
ghost use Rattle.liquid_plugins.specs.meaning.ExpressionOf.{expression_of};
ghost use Rattle.liquid_filters.specs.meaning.Calls.{call_answer, call_of, calls};
ghost use Rattle.liquid_filters.specs.meaning.Given.{alone};

use crate::arguments::{CallArguments, evaluate_all, evaluate_named};
use crate::row::FilterKind;
use liquid_error::Error;
use liquid_plugins::{Bytes, Expression, ExpressionMark, Filter, ListOf, Meant};
use liquid_runtime::Runtime;
use liquid_value::{Value, ValueCow};
use std::alloc::Global;
use std::slice;

/// A filter in a chain, with the expressions of its arguments.
#[derive(Drop)]
pub struct FilterCall<K> {
    pub kind: K,
    pub positional: Vec<Expression>,
    pub keyword: Vec<(String, Expression)>,
}

/// Marks the shape of a call.
pub struct CallShape<K> {
    pub kind: K,
    pub positional: ListOf<ExpressionMark>,
    pub keyword: ListOf<(Bytes, ExpressionMark)>,
}

impl<K: FilterKind> Meant for FilterCall<K> {
    type Shape = CallShape<K>;

    ghost shape = { call_of };
}

impl<K: FilterKind> Filter for FilterCall<K> {
    ghost means = { calls K.sense };

    #[tactic(auto, using(crate::proofs::ArgumentSteps::call_answer_erased))]
    fn evaluate<'s, R: Runtime>(
        &'s self,
        alloc: Global,
        input: &ValueCow<'_>,
        runtime: &'s R,
    ) -> Result<Value, Error> {
        answer(self, alloc, input.as_view(), runtime)
    }

    fn label(&self) -> &str {
        self.kind.row().name
    }
}

/// Applies a call to the input. A call without keywords and with at most one argument allocates no list of arguments.
fn answer<K: FilterKind, R: Runtime>(
    call: &FilterCall<K>,
    alloc: Global,
    input: &Value,
    runtime: &R,
) -> Result<Value, Error>
    ensures { Gives tree_of result (call_answer K.sense (call_of call.now) (tree_of input.now) (R.view runtime.now)) }
{
    if !call.keyword.is_empty() {
        return answer_all(call, alloc, input, runtime);
    }
    match call.positional.as_slice() {
        [] => answer_alone(call.kind, alloc, input),
        [argument] => answer_one(call.kind, alloc, input, argument, runtime),
        _ => answer_all(call, alloc, input, runtime),
    }
}

fn answer_alone<K: FilterKind>(kind: K, alloc: Global, input: &Value) -> Result<Value, Error>
    ensures { Gives tree_of result ((K.sense kind).answers (tree_of input.now) (alone [])) }
{
    let arguments = CallArguments {
        positional: &[],
        keyword: &[],
    };
    kind.answer(alloc, input, &arguments)
}

fn answer_one<K: FilterKind, R: Runtime>(
    kind: K,
    alloc: Global,
    input: &Value,
    argument: &Expression,
    runtime: &R,
) -> Result<Value, Error>
    ensures { Gives tree_of result
        (ok_then (evaluate (R.view runtime.now) (expression_of argument.now))
        (λ t. (K.sense kind).answers (tree_of input.now) (alone (t ∷ [])))) }
{
    let value = argument.evaluate(alloc, runtime)?;
    let arguments = CallArguments {
        positional: slice::from_ref(&value),
        keyword: &[],
    };
    kind.answer(alloc, input, &arguments)
}

fn answer_all<K: FilterKind, R: Runtime>(
    call: &FilterCall<K>,
    alloc: Global,
    input: &Value,
    runtime: &R,
) -> Result<Value, Error>
    ensures { Gives tree_of result (call_answer K.sense (call_of call.now) (tree_of input.now) (R.view runtime.now)) }
{
    let positional = evaluate_all(alloc, &call.positional, runtime)?;
    let keyword = evaluate_named(alloc, &call.keyword, runtime)?;
    let arguments = CallArguments {
        positional: positional.as_slice(),
        keyword: keyword.as_slice(),
    };
    call.kind.answer(alloc, input, &arguments)
}
