//! The filters with a condition.
ghost use Rattle.std.specs.Prelude.{◌≡◌};
ghost use Rattle.liquid_error.specs.meaning.Told.{Gives};
ghost use Rattle.liquid_value.specs.meaning.View.{view as tree_of};
ghost use Rattle.liquid_runtime.specs.meaning.Erased.{erase};
ghost use Rattle.liquid_plugins.specs.meaning.ExpressionOf.{expression_of};
ghost use Rattle.jekyll_language.specs.meaning.expressions.Kinds as Spec;

use crate::expressions::items::choose_items;
use crate::expressions::reading::{read_text, text_literal};
use liquid_error::Error;
use liquid_filters::value::errors::unexpected_arguments_error;
use liquid_jekyll::list::own_items;
use liquid_plugins::{
    Bytes, Expression, Filter, FilterArguments, FilterReflection, Meant, ParameterReflection,
    ParseFilter,
};
use liquid_runtime::Runtime;
use liquid_std::conditions::Condition;
use liquid_std::conditions::condition::ConditionShape;
use liquid_value::{Value, ValueCow};
use std::alloc::Global;

/// A filter of Jekyll with a condition, which is read while the page is read.
///
/// It has two arguments, both text literals: the name of an item in the condition, and the condition.
#[derive(Debug, Clone, Copy, PartialEq, Eq, Drop)]
pub enum ExpressionKind {
    /// The items for which the condition holds.
    WhereExp,
    /// The first of them.
    FindExp,
}

/// A filter with the name of an item and the condition.
#[derive(Drop)]
pub struct ExpressionCall {
    pub kind: ExpressionKind,
    pub name: String,
    pub condition: Condition,
}

/// Marks the shape of such a filter.
pub struct ExpressionCallShape {
    pub kind: ExpressionKind,
    pub name: Bytes,
    pub condition: ConditionShape,
}

static NO_KEYWORDS: [ParameterReflection; 0] = [];

static ITEM_AND_CONDITION: [ParameterReflection; 2] = [
    ParameterReflection {
        name: "item",
        description: "The name of an item in the condition, as a string literal.",
        is_optional: false,
    },
    ParameterReflection {
        name: "condition",
        description: "The condition, as a string literal.",
        is_optional: false,
    },
];

impl FilterReflection for ExpressionKind {
    ghost filter_name = { Spec.kind_name };

    fn name(&self) -> &str {
        kind_name(*self)
    }

    fn description(&self) -> &str {
        match self {
            ExpressionKind::WhereExp => "Keeps the items for which a condition holds.",
            ExpressionKind::FindExp => "Returns the first item for which a condition holds.",
        }
    }

    fn positional_parameters(&self) -> &'static [ParameterReflection] {
        &ITEM_AND_CONDITION
    }

    fn keyword_parameters(&self) -> &'static [ParameterReflection] {
        &NO_KEYWORDS
    }
}

fn kind_name(kind: ExpressionKind) -> &'static str
    ensures { result.now ≡ Spec.kind_name kind }
{
    match kind {
        ExpressionKind::WhereExp => "where_exp",
        ExpressionKind::FindExp => "find_exp",
    }
}

impl ParseFilter for ExpressionKind {
    type Filter = ExpressionCall;

    ghost makes = { Spec.call_made };

    fn parse(
        &self,
        alloc: Global,
        arguments: FilterArguments<'_>,
    ) -> Result<ExpressionCall, Error> {
        match (
            arguments.positional.as_slice(),
            arguments.keyword.as_slice(),
        ) {
            ([item, condition], []) => read_call(alloc, *self, item, condition),
            _ => Err(unexpected_arguments_error(alloc)),
        }
    }
}

fn read_call(
    alloc: Global,
    kind: ExpressionKind,
    item: &Expression,
    condition: &Expression,
) -> Result<ExpressionCall, Error>
    ensures { Gives Spec.call_of result (Spec.call_read kind (expression_of item.now) (expression_of condition.now)) }
{
    let name = text_literal(alloc, item)?;
    let text = text_literal(alloc, condition)?;
    let condition = read_text(alloc, text)?;
    Ok(ExpressionCall {
        kind,
        name: String::from_str(alloc, name)?,
        condition,
    })
}

impl Meant for ExpressionCall {
    type Shape = ExpressionCallShape;

    ghost shape = { Spec.call_of };
}

impl Filter for ExpressionCall {
    ghost means = { Spec.calls };

    fn evaluate<'s, R: Runtime>(
        &'s self,
        alloc: Global,
        input: &ValueCow<'_>,
        runtime: &'s R,
    ) -> Result<Value, Error> {
        answer(alloc, self, input.as_view(), runtime)
    }

    fn label(&self) -> &str {
        kind_name(self.kind)
    }
}

/// Returns what a filter chooses of the items of an array, or of the values of an object. Any other input is kept.
fn answer<R: Runtime>(
    alloc: Global,
    call: &ExpressionCall,
    input: &Value,
    runtime: &R,
) -> Result<Value, Error>
    ensures { Gives tree_of result (Spec.answer (Spec.call_of call.now) (tree_of input.now) (erase (R.view runtime.now))) }
{
    match own_items(alloc, input)? {
        Some(items) => choose_items(alloc, call, items.as_slice(), runtime),
        None => Ok(input.clone()?),
    }
}
