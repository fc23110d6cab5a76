//! The arguments of a filter, evaluated.
ghost use Rattle.std.specs.Prelude.{◌≡◌, map, option_map, string_bytes};
ghost use Rattle.liquid_error.specs.meaning.Told.{Gives};
ghost use Rattle.liquid_value.specs.meaning.Cow.{cow_view};
ghost use Rattle.liquid_value.specs.meaning.View.{view as tree_of};
ghost use Rattle.liquid_plugins.specs.meaning.ExpressionOf.{expression_of};
ghost use Rattle.liquid_filters.specs.meaning.Calls.{evaluate_all, evaluate_named, keyword_of, named_expression, named_tree};
ghost use Rattle.liquid_filters.specs.meaning.Given.{given};

use liquid_error::Error;
use liquid_plugins::Expression;
use liquid_runtime::Runtime;
use liquid_value::{Value, ValueCow};
use std::alloc::Global;

/// The values of a filter's arguments: the positional ones and those with a keyword.
#[derive(Clone, Copy)]
pub struct CallArguments<'c> {
    pub positional: &'c [ValueCow<'c>],
    pub keyword: &'c [(&'c str, ValueCow<'c>)],
}

impl<'c> CallArguments<'c> {
    /// Returns the value that this keyword has, if it is given.
    pub fn keyword(&self, name: &str) -> Option<&Value>
        ensures { option_map (λ v. tree_of v.now) result ≡ keyword_of name.now (given self.now).keyword }
    {
        find_keyword(self.keyword, name)
    }
}

fn find_keyword<'v>(given: &'v [(&str, ValueCow<'_>)], name: &str) -> Option<&'v Value>
    ensures { option_map (λ v. tree_of v.now) result ≡ keyword_of name.now (map named_tree given.now) }
{
    match given {
        [] => None,
        [(keyword, value), rest @ ..] => if *keyword == name {
            Some(value.as_view())
        } else {
            find_keyword(rest, name)
        },
    }
}

/// Evaluates the expressions from left to right. Returns their values, or the first error.
pub(crate) fn evaluate_all<'c, R: Runtime>(
    alloc: Global,
    expressions: &'c Vec<Expression>,
    runtime: &'c R,
) -> Result<Vec<ValueCow<'c>>, Error>
    ensures { Gives (λ v. map cow_view v.items) result (evaluate_all (R.view runtime.now) (map expression_of expressions.now.items)) }
{
    let mut values = Vec::with_capacity(alloc, expressions.len())?;
    for expression in expressions {
        values.push(expression.evaluate(alloc, runtime)?)?;
    }
    Ok(values)
}

/// Evaluates the expressions from left to right. Returns their values, each with its keyword, or the first error.
pub(crate) fn evaluate_named<'c, R: Runtime>(
    alloc: Global,
    expressions: &'c Vec<(String, Expression)>,
    runtime: &'c R,
) -> Result<Vec<(&'c str, ValueCow<'c>)>, Error>
    ensures { Gives (λ v. map named_tree v.items) result
        (evaluate_named (R.view runtime.now) (map named_expression expressions.now.items)) }
{
    let mut values = Vec::with_capacity(alloc, expressions.len())?;
    for (keyword, expression) in expressions {
        let value = expression.evaluate(alloc, runtime)?;
        values.push((keyword.as_str(), value))?;
    }
    Ok(values)
}
