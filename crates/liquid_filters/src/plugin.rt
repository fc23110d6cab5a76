//! Kinds of filters as plug-ins, which make calls from arguments.
ghost use Rattle.std.specs.Prelude.{◌≡◌, IfOk, length, map};
ghost use Rattle.liquid_filters.specs.meaning.Calls.{
  accepts,
  call_made,
  is_among,
  is_given,
  named_expression,
  required,
  takes,
  takes_keywords,
};
ghost use Rattle.liquid_plugins.specs.meaning.ArgumentsOf.{arguments_of};
ghost use Rattle.liquid_plugins.specs.meaning.ExpressionOf.{expression_of};

use crate::call::FilterCall;
use crate::row::FilterKind;
use crate::value::errors::unexpected_arguments_error;
use liquid_error::Error;
use liquid_plugins::{
    Expression, FilterArguments, FilterReflection, ParameterReflection, ParseFilter,
};
use std::alloc::{AllocError, Global};

/// A kind of filter as a plug-in.
#[derive(Debug, Clone, Copy, Drop)]
pub struct FilterPlugin<K> {
    pub kind: K,
}

impl<K: FilterKind> FilterReflection for FilterPlugin<K> {
    ghost filter_name = { λ plugin. (K.sense plugin.kind).name };

    fn name(&self) -> &str {
        self.kind.row().name
    }

    fn description(&self) -> &str {
        self.kind.row().description
    }

    fn positional_parameters(&self) -> &'static [ParameterReflection]
        ensures { map (λ p. p.is_optional) result.now ≡ (K.sense self.now.kind).optional }
    {
        self.kind.row().parameters
    }

    fn keyword_parameters(&self) -> &'static [ParameterReflection]
        ensures { map (λ p. p.name.now) result.now ≡ (K.sense self.now.kind).keywords }
    {
        self.kind.row().keywords
    }
}

impl<K: FilterKind> ParseFilter for FilterPlugin<K> {
    type Filter = FilterCall<K>;

    ghost makes = { λ plugin arguments. call_made K.sense plugin.kind arguments };

    fn parse(&self, alloc: Global, arguments: FilterArguments<'_>) -> Result<FilterCall<K>, Error> {
        if accepts(&self.kind, &arguments) {
            Ok(FilterCall {
                kind: self.kind,
                positional: arguments.positional,
                keyword: copy_keywords(alloc, arguments.keyword)?,
            })
        } else {
            Err(unexpected_arguments_error(alloc))
        }
    }
}

/// Returns `true` if the filter takes these arguments.
fn accepts<K: FilterKind>(kind: &K, arguments: &FilterArguments<'_>) -> bool
    ensures { result ≡ accepts (K.sense kind.now) (arguments_of arguments.now) }
{
    let row = kind.row();
    takes(row.parameters, argument_count(&arguments.positional))
        && takes_keywords(row.keywords, arguments.keyword.as_slice())
}

fn argument_count(arguments: &Vec<Expression>) -> usize
    ensures { result ≡ length (map expression_of arguments.now.items) }
{
    arguments.len()
}

/// Returns `true` if a filter with these parameters takes that many positional arguments.
fn takes(parameters: &[ParameterReflection], count: usize) -> bool
    ensures { result ≡ takes (map (λ p. p.is_optional) parameters.now) count }
{
    count_required(parameters) <= count && count <= parameters.len()
}

/// Returns the number of parameters that are not optional.
fn count_required(parameters: &[ParameterReflection]) -> usize
    ensures { result ≡ required (map (λ p. p.is_optional) parameters.now) }
{
    let mut count = 0;
    for parameter in parameters {
        if !parameter.is_optional {
            count += 1;
        }
    }
    count
}

/// Returns `true` if each argument has one of the keywords, and no two have the same.
fn takes_keywords(keywords: &[ParameterReflection], given: &[(&str, Expression)]) -> bool
    ensures { result ≡ takes_keywords (map (λ p. p.name.now) keywords.now) (map (λ k. (k.0.now, expression_of k.1)) given.now) }
{
    match given {
        [] => true,
        [(name, _), rest @ ..] => {
            is_keyword(keywords, *name) && !is_given(rest, *name) && takes_keywords(keywords, rest)
        }
    }
}

fn is_keyword(keywords: &[ParameterReflection], name: &str) -> bool
    ensures { result ≡ is_among name.now (map (λ p. p.name.now) keywords.now) }
{
    for keyword in keywords {
        if name == keyword.name {
            return true;
        }
    }
    false
}

fn is_given(given: &[(&str, Expression)], name: &str) -> bool
    ensures { result ≡ is_given name.now (map (λ k. (k.0.now, expression_of k.1)) given.now) }
{
    for (keyword, _) in given {
        if name == *keyword {
            return true;
        }
    }
    false
}

/// Returns the arguments with owned names.
fn copy_keywords(
    alloc: Global,
    given: Vec<(&str, Expression)>,
) -> Result<Vec<(String, Expression)>, AllocError>
    ensures { IfOk result (λ v. map named_expression v.items ≡ map (λ k. (k.0.now, expression_of k.1)) given.entry.items) }
{
    let mut owned = Vec::with_capacity(alloc, given.len())?;
    for (name, expression) in given {
        owned.push((String::from_str(alloc, name)?, expression))?;
    }
    Ok(owned)
}
