//! Expressions, built from a text that begins with one. Each part of the text is walked once.
ghost use Rattle.std.specs.Prelude.{◌≡◌, ◌≤◌, ℕ, List, None, IfOk, IfSome, MatchOption, length};
ghost use Rattle.liquid_grammar.specs.meaning.Faults.{fault_within, index_fault, indexes_fault, literal_fault};
ghost use Rattle.liquid_grammar.specs.meaning.Meanings.{literal_of};
ghost use Rattle.liquid_grammar.specs.meaning.Parts.{IsHead, IsIndex};
ghost use Rattle.liquid_grammar.specs.meaning.Rules.{Repeated};
ghost use Rattle.liquid_grammar.specs.meaning.Values.{Value as MatchedValue, ValueRule, Index, IndexRule, gather};
ghost use Rattle.liquid_scalar.specs.meaning.Scalar.{text};
ghost use Rattle.liquid_value.specs.meaning.View.{view as tree_of};
ghost use Rattle.liquid_plugins.specs.meaning.Expression.{variable};
ghost use Rattle.liquid_plugins.specs.meaning.ExpressionOf.{expression_of};
ghost use Rattle.liquid_parser.specs.steps.Built.{Builds, ClosesInside};
ghost use Rattle.liquid_parser.specs.meaning.Handed.{literal_tree, expression_meant, indexes_meant, index_meant};

use liquid_grammar::{
    BRACKET_LIMIT, Head, IndexStart, Literal, close_bracket, integer_of, next_index, value_head,
};
use liquid_plugins::Expression;
use liquid_scalar::ScalarOf;
use liquid_value::{State, Value};
use std::alloc::{AllocError, Global};

/// Builds the expression of the value that the text begins with, inside this many open brackets. Returns it and what
/// follows it.
///
/// Returns `None` if one of its literals or brackets has a fault, or if no value begins here.
#[cycle(build)]
pub(crate) fn build_value<'a>(
    alloc: Global,
    s: &'a str,
    depth: usize,
) -> Result<Option<(Expression, &'a str)>, AllocError>
    requires { depth ≤ 100 }
    ensures value { (rest : List ℕ) (v : MatchedValue) → ValueRule s.now rest v → ClosesInside depth rest
        → Builds (fault_within depth v) expression_of result (expression_meant v) rest }
    ensures within { IfOk result (λ found. IfSome found (λ p. length p.1.now ≤ length s.now)) }
{
    match value_head(s) {
        Some((head, following)) => build_from(alloc, head, following, depth),
        None => Ok(None),
    }
}

/// Reads a value whose head has been read already. The text is what follows the head.
#[cycle(build)]
pub(crate) fn build_from<'a>(
    alloc: Global,
    head: Head<'_>,
    s: &'a str,
    depth: usize,
) -> Result<Option<(Expression, &'a str)>, AllocError>
    requires { depth ≤ 100 }
    ensures value { (place rest : List ℕ) (v : MatchedValue) → IsHead place rest head.entry s.now v → ClosesInside depth rest
        → Builds (fault_within depth v) expression_of result (expression_meant v) rest }
    ensures within { IfOk result (λ found. IfSome found (λ p. length p.1.now ≤ length s.now)) }
{
    match head {
        Head::Literal(literal) => match literal_value(alloc, literal)? {
            Some(value) => Ok(Some((Expression::Literal(value), s))),
            None => Ok(None),
        },
        Head::Name(name) => build_variable(alloc, name, s, depth),
    }
}

/// Builds the variable of this name, with the indexes that the text begins with.
#[cycle(build)]
pub(crate) fn build_variable<'a>(
    alloc: Global,
    name: &str,
    s: &'a str,
    depth: usize,
) -> Result<Option<(Expression, &'a str)>, AllocError>
    requires { depth ≤ 100 }
    ensures value { (rest : List ℕ) (is : List Index) → Repeated IndexRule s.now rest is → ClosesInside depth rest
        → Builds (indexes_fault depth (gather is)) expression_of result (variable (text name.now) (indexes_meant (gather is))) rest }
    ensures within { IfOk result (λ found. IfSome found (λ p. length p.1.now ≤ length s.now)) }
{
    let mut indexes = Vec::new(alloc);
    let mut rest = s;
    'indexes: while let Some((start, after)) = next_index(rest, depth) {
        match build_index(alloc, start, after, depth)? {
            Some((index, following)) => {
                indexes.push(index)?;
                rest = following;
            }
            None => return Ok(None),
        }
    }
    let name = ScalarOf::Str(String::from_str(alloc, name)?);
    Ok(Some((Expression::of_parts(name, indexes), rest)))
}

/// Builds the index with this beginning, where the text follows that beginning.
#[cycle(build)]
fn build_index<'a>(
    alloc: Global,
    start: IndexStart<'_>,
    s: &'a str,
    depth: usize,
) -> Result<Option<(Expression, &'a str)>, AllocError>
    requires { depth ≤ 100 }
    ensures value { (place rest : List ℕ) (i : Index) → IsIndex place start.entry s.now rest i
        → Builds (index_fault depth i) expression_of result (index_meant i) rest }
    ensures within { IfOk result (λ found. IfSome found (λ p. length p.1.now ≤ length s.now)) }
{
    match start {
        IndexStart::Named(name) => {
            let name = Value::Scalar(ScalarOf::Str(String::from_str(alloc, name)?));
            Ok(Some((Expression::Literal(name), s)))
        }
        IndexStart::Bracket => {
            if depth >= BRACKET_LIMIT {
                return Ok(None);
            }
            match build_value(alloc, s, depth + 1)? {
                Some((value, following)) => match close_bracket(following) {
                    Some(rest) => Ok(Some((value, rest))),
                    None => Ok(None),
                },
                None => Ok(None),
            }
        }
    }
}

/// Returns the value of a literal, or `None` if it has a fault.
#[inline(always)]
pub(crate) fn literal_value(
    alloc: Global,
    literal: Literal<'_>,
) -> Result<Option<Value>, AllocError>
    ensures { (place : List ℕ) → IfOk result (λ found. MatchOption found (¬ (literal_fault place (literal_of literal.entry) ≡ None))
        (λ v. (literal_fault place (literal_of literal.entry) ≡ None) × (tree_of v ≡ literal_tree (literal_of literal.entry)))) }
{
    match literal {
        Literal::Nil => Ok(Some(Value::Nil)),
        Literal::Empty => Ok(Some(Value::State(State::Empty))),
        Literal::Blank => Ok(Some(Value::State(State::Blank))),
        Literal::Truth(truth) => Ok(Some(Value::Scalar(ScalarOf::Bool(truth)))),
        Literal::Text(text) => {
            let text = ScalarOf::Str(String::from_str(alloc, text)?);
            Ok(Some(Value::Scalar(text)))
        }
        Literal::Integer(digits) => match integer_of(digits) {
            Some(number) => Ok(Some(Value::Scalar(ScalarOf::Integer(number)))),
            None => Ok(None),
        },
        Literal::Decimal(_) => Ok(None),
    }
}
