//! Expressions and chains, and the markers of their shapes.
ghost use Rattle.std.specs.Prelude.{◌≡◌, map, string_bytes, option_map};
ghost use Rattle.liquid_scalar.specs.meaning.Scalar.{scal};
ghost use Rattle.liquid_value.specs.meaning.Tree.{scalar};
ghost use Rattle.liquid_value.specs.meaning.View.{view as tree_of};
ghost use Rattle.liquid_plugins.specs.meaning.Expression.{literal, variable, as_literal, as_variable};
ghost use Rattle.liquid_plugins.specs.meaning.ExpressionOf.{expression_of, expressions_of, variable_of, chain_of};

use crate::filter::Filter;
use crate::meant::Meant;
use liquid_scalar::Scalar;
use liquid_value::Value;
use std::marker::{Model, PhantomData};

/// A name and its indexes, for any type of index.
#[derive(Drop)]
pub struct VariableOf<E> {
    pub variable: Scalar,
    pub indexes: Vec<E>,
}

/// A variable or a literal.
#[derive(Drop)]
pub enum Expression {
    Variable(VariableOf<Expression>),
    Literal(Value),
}

/// A name and its indexes, which are expressions.
pub type Variable = VariableOf<Expression>;

/// The shape of an expression.
pub struct ExpressionMark;

impl Model for ExpressionMark {
    ghost use Rattle.liquid_plugins.specs.meaning.Expression.{ExpressionShape, literal};
    ghost use Rattle.liquid_plugins.specs.steps.Codes.{expression_code};
    ghost use Rattle.liquid_value.specs.meaning.Tree.{nil};

    ghost Value = { ExpressionShape };

    ghost coded = { expression_code };

    ghost view = { λ _. literal nil };
}

/// The shape of a chain over filters of shape `S`.
pub struct ChainMark<S> {
    of: PhantomData<S>,
}

impl<S> Model for ChainMark<S> {
    ghost use Rattle.std.specs.Prelude.{[]};
    ghost use Rattle.liquid_plugins.specs.meaning.Expression.{literal};
    ghost use Rattle.liquid_plugins.specs.meaning.Chain.{ChainShape};
    ghost use Rattle.liquid_plugins.specs.steps.Codes.{chain_code};
    ghost use Rattle.liquid_value.specs.meaning.Tree.{nil};

    ghost Value = { ChainShape S };

    ghost coded = { chain_code S.code };

    ghost view = { λ _. record { entry = literal nil; filters = [] } };
}

impl Meant for Expression {
    type Shape = ExpressionMark;

    ghost shape = { expression_of };
}

impl Expression {
    /// Returns a literal scalar.
    pub fn with_literal<S: Into<Scalar>>(value: S) -> Expression
        ensures { (s : _) × S.converts value s × (expression_of result ≡ literal (scalar (scal string_bytes s))) }
    {
        Expression::Literal(Value::Scalar(value.into()))
    }

    /// Returns the variable of a name and indexes.
    pub fn of_parts(name: Scalar, indexes: Vec<Expression>) -> Expression
        ensures { expression_of result ≡ variable (scal string_bytes name) (expressions_of indexes.items) }
    {
        Expression::Variable(VariableOf {
            variable: name,
            indexes,
        })
    }

    /// Returns the value of a literal.
    pub fn into_literal(self) -> Option<Value>
        ensures { option_map tree_of result ≡ as_literal (expression_of self) }
    {
        match self {
            Expression::Literal(value) => Some(value),
            Expression::Variable(_) => None,
        }
    }

    /// Returns the variable.
    pub fn into_variable(self) -> Option<Variable>
        ensures { option_map variable_of result ≡ as_variable (expression_of self) }
    {
        match self {
            Expression::Literal(_) => None,
            Expression::Variable(variable) => Some(variable),
        }
    }
}

/// An expression and the filters that its value goes through.
#[derive(Drop)]
pub struct FilterChain<X> {
    pub entry: Expression,
    pub filters: Vec<X>,
}

impl<X: Filter> Meant for FilterChain<X> {
    type Shape = ChainMark<X::Shape>;

    ghost shape = { chain_of X.shape };
}
