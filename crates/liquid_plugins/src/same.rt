//! Strict equality of expressions.
ghost use Rattle.std.specs.Prelude.{◌≡◌};
ghost use Rattle.std.specs.Cmp.{on_equiv, on_per, partial_equiv_from_equiv};
ghost use Rattle.liquid_plugins.specs.meaning.ExpressionOf.{expression_of, expressions_of, variable_of};
ghost use Rattle.liquid_plugins.specs.meaning.Same.{same_expression, same_indexes};
ghost use Rattle.liquid_plugins.specs.laws.SameLaws.{same_expression_equiv};

use crate::expression::{Expression, Variable, VariableOf};

/// Compares strictly: equal expressions are the same literal, or the same name with the same indexes.
impl PartialEq for Expression {
    ghost eq = { λ e f. same_expression (expression_of e) (expression_of f) };

    ghost laws = { on_per expression_of (partial_equiv_from_equiv same_expression_equiv) };

    fn eq(&self, other: &Expression) -> bool {
        same_expression(self, other)
    }
}

impl Eq for Expression {
    ghost laws = { on_equiv expression_of same_expression_equiv };
}

impl PartialEq for VariableOf<Expression> {
    ghost eq = { λ v w. same_expression (variable_of v) (variable_of w) };

    ghost laws = { on_per variable_of (partial_equiv_from_equiv same_expression_equiv) };

    fn eq(&self, other: &Variable) -> bool {
        self.variable == other.variable && same_indexes(&self.indexes, &other.indexes)
    }
}

impl Eq for VariableOf<Expression> {
    ghost laws = { on_equiv variable_of same_expression_equiv };
}

#[cycle(same)]
fn same_expression(left: &Expression, right: &Expression) -> bool
    ensures { result ≡ same_expression (expression_of left.now) (expression_of right.now) }
{
    match (left, right) {
        (Expression::Literal(left), Expression::Literal(right)) => *left == *right,
        (Expression::Variable(left), Expression::Variable(right)) => {
            left.variable == right.variable && same_indexes(&left.indexes, &right.indexes)
        }
        _ => false,
    }
}

#[cycle(same)]
fn same_indexes(left: &Vec<Expression>, right: &Vec<Expression>) -> bool
    ensures { result ≡ same_indexes (expressions_of left.now.items) (expressions_of right.now.items) }
{
    if left.len() != right.len() {
        return false;
    }
    for (place, index) in left.iter().enumerate() {
        if !same_expression(index, &right[place]) {
            return false;
        }
    }
    true
}
