//! Clones of expressions.
ghost use Rattle.std.specs.Prelude.{◌≡◌, IfOk};
ghost use Rattle.liquid_plugins.specs.meaning.ExpressionOf.{expression_of, expressions_of, variable_of};

use crate::expression::{Expression, Variable, VariableOf};
use std::alloc::AllocError;

impl Clone for Expression {
    ghost is_clone = { λ e copy. expression_of copy ≡ expression_of e };

    fn clone(&self) -> Result<Expression, AllocError> {
        copy_expression(self)
    }
}

impl Clone for VariableOf<Expression> {
    ghost is_clone = { λ v copy. variable_of copy ≡ variable_of v };

    fn clone(&self) -> Result<Variable, AllocError> {
        let name = self.variable.clone()?;
        let indexes = copy_indexes(&self.indexes)?;
        Ok(VariableOf {
            variable: name,
            indexes,
        })
    }
}

#[cycle(copy)]
fn copy_expression(expression: &Expression) -> Result<Expression, AllocError>
    ensures { IfOk result (λ copy. expression_of copy ≡ expression_of expression.now) }
{
    match expression {
        Expression::Literal(value) => Ok(Expression::Literal(value.clone()?)),
        Expression::Variable(variable) => {
            let name = variable.variable.clone()?;
            let indexes = copy_indexes(&variable.indexes)?;
            Ok(Expression::of_parts(name, indexes))
        }
    }
}

#[cycle(copy)]
fn copy_indexes(indexes: &Vec<Expression>) -> Result<Vec<Expression>, AllocError>
    ensures { IfOk result (λ copies. expressions_of copies.items ≡ expressions_of indexes.now.items) }
{
    let mut copies = Vec::with_capacity(*indexes.allocator(), indexes.len())?;
    for index in indexes {
        copies.push(copy_expression(index)?)?;
    }
    Ok(copies)
}
