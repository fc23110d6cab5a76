//! The texts that expressions print.
ghost use Rattle.std.specs.Prelude.{Some, ◌++◌, codes};
ghost use Rattle.std.specs.Fmt.{WritesOnOk};
ghost use Rattle.liquid_plugins.specs.meaning.Expression.{expression_text, indexes_text};
ghost use Rattle.liquid_plugins.specs.meaning.ExpressionOf.{expression_of, expressions_of, variable_of};

use crate::expression::{Expression, VariableOf};
use liquid_value::render::ValueSource;
use std::fmt;
use std::fmt::Display;

/// Writes a literal as its source, and a variable as its name with each index in brackets.
impl fmt::Display for Expression {
    ghost output = { λ e. Some (expression_text (expression_of e)) };

    fn fmt<W: fmt::Write>(&self, f: &mut fmt::Formatter<W>) -> fmt::Result {
        write_expression(self, f)
    }
}

impl fmt::Display for VariableOf<Expression> {
    ghost output = { λ v. Some (expression_text (variable_of v)) };

    fn fmt<W: fmt::Write>(&self, f: &mut fmt::Formatter<W>) -> fmt::Result {
        self.variable.render().fmt(f)?;
        write_indexes(&self.indexes, f)
    }
}

#[cycle(text)]
pub(crate) fn write_expression<W: fmt::Write>(
    expression: &Expression,
    f: &mut fmt::Formatter<W>,
) -> fmt::Result
    ensures { WritesOnOk W.write_str_gives f.old result (expression_text (expression_of expression.now)) f.new }
{
    match expression {
        Expression::Literal(value) => ValueSource::new(value).fmt(f),
        Expression::Variable(variable) => {
            variable.variable.render().fmt(f)?;
            write_indexes(&variable.indexes, f)
        }
    }
}

#[cycle(text)]
fn write_indexes<W: fmt::Write>(indexes: &Vec<Expression>, f: &mut fmt::Formatter<W>) -> fmt::Result
    ensures { WritesOnOk W.write_str_gives f.old result (indexes_text (expressions_of indexes.now.items)) f.new }
{
    for index in indexes {
        write_index(index, f)?;
    }
    Ok(())
}

#[cycle(text)]
fn write_index<W: fmt::Write>(index: &Expression, f: &mut fmt::Formatter<W>) -> fmt::Result
    ensures { WritesOnOk W.write_str_gives f.old result (codes "[" ++ (expression_text (expression_of index.now) ++ codes "]")) f.new }
{
    f.write_str("[")?;
    write_expression(index, f)?;
    f.write_str("]")
}
