//! Variables: a name, and indexes that lead from its value to a value inside it.
ghost use Rattle.std.specs.Prelude.{◌≡◌, [], ◌∷◌, map, string_bytes, IfOk};
ghost use Rattle.liquid_scalar.specs.meaning.Scalar.{scal};
ghost use Rattle.liquid_plugins.specs.meaning.Expression.{variable, no_indexes};
ghost use Rattle.liquid_plugins.specs.meaning.ExpressionOf.{expression_of, literal_of, variable_of, with_more};

use crate::expression::{Expression, Variable, VariableOf};
use liquid_scalar::Scalar;
use std::alloc::{AllocError, Global};

impl VariableOf<Expression> {
    /// Returns the variable of this name, without indexes.
    pub fn with_literal<S: Into<Scalar>>(alloc: Global, value: S) -> Variable
        ensures { (s : _) × S.converts value s × (variable_of result ≡ variable (scal string_bytes s) no_indexes) }
    {
        VariableOf {
            variable: value.into(),
            indexes: Vec::new(alloc),
        }
    }

    /// Returns the variable with one more index, a literal. If memory runs out, the variable is dropped.
    pub fn push_literal<S: Into<Scalar>>(self, value: S) -> Result<Variable, AllocError>
        ensures { IfOk result (λ v. (s : _) × S.converts value s
            × (variable_of v ≡ with_more self (literal_of (scal string_bytes s) ∷ []))) }
    {
        let mut variable = self;
        variable.indexes.push(Expression::with_literal(value))?;
        Ok(variable)
    }
}

/// Adds indexes after the others. If memory runs out, only the first of them are added.
impl Extend<Expression> for VariableOf<Expression> {
    ghost extend_gives = { λ v indexes w. variable_of w ≡ with_more v (map expression_of indexes) };

    fn extend<U: IntoIterator<Item = Expression>>(&mut self, iter: U) -> Result<(), AllocError> {
        self.indexes.extend(iter)
    }
}

/// Adds literals after the indexes. If memory runs out, only the first of them are added.
impl Extend<Scalar> for VariableOf<Expression> {
    ghost extend_gives = { λ v scalars w. variable_of w ≡ with_more v (map (λ s. literal_of (scal string_bytes s)) scalars) };

    fn extend<U: IntoIterator<Item = Scalar>>(&mut self, iter: U) -> Result<(), AllocError> {
        for scalar in iter {
            self.indexes.push(Expression::with_literal(scalar))?;
        }
        Ok(())
    }
}
