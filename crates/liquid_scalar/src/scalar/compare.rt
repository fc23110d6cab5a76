//! Loose comparison, strict equality and the hash of scalars.
ghost use Rattle.std.specs.Prelude.{◌≡◌};
ghost use Rattle.std.specs.Cmp.{on_equiv, on_per, partial_equiv_from_equiv};
ghost use Rattle.liquid_scalar.specs.meaning.Scalar.{scal};
ghost use Rattle.liquid_scalar.specs.meaning.ScalarCompare.{scalar_eq, scalar_cmp, same_scalar, scalar_hash};
ghost use Rattle.liquid_scalar.specs.steps.ScalarLawProofs.{same_scalar_equiv, hash_agrees};

use super::ScalarOf;
use std::cmp::Ordering;
use std::convert::AsStr;
use std::hash::{Hash, Hasher};

impl<T: AsStr> ScalarOf<T> {
    /// Compares two scalars loosely for equality.
    ///
    /// Scalars of one kind are compared by value, and date times by their instant. A date equals a date time whose own
    /// date it is. A boolean and a scalar of another kind are equal if the boolean is true. Other scalars are
    /// unequal.
    pub fn scalar_eq<U: AsStr>(&self, other: &ScalarOf<U>) -> bool
        ensures { result ≡ scalar_eq (scal T.text self.now) (scal U.text other.now) }
    {
        match (self, other) {
            (ScalarOf::Integer(left), ScalarOf::Integer(right)) => *left == *right,
            (ScalarOf::Bool(left), ScalarOf::Bool(right)) => *left == *right,
            (ScalarOf::Str(left), ScalarOf::Str(right)) => left.as_str() == right.as_str(),
            (ScalarOf::Date(left), ScalarOf::Date(right)) => *left == *right,
            (ScalarOf::DateTime(left), ScalarOf::DateTime(right)) => *left == *right,
            (ScalarOf::Date(left), ScalarOf::DateTime(right)) => *left == right.date(),
            (ScalarOf::DateTime(left), ScalarOf::Date(right)) => left.date() == *right,
            (ScalarOf::Bool(truth), _) => *truth,
            (_, ScalarOf::Bool(truth)) => *truth,
            _ => false,
        }
    }

    /// Compares two scalars loosely for order.
    ///
    /// Scalars of one kind are compared by their order: false is below true, texts are compared by bytes, and date
    /// times by their instant. A date is compared with a date time as if it were that date time, moved to the date.
    /// Other scalars have no order.
    #[tactic(auto, using(crate::specs::steps::ScalarLawProofs::moved_before, crate::specs::steps::ScalarLawProofs::moved_after))]
    pub fn scalar_cmp<U: AsStr>(&self, other: &ScalarOf<U>) -> Option<Ordering>
        ensures { result ≡ scalar_cmp (scal T.text self.now) (scal U.text other.now) }
    {
        match (self, other) {
            (ScalarOf::Integer(left), ScalarOf::Integer(right)) => Some(left.cmp(right)),
            (ScalarOf::Bool(left), ScalarOf::Bool(right)) => Some(left.cmp(right)),
            (ScalarOf::Str(left), ScalarOf::Str(right)) => Some(left.as_str().cmp(right.as_str())),
            (ScalarOf::Date(left), ScalarOf::Date(right)) => Some(left.cmp(right)),
            (ScalarOf::DateTime(left), ScalarOf::DateTime(right)) => Some(left.cmp(right)),
            (ScalarOf::Date(left), ScalarOf::DateTime(right)) => Some(left.cmp(&right.date())),
            (ScalarOf::DateTime(left), ScalarOf::Date(right)) => Some(left.date().cmp(right)),
            _ => None,
        }
    }
}

/// Compares strictly: equal scalars have the same kind and the same content.
impl<T: AsStr> PartialEq for ScalarOf<T> {
    ghost eq = { λ x y. same_scalar (scal T.text x) (scal T.text y) };

    ghost laws = { on_per (scal T.text) (partial_equiv_from_equiv same_scalar_equiv) };

    fn eq(&self, other: &Self) -> bool {
        match (self, other) {
            (ScalarOf::Integer(mine), ScalarOf::Integer(theirs)) => *mine == *theirs,
            (ScalarOf::Bool(mine), ScalarOf::Bool(theirs)) => *mine == *theirs,
            (ScalarOf::Str(mine), ScalarOf::Str(theirs)) => mine.as_str() == theirs.as_str(),
            (ScalarOf::Date(mine), ScalarOf::Date(theirs)) => *mine == *theirs,
            (ScalarOf::DateTime(mine), ScalarOf::DateTime(theirs)) => *mine == *theirs,
            (_, _) => false,
        }
    }
}

impl<T: AsStr> Eq for ScalarOf<T> {
    ghost laws = { on_equiv (scal T.text) same_scalar_equiv };
}

impl<T: AsStr> Hash for ScalarOf<T> {
    ghost hash_input = { λ x. scalar_hash (scal T.text x) };

    ghost respects_eq = { λ x y same. hash_agrees (scal T.text x) (scal T.text y) same };

    fn hash<H: Hasher>(&self, state: &mut H) {
        match self {
            ScalarOf::Integer(number) => {
                state.write_u8(0);
                number.hash(state);
            }
            ScalarOf::Bool(truth) => {
                state.write_u8(1);
                truth.hash(state);
            }
            ScalarOf::Str(text) => {
                state.write_u8(2);
                text.as_str().hash(state);
            }
            ScalarOf::Date(date) => {
                state.write_u8(3);
                date.hash(state);
            }
            ScalarOf::DateTime(date_time) => {
                state.write_u8(4);
                date_time.hash(state);
            }
        }
    }
}
