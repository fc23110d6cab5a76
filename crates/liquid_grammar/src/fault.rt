//! Faults of literals and brackets, and the number of an integer literal.
ghost use Rattle.std.specs.Prelude.{◌≡◌};
ghost use Rattle.liquid_grammar.specs.meaning.Faults as spec;
ghost use Rattle.liquid_grammar.specs.meaning.Meanings.{literal_of, faults_of};

use crate::literal::Literal;

/// What is wrong with a literal or a bracket of a matched text.
#[derive(Clone, Copy, Debug, PartialEq, Eq)]
pub enum FaultKind {
    /// An integer of more than 64 bits with its sign.
    IntegerOutOfRange,
    /// A number with a fraction.
    DecimalNotSupported,
    /// A bracket inside a hundred open ones.
    NestedTooDeep,
}

/// A fault, and the text from the place where its literal or bracket begins.
#[derive(Clone, Copy, Debug, PartialEq, Eq)]
pub struct Fault<'a> {
    pub kind: FaultKind,
    pub place: &'a str,
}

/// Returns the number that a sign and digits write. Returns `None` for any other text, and for a number that does not
/// fit an `i64`.
#[inline]
pub fn integer_of(text: &str) -> Option<i64>
    ensures { result ≡ spec.integer_of text.now }
{
    text.parse::<i64>().ok()
}

/// Returns the fault of a literal at this place, if it has one.
#[inline(always)]
pub(crate) fn literal_fault<'a>(place: &'a str, literal: Literal) -> Option<Fault<'a>>
    ensures { faults_of result ≡ spec.literal_fault place.now (literal_of literal.entry) }
{
    match literal {
        Literal::Integer(text) => match integer_of(text) {
            Some(_) => None,
            None => Some(Fault {
                kind: FaultKind::IntegerOutOfRange,
                place,
            }),
        },
        Literal::Decimal(_) => Some(Fault {
            kind: FaultKind::DecimalNotSupported,
            place,
        }),
        _ => None,
    }
}
