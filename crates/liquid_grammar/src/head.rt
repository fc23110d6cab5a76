//! How a value begins: with a literal, or with the name of a variable.
ghost use Rattle.std.specs.Prelude.{◌≡◌, ◌<◌, length, option_and_then, IfSome};
ghost use Rattle.liquid_grammar.specs.steps.Heads.{literal_in, name_in, IsHeadOf};
ghost use Rattle.liquid_grammar.specs.meaning.Meanings.{FindsLiteral};
ghost use Rattle.liquid_grammar.specs.steps.Steps as step;
ghost use Rattle.liquid_grammar.specs.steps.TokenSteps as read;

use crate::literal::{Literal, literal_word, text_or_number};
use crate::name::identifier;

/// What a value begins with: a literal, or the name of a variable.
#[derive(Clone, Copy, Debug, PartialEq, Eq)]
pub enum Head<'a> {
    Literal(Literal<'a>),
    Name(&'a str),
}

/// Returns the literal that the text begins with, and what follows it.
pub(crate) fn read_literal(s: &str) -> Option<(Literal<'_>, &str)>
    ensures value { FindsLiteral result (read.literal s.now) }
    ensures shorter { IfSome result (λ x. length x.1.now < length s.now) }
{
    match read_head(s)? {
        (Head::Literal(literal), rest) => Some((literal, rest)),
        (Head::Name(_), _) => None,
    }
}

/// Returns the literal or the name that the text begins with, and what follows it.
///
/// Its identifier is read once: no other literal begins with a byte that begins an identifier.
pub(crate) fn read_head(s: &str) -> Option<(Head<'_>, &str)>
    ensures literal { option_and_then literal_in result ≡ read.literal s.now }
    ensures name { option_and_then name_in result ≡ step.name s.now }
    ensures shorter { IfSome result (λ x. length x.1.now < length s.now) }
{
    match identifier(s) {
        Some((word, rest)) => Some((head_of_word(word), rest)),
        None => {
            let (literal, rest) = text_or_number(s)?;
            Some((Head::Literal(literal), rest))
        }
    }
}

/// Returns the literal or the name that a word at the beginning of a value is.
#[inline(always)]
pub(crate) fn head_of_word(word: &str) -> Head<'_>
    ensures { IsHeadOf word.now result }
{
    match literal_word(word) {
        Some(literal) => Head::Literal(literal),
        None => Head::Name(word),
    }
}
