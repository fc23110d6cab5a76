//! Kinds of token.
ghost use Rattle.std.specs.Prelude.{◌≡◌, option_map, MatchOption};
ghost use Rattle.liquid_grammar.specs.meaning.Rules.{Begins};
ghost use Rattle.liquid_grammar.specs.meaning.Tokens.{ChainRule, TokenRule};
ghost use Rattle.liquid_grammar.specs.meaning.Kinds.{identifier_of};
ghost use Rattle.liquid_grammar.specs.meaning.KindMeanings.{token_kind_of, HasKind, HasChainKind, FindsKind};
ghost use Rattle.liquid_grammar.specs.steps.TokenSteps as read;

use crate::filter::chain_and_kind;
use crate::literal::Literal;
use crate::token::{range, symbol};

/// What a token is. A chain without filters is its value, and a variable without indexes an identifier.
#[derive(Clone, Copy, Debug, PartialEq, Eq)]
pub enum TokenKind<'a> {
    Range,
    Symbol,
    /// A value with filters.
    Filtered,
    Literal(Literal<'a>),
    /// A variable with indexes.
    Variable,
    Identifier(&'a str),
}

impl<'a> TokenKind<'a> {
    /// Returns the identifier, if the token is one.
    pub fn identifier(self) -> Option<&'a str>
        ensures { option_map (λ name. name.now) result ≡ identifier_of (token_kind_of self.entry) }
    {
        match self {
            TokenKind::Identifier(name) => Some(name),
            TokenKind::Range
            | TokenKind::Symbol
            | TokenKind::Filtered
            | TokenKind::Literal(_)
            | TokenKind::Variable => None,
        }
    }
}

/// Returns the kind of the token that the text begins with.
pub fn token_kind(s: &str) -> Option<TokenKind<'_>>
    ensures { MatchOption result (¬ (Begins TokenRule s.now)) (HasKind s.now) }
{
    match range(s) {
        Some(_) => Some(TokenKind::Range),
        None => match kind_of_chain(s) {
            Some(kind) => Some(kind),
            None => match symbol(s) {
                Some(_) => Some(TokenKind::Symbol),
                None => None,
            },
        },
    }
}

/// Returns the kind of the chain that the text begins with: filtered, a literal, a variable or an identifier.
pub fn chain_kind(s: &str) -> Option<TokenKind<'_>>
    ensures { MatchOption result (¬ (Begins ChainRule s.now)) (HasChainKind s.now) }
{
    kind_of_chain(s)
}

fn kind_of_chain(s: &str) -> Option<TokenKind<'_>>
    ensures { FindsKind result (read.chain_of s.now) }
{
    let (kind, _, _) = chain_and_kind(s)?;
    Some(kind)
}
