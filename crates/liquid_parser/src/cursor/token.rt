//! A token of a tag, and attempts to read it.
ghost use Rattle.std.specs.Prelude.{◌≡◌, [], IfSome, None, Some, IfOk, MatchOption, ok_or};
ghost use Rattle.liquid_error.specs.meaning.Told.{told, Gives};
ghost use Rattle.liquid_parser.specs.meaning.Cursors.{IsToken, IsValue, Tries, expect_str, expect_filter_chain, FailedToken, matched_of};
ghost use Rattle.liquid_parser.specs.meaning.Handed.{Token, chain, token_error, unexpected, or_unexpected};
ghost use Rattle.liquid_parser.specs.meaning.Handed.{expect_identifier, expect_literal, expect_range, expect_value, expect_variable};
ghost use Rattle.liquid_grammar.specs.meaning.KindMeanings.{token_kind_of};
ghost use Rattle.liquid_value.specs.meaning.View.{view as tree_of};
ghost use Rattle.liquid_plugins.specs.meaning.ExpressionOf.{expression_of, variable_of, chain_of};
ghost use Rattle.liquid_parser.specs.meaning.Plugins.{registry_of};

use crate::chain::build::{build_value, literal_value};
use crate::chain::filters::parse_chain;
use crate::reading::place::error_at;
use liquid_error::Error;
use liquid_grammar::{TokenKind, TokenParts, TokenText};
use liquid_plugins::{Expression, FilterChain, ParseFilter, PluginRegistry, Variable};
use liquid_scalar::ScalarOf;
use liquid_value::Value;
use std::alloc::{AllocError, Global};

/// A token of a tag. It borrows the source.
#[derive(Clone, Copy)]
pub struct TagToken<'a> {
    pub(crate) source: &'a str,
    pub(crate) text: TokenText<'a>,
}

/// The result of an attempt to read a token as an `A`.
#[derive(Drop)]
pub enum TryMatchToken<'a, A> {
    /// The token is one.
    Matches(A),
    /// The token is not one. It is returned.
    Fails(TagToken<'a>),
}

impl<'a> TagToken<'a> {
    /// Returns the text of the token.
    pub fn as_str(&self) -> &'a str
        ensures { (t : Token) → IsToken self.now t → result.now ≡ t.text }
    {
        self.text.text
    }

    /// Returns the error `Unexpected token`, at the token.
    pub fn raise_error(self, alloc: Global) -> Error
        ensures { (t : Token) → IsToken self.entry t → IfSome (told result) (λ r. r ≡ unexpected t) }
    {
        self.raise_custom_error(alloc, "Unexpected token")
    }

    /// Returns an error with this message, at the token.
    pub fn raise_custom_error(self, alloc: Global, message: &str) -> Error
        ensures { (t : Token) → IsToken self.entry t → IfSome (told result) (λ r. r ≡ token_error message.now t) }
    {
        error_at(alloc, self.source, message, self.text.place)
    }

    /// Reads the name of a variable without indexes and filters.
    pub fn expect_identifier(self) -> TryMatchToken<'a, &'a str>
        ensures { (t : Token) → IsToken self.entry t → Tries (λ name. name.now) self.entry result (expect_identifier t) }
    {
        match self.value_kind() {
            Some(kind) => match kind.identifier() {
                Some(name) => TryMatchToken::Matches(name),
                None => TryMatchToken::Fails(self),
            },
            None => TryMatchToken::Fails(self),
        }
    }

    /// Checks that the token has this text, whatever it is.
    pub fn expect_str(self, expected: &str) -> TryMatchToken<'a, ()>
        ensures { (t : Token) → IsToken self.entry t → Tries (λ u. u) self.entry result (expect_str expected.now t) }
    {
        if self.as_str() == expected {
            TryMatchToken::Matches(())
        } else {
            TryMatchToken::Fails(self)
        }
    }

    /// Reads the value of a literal without filters.
    pub fn expect_literal(self, alloc: Global) -> Result<TryMatchToken<'a, Value>, AllocError>
        ensures { (t : Token) → IsToken self.entry t → IfOk result (λ m. Tries tree_of self.entry m (expect_literal t)) }
    {
        match self.value_kind() {
            Some(TokenKind::Literal(literal)) => match literal_value(alloc, literal)? {
                Some(value) => Ok(TryMatchToken::Matches(value)),
                None => Ok(TryMatchToken::Fails(self)),
            },
            Some(
                TokenKind::Range
                | TokenKind::Symbol
                | TokenKind::Filtered
                | TokenKind::Variable
                | TokenKind::Identifier(_),
            )
            | None => Ok(TryMatchToken::Fails(self)),
        }
    }

    /// Reads a variable without filters.
    pub fn expect_variable(self, alloc: Global) -> Result<TryMatchToken<'a, Variable>, AllocError>
        ensures { (t : Token) → IsToken self.entry t → IfOk result (λ m. Tries variable_of self.entry m (expect_variable t)) }
    {
        match self.value(alloc)? {
            Some(Expression::Variable(variable)) => Ok(TryMatchToken::Matches(variable)),
            Some(Expression::Literal(_)) | None => Ok(TryMatchToken::Fails(self)),
        }
    }

    /// Reads a variable or a literal without filters.
    pub fn expect_value(self, alloc: Global) -> Result<TryMatchToken<'a, Expression>, AllocError>
        ensures { (t : Token) → IsToken self.entry t → IfOk result (λ m. Tries expression_of self.entry m (expect_value t)) }
    {
        match self.value(alloc)? {
            Some(value) => Ok(TryMatchToken::Matches(value)),
            None => Ok(TryMatchToken::Fails(self)),
        }
    }

    /// Reads the two ends of a range.
    pub fn expect_range(
        self,
        alloc: Global,
    ) -> Result<TryMatchToken<'a, (Expression, Expression)>, AllocError>
        ensures { (t : Token) → IsToken self.entry t
            → IfOk result (λ m. Tries (λ ends. (expression_of ends.0, expression_of ends.1)) self.entry m (expect_range t)) }
    {
        match self.text.parts {
            TokenParts::Range { start, stop } => match build_value(alloc, start, 0)? {
                Some((from, _)) => match build_value(alloc, stop, 0)? {
                    Some((to, _)) => Ok(TryMatchToken::Matches((from, to))),
                    None => Ok(TryMatchToken::Fails(self)),
                },
                None => Ok(TryMatchToken::Fails(self)),
            },
            TokenParts::Chain(_) | TokenParts::Symbol(_) => Ok(TryMatchToken::Fails(self)),
        }
    }

    /// Returns the value of the token, if it is one.
    fn value(self, alloc: Global) -> Result<Option<Expression>, AllocError>
        ensures { (t : Token) → IsToken self.entry t
            → IfOk result (λ v. MatchOption v (expect_value t ≡ None) (λ e. expect_value t ≡ Some (expression_of e))) }
    {
        if let Some(value) = self.plain_value(alloc)? {
            return Ok(Some(value));
        }
        match self.value_kind() {
            Some(_) => match build_value(alloc, self.text.place, 0)? {
                Some((value, _)) => Ok(Some(value)),
                None => Ok(None),
            },
            None => Ok(None),
        }
    }

    /// Returns the literal or the name of a token that is nothing more, whose text doesn't have to be walked again.
    /// `None` says nothing about the token.
    fn plain_value(self, alloc: Global) -> Result<Option<Expression>, AllocError>
        ensures { (t : Token) → IsToken self.entry t
            → IfOk result (λ found. IfSome found (λ value. t.shape ≡ chain (expression_of value) [])) }
    {
        match self.text.parts {
            TokenParts::Chain(kind) => match kind {
                TokenKind::Literal(literal) => match literal_value(alloc, literal)? {
                    Some(value) => Ok(Some(Expression::Literal(value))),
                    None => Ok(None),
                },
                TokenKind::Identifier(name) => {
                    let name = ScalarOf::Str(String::from_str(alloc, name)?);
                    Ok(Some(Expression::of_parts(name, Vec::new(alloc))))
                }
                _ => Ok(None),
            },
            TokenParts::Range { .. } | TokenParts::Symbol(_) => Ok(None),
        }
    }

    /// Returns the kind of the token's value, if the token is one.
    fn value_kind(self) -> Option<TokenKind<'a>>
        ensures { (t : Token) → IsToken self.entry t
            → MatchOption result (expect_value t ≡ None) (λ kind. IsValue self.entry.text.place.now t (token_kind_of kind)) }
    {
        match self.text.parts {
            TokenParts::Chain(kind) => match kind {
                TokenKind::Literal(_) | TokenKind::Variable | TokenKind::Identifier(_) => {
                    Some(kind)
                }
                TokenKind::Filtered | TokenKind::Range | TokenKind::Symbol => None,
            },
            TokenParts::Range { .. } | TokenParts::Symbol(_) => None,
        }
    }

    /// Reads a chain. Its filters are made from left to right.
    ///
    /// A chain with a filter that the registry doesn't have, or that rejects its arguments, doesn't match.
    pub fn expect_filter_chain<F: ParseFilter>(
        self,
        alloc: Global,
        filters: &PluginRegistry<F>,
    ) -> Result<TryMatchToken<'a, FilterChain<F::Filter>>, AllocError>
        ensures { (t : Token) → IsToken self.entry t
            → IfOk result (λ m. Tries (chain_of F.Filter.shape) self.entry m (expect_filter_chain (registry_of F.makes filters.now) t)) }
    {
        if let Some(entry) = self.plain_value(alloc)? {
            return Ok(TryMatchToken::Matches(FilterChain::new(entry, Vec::new(alloc))));
        }
        match self.text.parts {
            TokenParts::Chain(_) => {
                match parse_chain(alloc, self.source, self.text.place, filters) {
                    Ok(chain) => Ok(TryMatchToken::Matches(chain)),
                    Err(error) => {
                        if error.is_memory() {
                            Err(AllocError)
                        } else {
                            Ok(TryMatchToken::Fails(self))
                        }
                    }
                }
            }
            TokenParts::Range { .. } | TokenParts::Symbol(_) => Ok(TryMatchToken::Fails(self)),
        }
    }
}

impl<'a, A> TryMatchToken<'a, A> {
    /// Returns what matched. A token that didn't match is the error `Unexpected token`.
    pub fn into_result(self, alloc: Global) -> std::result::Result<A, Error>
        ensures { (t : Token) → FailedToken self.entry t → Gives (λ x. x) result (or_unexpected t (matched_of self.entry)) }
    {
        match self {
            TryMatchToken::Matches(found) => Ok(found),
            TryMatchToken::Fails(token) => Err(token.raise_error(alloc)),
        }
    }

    /// Returns what matched. A token that didn't match is an error with this message.
    pub fn into_result_custom_msg(
        self,
        alloc: Global,
        message: &str,
    ) -> std::result::Result<A, Error>
        ensures { (t : Token) → FailedToken self.entry t
            → Gives (λ x. x) result (ok_or (matched_of self.entry) (token_error message.now t)) }
    {
        match self {
            TryMatchToken::Matches(found) => Ok(found),
            TryMatchToken::Fails(token) => Err(token.raise_custom_error(alloc, message)),
        }
    }
}
