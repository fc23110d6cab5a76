//! The cursor over the tokens of a tag.
ghost use Rattle.std.specs.Prelude.{◌≡◌, ◌<◌, IfOk, IfSome, IfNone, IfErr};
ghost use Rattle.liquid_error.specs.meaning.Refusal.{located};
ghost use Rattle.liquid_error.specs.meaning.Told.{told, Gives};
ghost use Rattle.liquid_parser.specs.meaning.Cursors.{HandsOut, HandsOutOr, bytes_left, Takes, expect_filter_chain, expect_str, next_as};
ghost use Rattle.liquid_parser.specs.meaning.Handed.{Tokens, expect_next, next as next_of, expect_nothing, expect_identifier, expect_value};
ghost use Rattle.liquid_parser.specs.meaning.Plugins.{AreTokens, registry_of};
ghost use Rattle.liquid_plugins.specs.meaning.ExpressionOf.{chain_of, expression_of};

use crate::cursor::token::TagToken;
use crate::reading::place::error_at;
use liquid_error::Error;
use liquid_grammar::{match_token, match_white, next_token};
use liquid_plugins::{Expression, FilterChain, ParseFilter, PluginRegistry};
use std::alloc::Global;

/// The tokens of a tag that are left. It borrows the source.
#[derive(Clone, Copy)]
pub struct TagTokenIter<'a> {
    pub(crate) source: &'a str,
    pub(crate) rest: &'a str,
}

impl<'a> TagTokenIter<'a> {
    /// Returns the next token, and moves the cursor past it. Returns `None` if no token is left. Then the cursor stays
    /// where it is.
    pub fn next(&mut self) -> Option<TagToken<'a>>
        ensures value { (ts : Tokens) → AreTokens self.old ts → HandsOut result self.new ts (next_of ts) }
        ensures shorter { IfSome result (λ t. bytes_left self.new < bytes_left self.old) }
        ensures stays { IfNone result (self.new ≡ self.old) }
    {
        match next_token(self.rest) {
            Some(text) => {
                self.rest = text.rest;
                Some(TagToken {
                    source: self.source,
                    text,
                })
            }
            None => None,
        }
    }

    /// Returns the next token, and moves the cursor past it.
    ///
    /// If no token is left, the error has this message, just after the last token that was returned, or after the tag's
    /// name. Then the cursor stays where it is.
    pub fn expect_next(
        &mut self,
        alloc: Global,
        message: &str,
    ) -> std::result::Result<TagToken<'a>, Error>
        ensures value { (ts : Tokens) → AreTokens self.old ts → HandsOutOr result self.new ts (expect_next message.now ts) }
        ensures shorter { IfOk result (λ t. bytes_left self.new < bytes_left self.old) }
    {
        match self.next() {
            Some(token) => Ok(token),
            None => Err(self.raise_error(alloc, message)),
        }
    }

    /// Returns an error with this message, just after the last token that was returned, or after the tag's name.
    pub fn raise_error(&self, alloc: Global, message: &str) -> Error
        ensures { (ts : Tokens) → AreTokens self.now ts → IfSome (told result) (λ r. r ≡ located message.now ts.following) }
    {
        error_at(alloc, self.source, message, self.rest)
    }

    /// Checks that no token is left. Otherwise the next one is an error.
    pub fn expect_nothing(self, alloc: Global) -> std::result::Result<(), Error>
        ensures { (ts : Tokens) → AreTokens self.entry ts → Gives (λ u. u) result (expect_nothing ts) }
    {
        let (_, rest) = match_white(self.rest);
        match match_token(rest) {
            None => Ok(()),
            Some(_) => Err(error_at(alloc, self.source, "Unexpected token", rest)),
        }
    }
}

/// Each call reads the next token as what its name says, and moves the cursor past it.
///
/// If no token is left, the error is that of `expect_next`, with the message. A token that is something else is the
/// error `Unexpected token`. On an error the cursor stays where it is.
impl<'a> TagTokenIter<'a> {
    /// Reads the name of a variable without indexes and filters.
    pub fn next_identifier(
        &mut self,
        alloc: Global,
        message: &str,
    ) -> std::result::Result<&'a str, Error>
        ensures value { (ts : Tokens) → AreTokens self.old ts
            → Takes (λ name. name.now) result self.new (next_as message.now expect_identifier ts) }
        ensures shorter { IfOk result (λ name. bytes_left self.new < bytes_left self.old) }
        ensures stays { IfErr result (λ e. self.new ≡ self.old) }
    {
        let mut following = *self;
        let token = following.expect_next(alloc, message)?;
        let name = token.expect_identifier().into_result(alloc)?;
        *self = following;
        Ok(name)
    }

    /// Reads this text, whatever it is.
    pub fn next_str(
        &mut self,
        alloc: Global,
        message: &str,
        expected: &str,
    ) -> std::result::Result<(), Error>
        ensures value { (ts : Tokens) → AreTokens self.old ts
            → Takes (λ u. u) result self.new (next_as message.now (expect_str expected.now) ts) }
        ensures shorter { IfOk result (λ u. bytes_left self.new < bytes_left self.old) }
        ensures stays { IfErr result (λ e. self.new ≡ self.old) }
    {
        let mut following = *self;
        let token = following.expect_next(alloc, message)?;
        token.expect_str(expected).into_result(alloc)?;
        *self = following;
        Ok(())
    }

    /// Reads a variable or a literal without filters.
    pub fn next_value(
        &mut self,
        alloc: Global,
        message: &str,
    ) -> std::result::Result<Expression, Error>
        ensures value { (ts : Tokens) → AreTokens self.old ts
            → Takes expression_of result self.new (next_as message.now expect_value ts) }
        ensures shorter { IfOk result (λ e. bytes_left self.new < bytes_left self.old) }
        ensures stays { IfErr result (λ e. self.new ≡ self.old) }
    {
        let mut following = *self;
        let token = following.expect_next(alloc, message)?;
        let value = token.expect_value(alloc)?.into_result(alloc)?;
        *self = following;
        Ok(value)
    }

    /// Reads a chain. Its filters are made from left to right.
    ///
    /// A chain with a filter that the registry doesn't have, or that rejects its arguments, is an error, too.
    pub fn next_filter_chain<F: ParseFilter>(
        &mut self,
        alloc: Global,
        message: &str,
        filters: &PluginRegistry<F>,
    ) -> std::result::Result<FilterChain<F::Filter>, Error>
        ensures value { (ts : Tokens) → AreTokens self.old ts
            → Takes (chain_of F.Filter.shape) result self.new
            (next_as message.now (expect_filter_chain (registry_of F.makes filters.now)) ts) }
        ensures shorter { IfOk result (λ chain. bytes_left self.new < bytes_left self.old) }
        ensures stays { IfErr result (λ e. self.new ≡ self.old) }
    {
        let mut following = *self;
        let token = following.expect_next(alloc, message)?;
        let chain = token
            .expect_filter_chain(alloc, filters)?
            .into_result(alloc)?;
        *self = following;
        Ok(chain)
    }
}
