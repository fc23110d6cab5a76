//! Reading lists of values.
ghost use Rattle.std.specs.Prelude.{◌≡◌, bytes_eq, map};
ghost use Rattle.std.specs.List.{list_any};
ghost use Rattle.liquid_error.specs.meaning.Told.{Gives};
ghost use Rattle.liquid_parser.specs.meaning.Cursors.{IsToken};
ghost use Rattle.liquid_parser.specs.meaning.Handed.{Token, Tokens, or_unexpected};
ghost use Rattle.liquid_parser.specs.meaning.Plugins.{AreTokens};
ghost use Rattle.liquid_std.specs.meaning.conditions.Values.{expect_one_of, expressions_of, values_given};

use liquid_core::parser::TagToken;
use liquid_core::{Error, Expression, TagTokenIter};
use liquid_tags::asked::TOKEN_EXPECTED;
use std::alloc::Global;

/// Reads all tokens as values, each two of them separated by one of the separators.
///
/// A missing value is an `Err`, "Token expected". A token that does not fit is an `Err` too, "Unexpected token".
pub fn read_values(
    alloc: Global,
    tokens: TagTokenIter<'_>,
    separators: &[&str],
) -> Result<Vec<Expression>, Error>
    ensures { (ts : Tokens) → AreTokens tokens.entry ts
        → Gives expressions_of result (values_given (map (λ s. s.now) separators.now) ts) }
{
    let mut tokens = tokens;
    let mut values = Vec::new(alloc);
    let first = tokens.next_value(alloc, TOKEN_EXPECTED)?;
    values.push(first)?;
    'values: while let Some(token) = tokens.next() {
        read_one_of(alloc, token, separators)?;
        let value = tokens.next_value(alloc, TOKEN_EXPECTED)?;
        values.push(value)?;
    }
    Ok(values)
}

/// Checks that a token is one of these texts.
fn read_one_of(alloc: Global, token: TagToken<'_>, texts: &[&str]) -> Result<(), Error>
    ensures { (t : Token) → IsToken token.entry t
        → Gives (λ u. u) result (or_unexpected t (expect_one_of (map (λ s. s.now) texts.now) t)) }
{
    if is_one_of(token.as_str(), texts) {
        Ok(())
    } else {
        Err(token.raise_error(alloc))
    }
}

fn is_one_of(text: &str, texts: &[&str]) -> bool
    ensures { result ≡ list_any (bytes_eq text.now) (map (λ s. s.now) texts.now) }
{
    for other in texts {
        if text == *other {
            return true;
        }
    }
    false
}
