//! Text literals, which have no escapes.
ghost use Rattle.std.specs.Prelude.{◌≡◌, [], ◌∷◌, ◌++◌, false, option_map, string_bytes, IfOk, OnOk};
ghost use Rattle.jekyll_source.specs.meaning.Literals as Spec;
ghost use Rattle.jekyll_source.specs.steps.Parts.{quote_byte, when};

use std::alloc::AllocError;

/// A quote of a text literal.
#[derive(Debug, Clone, Copy, PartialEq, Eq)]
pub(crate) enum Quote {
    Double,
    Single,
}

impl Quote {
    fn as_str(self) -> &'static str
        ensures { result.now ≡ quote_byte self ∷ [] }
    {
        match self {
            Quote::Double => "\"",
            Quote::Single => "'",
        }
    }

    fn other(self) -> Quote
        ensures { quote_byte result ≡ Spec.other (quote_byte self) }
    {
        match self {
            Quote::Double => Quote::Single,
            Quote::Single => Quote::Double,
        }
    }

    fn is_in(self, text: &str) -> bool
        ensures { result ≡ Spec.has (quote_byte self) text.now }
    {
        let quote = self.byte();
        text.as_bytes().iter().any(|byte| *byte == quote)
    }

    pub(crate) fn byte(self) -> u8
        ensures { result ≡ quote_byte self }
    {
        match self {
            Quote::Double => b'"',
            Quote::Single => b'\'',
        }
    }
}

/// Appends the literal of the text, in this quote if the text doesn't have it, otherwise in the other one. Returns `false`,
/// and appends nothing, if the text has both.
pub(crate) fn push_literal(out: &mut String, quote: Quote, text: &str) -> Result<bool, AllocError>
    ensures same { IfOk result (λ pushed. pushed ≡ false → string_bytes out.new ≡ string_bytes out.old) }
    ensures value { IfOk result (λ pushed. when pushed (string_bytes out.new)
        ≡ option_map (λ l. string_bytes out.old ++ l) (Spec.literal (quote_byte quote) text.now)) }
{
    if !quote.is_in(text) {
        push_between(out, quote, text)?;
        return Ok(true);
    }
    if quote.other().is_in(text) {
        return Ok(false);
    }
    push_between(out, quote.other(), text)?;
    Ok(true)
}

/// Appends the text between two such quotes.
pub(crate) fn push_between(out: &mut String, quote: Quote, text: &str) -> Result<(), AllocError>
    ensures { OnOk result (string_bytes out.new ≡ string_bytes out.old ++ Spec.between (quote_byte quote) text.now) }
{
    out.push_str(quote.as_str())?;
    out.push_str(text)?;
    out.push_str(quote.as_str())?;
    Ok(())
}
