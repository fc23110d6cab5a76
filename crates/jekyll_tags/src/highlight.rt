//! The block `highlight`.
ghost use Rattle.std.specs.Prelude.{◌≡◌, ◌≤◌, ◌&&◌, bytes_eq, codes, false, string_bytes, IfOk};
ghost use Rattle.liquid_error.specs.meaning.Told.{Gives};
ghost use Rattle.liquid_parser.specs.meaning.Cursors.{IsToken, Takes, bytes_left};
ghost use Rattle.liquid_parser.specs.meaning.Handed.{Token, Tokens, expect_literal};
ghost use Rattle.liquid_parser.specs.meaning.Plugins.{AreTokens};
ghost use Rattle.liquid_plugins.specs.meaning.TurnOf.{turn_of};
ghost use Rattle.liquid_tags.specs.meaning.Asked.{next_as};
ghost use Rattle.liquid_value.specs.meaning.View.{view as tree_of};
ghost use Rattle.jekyll_tags.specs.laws.HighlightsHide.{highlights_hide};
ghost use Rattle.jekyll_tags.specs.meaning.Highlights as Spec;
ghost use Rattle.jekyll_tags.specs.meaning.HighlightsGiven as Given;

use crate::seen::text_seen;
use liquid_core::model::ValueRender;
use liquid_core::parser::{Bytes, Meant, TagToken};
use liquid_core::{Discreet, Error, Frame, Renderable, Runtime, TagTokenIter, Turn, Value};
use liquid_jekyll::text::strip_spaces;
use liquid_runtime::Fresh;
use liquid_strings::{escape, replace, to_lowercase};
use liquid_tags::asked::TOKEN_EXPECTED;
use std::alloc::{AllocError, Global};

/// A block of code.
#[derive(Drop)]
pub struct Highlight {
    /// Its language, in lower case.
    pub language: String,
}

/// Marks the shape of a block of code.
pub struct HighlightShape {
    pub language: Bytes,
}

impl Meant for Highlight {
    type Shape = HighlightShape;

    ghost shape = { Spec.highlight_of };
}

/// The first turn captures the part, and the second one writes it as code. The progress is the part's text, once there is
/// one.
impl<V: Fresh> Renderable<V> for Highlight {
    type Progress = Option<String>;

    ghost means = { Spec.highlight_nodes };

    fn start<R: Runtime<Register = V>>(
        &self,
        _alloc: Global,
        _runtime: &mut R,
    ) -> Result<Option<String>, Error> {
        Ok(None)
    }

    fn turns(_progress: &Option<String>) -> u64 {
        2
    }

    fn turn<R: Runtime<Register = V>>(
        &self,
        alloc: Global,
        progress: &mut Option<String>,
        runtime: &mut R,
    ) -> Result<Turn, Error> {
        match progress {
            None => Ok(Turn::Capture(0, Frame::None, None)),
            Some(code) => Ok(code_turn(alloc, self, code.as_str(), &*runtime)?),
        }
    }

    fn caught(&self, progress: &mut Option<String>, text: String) {
        *progress = Some(text);
    }
}

impl<V: Fresh> Discreet<V> for Highlight {
    ghost hides = { highlights_hide };
}

/// Returns the turn that writes the code, between the texts of `highlighter_prefix` and `highlighter_suffix`.
#[inline(never)]
fn code_turn<R: Runtime>(
    alloc: Global,
    block: &Highlight,
    code: &str,
    runtime: &R,
) -> Result<Turn, AllocError>
    ensures { IfOk result (λ turn. turn_of turn ≡ Spec.code_turn (Spec.highlight_of block.now) code.now (R.view runtime.now)) }
{
    let mut text = text_seen(alloc, "highlighter_prefix", runtime)?;
    let figure = figure(alloc, block.language.as_str(), code)?;
    let suffix = text_seen(alloc, "highlighter_suffix", runtime)?;
    text.push_str(figure.as_str())?;
    text.push_str(suffix.as_str())?;
    Ok(Turn::Text(text))
}

/// Returns the element of HTML with code of a language.
fn figure(alloc: Global, language: &str, code: &str) -> Result<String, AllocError>
    ensures { IfOk result (λ text. string_bytes text ≡ Spec.figure language.now code.now) }
{
    let class = replace(alloc, language, "+", "-")?;
    let code = escape(alloc, strip_spaces(code))?;
    format!(in alloc;
        "<figure class=\"highlight\"><pre><code class=\"language-{class}\" data-lang=\"{language}\">{code}</code></pre></figure>"
    )
}

/// Reads the start tag of a `highlight`: a language and options.
///
/// A missing token is an `Err`, "Token expected". A token that does not fit is an `Err` too, "Unexpected token".
pub(crate) fn read_highlight(alloc: Global, tokens: TagTokenIter<'_>) -> Result<Highlight, Error>
    ensures { (ts : Tokens) → AreTokens tokens.entry ts → Gives Spec.highlight_of result (Given.highlight_given ts) }
{
    let mut tokens = tokens;
    let language = read_language(alloc, &mut tokens)?;
    read_options(alloc, tokens)?;
    Ok(Highlight { language })
}

/// Reads the language, which is a literal.
fn read_language(alloc: Global, tokens: &mut TagTokenIter<'_>) -> Result<String, Error>
    ensures { (ts : Tokens) → AreTokens tokens.old ts → Takes (λ s. string_bytes s) result tokens.new (Given.language_given ts) }
{
    let literal = next_literal(alloc, tokens)?;
    let name = ValueRender::new(&literal).to_string(alloc)?;
    let language = to_lowercase(alloc, name.as_str())?;
    Ok(language)
}

fn next_literal(alloc: Global, tokens: &mut TagTokenIter<'_>) -> Result<Value, Error>
    ensures { (ts : Tokens) → AreTokens tokens.old ts → Takes tree_of result tokens.new (next_as expect_literal ts) }
{
    let token = tokens.expect_next(alloc, TOKEN_EXPECTED)?;
    token.expect_literal(alloc)?.into_result(alloc)
}

/// Reads all tokens as names, each perhaps with `=` and a value after it.
fn read_options(alloc: Global, tokens: TagTokenIter<'_>) -> Result<(), Error>
    ensures { (ts : Tokens) → AreTokens tokens.entry ts → Gives (λ u. u) result (Given.options_from false ts.left) }
{
    let mut tokens = tokens;
    let mut is_named = false;
    'options: while let Some(token) = tokens.next() {
        let named = read_option(alloc, is_named, token, &mut tokens)?;
        is_named = named;
    }
    Ok(())
}

/// Reads a token as a name, or as `=` with a value after it, where a name is before it. Returns `true` for a name.
fn read_option(
    alloc: Global,
    is_named: bool,
    token: TagToken<'_>,
    tokens: &mut TagTokenIter<'_>,
) -> Result<bool, Error>
    ensures value { (t : Token) → IsToken token.entry t → (ts : Tokens) → AreTokens tokens.old ts
        → Takes (λ named. named) result tokens.new (Given.option_given is_named t ts) }
    ensures shorter { IfOk result (λ named. bytes_left tokens.new ≤ bytes_left tokens.old) }
{
    if gives_value(is_named, token.as_str()) {
        let value = tokens.next_value(alloc, TOKEN_EXPECTED)?;
        drop(value);
        return Ok(false);
    }
    token.expect_identifier().into_result(alloc)?;
    Ok(true)
}

fn gives_value(is_named: bool, text: &str) -> bool
    ensures { result ≡ (is_named && bytes_eq text.now (codes "=")) }
{
    is_named && text == "="
}
