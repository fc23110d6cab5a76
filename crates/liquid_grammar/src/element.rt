//! The elements of a text.
ghost use Rattle.std.specs.Prelude.{◌≡◌, ℕ, List, [], ◌<◌, length, Some, IfSome, MatchOption};
ghost use Rattle.liquid_grammar.specs.meaning.Grammar.{Opens};
ghost use Rattle.liquid_grammar.specs.meaning.Cover as spec;
ghost use Rattle.liquid_grammar.specs.meaning.Cover.{IsElement};
ghost use Rattle.liquid_grammar.specs.meaning.Elements.{Means};
ghost use Rattle.liquid_grammar.specs.steps.Steps as read;
ghost use Rattle.liquid_grammar.specs.steps.Steps.{Splits};

use crate::fault::Fault;
use crate::kind::TokenKind;
use crate::raw::raw_len;
use crate::text::{before, eat, skip_white};
use crate::token::{expression, tag};

/// A tag of a template.
#[derive(Clone, Copy, Debug, PartialEq, Eq)]
pub struct TagText<'a> {
    /// The text from the name on.
    pub place: &'a str,
    pub name: &'a str,
    /// The text from after the name on, past the tag's end.
    pub tokens: &'a str,
    /// The whole text of the tag.
    pub text: &'a str,
    /// The first fault of its literals and brackets.
    pub fault: Option<Fault<'a>>,
}

/// An expression of a template.
#[derive(Clone, Copy, Debug, PartialEq, Eq)]
pub struct ChainText<'a> {
    /// The text from the chain on, past the expression's end.
    pub chain: &'a str,
    /// What the chain is.
    pub kind: TokenKind<'a>,
    /// The whole text of the expression.
    pub text: &'a str,
    /// The first fault of its literals and brackets.
    pub fault: Option<Fault<'a>>,
}

/// A part of a template: text that is written unchanged, a tag, an expression, or an opener of neither.
#[derive(Clone, Copy, Debug, PartialEq, Eq)]
pub enum Element<'a> {
    /// Text without an opener.
    Raw(&'a str),
    Tag(TagText<'a>),
    Expression(ChainText<'a>),
    /// The whitespace and one `{` of an opener that begins neither a tag nor an expression.
    Invalid(&'a str),
}

/// Returns the element at the beginning of the text, and the rest of the text. An empty text has none.
#[inline(always)]
pub fn next_element<'a>(text: &'a str) -> Option<(Element<'a>, &'a str)>
    ensures found { MatchOption result (text.now ≡ [])
        (λ p. (e : spec.Element) × IsElement text.now p.1.now e × Means p.0 e) }
    ensures only { (rest : List ℕ) (e : spec.Element) → IsElement text.now rest e
        → MatchOption result ⊥ (λ p. Means p.0 e × (p.1.now ≡ rest)) }
    ensures shorter { IfSome result (λ p. length p.1.now < length text.now) }
{
    if text.is_empty() {
        return None;
    }
    let (front, rest) = text.split_at(raw_len(text));
    if front.is_empty() {
        Some(opener_element(text))
    } else {
        Some((Element::Raw(front), rest))
    }
}

#[inline(always)]
fn opener_element<'a>(s: &'a str) -> (Element<'a>, &'a str)
    requires { Opens s.now }
    ensures { (e : spec.Element) × IsElement s.now result.1.now e × Means result.0 e }
{
    match tag(s) {
        Some(found) => (
            Element::Tag(TagText {
                place: found.place,
                name: found.name,
                tokens: found.tokens,
                text: before(s, found.rest),
                fault: found.fault,
            }),
            found.rest,
        ),
        None => match expression(s) {
            Some((chain, kind, fault, rest)) => (
                Element::Expression(ChainText {
                    chain,
                    kind,
                    text: before(s, rest),
                    fault,
                }),
                rest,
            ),
            None => match lone_brace(s) {
                Some((brace, rest)) => (Element::Invalid(brace), rest),
                None => unreachable!(),
            },
        },
    }
}

/// Returns whitespace with one `{`, and what follows them.
#[tactic(auto, unfolding(crate::specs::steps::Steps::lone_brace, crate::specs::steps::Steps::white))]
fn lone_brace(s: &str) -> Option<(&str, &str)>
    ensures { Splits result (read.lone_brace s.now) }
{
    let rest = eat(skip_white(s), b'{')?;
    Some((before(s, rest), rest))
}
