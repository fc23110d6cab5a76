//! Escaped bodies: the text up to the end of a block, in which nothing is read.
ghost use Rattle.std.specs.Prelude.{◌≡◌, ◌<◌, ◌≤◌, ◌+◌, ◌^◌, ℕ, List, [], IfOk, IfSome, string_bytes, codes, ◌++◌};
ghost use Rattle.liquid_error.specs.meaning.Told.{told};
ghost use Rattle.liquid_grammar.specs.meaning.Cover.{Cover, IsElement};
ghost use Rattle.liquid_grammar.specs.meaning.Elements.{Means};
ghost use Rattle.liquid_parser.specs.steps.Escaped.{EscapesTo};
ghost use Rattle.liquid_parser.specs.declared.reading.stack.Next.TheVariants.{Escaped};
ghost use Rattle.liquid_parser.specs.meaning.Reading.{unclosed_by};
ghost use Rattle.liquid_parser.specs.steps.Views.{past_escaped, Leaves};
ghost use Rattle.liquid_grammar.specs.meaning.Cover as cover;
ghost use Rattle.liquid_parser.specs.meaning.Reading as spec;

use crate::plugin::block::ParseBlock;
use crate::plugin::tag::ParseTag;
use crate::reading::place::error_at;
use crate::reading::stack::{OpenBlock, ParserState};
use crate::reading::steps::close_escaped;
use liquid_error::Error;
use liquid_grammar::{Element, next_element, next_token, parts_are_matches};
use liquid_plugins::{Node, ParseFilter};
use std::alloc::{AllocError, Global};

/// Reads the escaped body of a block that has just begun to its end, and returns what follows. The blocks around it are
/// the state's, and its node is the last of the list that it is in.
pub(crate) fn read_escaped<'a, 't, F: ParseFilter, T: ParseTag<F>, B: ParseBlock<F>>(
    alloc: Global,
    source: &str,
    body: &'t str,
    block: OpenBlock<'a, B, B::Plan, Node<F::Filter, T::Node, B::Node>>,
    state: &mut ParserState<'a, B, B::Plan, Node<F::Filter, T::Node, B::Node>>,
) -> Result<&'t str, Error>
    ensures value { Leaves F.Filter.shape T.Node.shape B.Node.shape B.Plan.shape B.block (Escaped block.entry) state.old state.new
        body.now result (past_escaped source.now) }
    ensures within { IfOk result (λ rest. (front : List ℕ) × (body.now ≡ front ++ rest.now)) }
{
    let kind = block.kind;
    match escape(body, kind.end_tag(), kind.start_tag(), kind.nests()) {
        Some((text, after)) => {
            state.nodes = close_escaped::<F, T, B>(alloc, block, text)?;
            Ok(after)
        }
        None => Err(unclosed_error(alloc, source, kind.end_tag())),
    }
}

/// Returns the error for a text that ends inside a block with this end name.
pub(crate) fn unclosed_error(alloc: Global, source: &str, end_name: &str) -> Error
    ensures { IfSome (told result) (λ r. r ≡ unclosed_by source.now end_name.now) }
{
    match unclosed_message(alloc, end_name) {
        Ok(message) => error_at(alloc, source, message.as_str(), ""),
        Err(_) => Error::Memory,
    }
}

fn unclosed_message(alloc: Global, end_name: &str) -> Result<String, AllocError>
    ensures { IfOk result (λ t. string_bytes t ≡ codes "Unclosed block. {% " ++ (end_name.now ++ codes " %} tag expected.")) }
{
    let mut message = String::from_str(alloc, "Unclosed block. {% ")?;
    message.push_str(end_name)?;
    message.push_str(" %} tag expected.")?;
    Ok(message)
}

/// Returns the text of an escaped body up to its end, and what follows the end. Returns `None` if there is no end.
pub(crate) fn escape<'a>(
    body: &'a str,
    end_name: &str,
    start_name: &str,
    nests: bool,
) -> Option<(&'a str, &'a str)>
    ensures value { (es : List cover.Element) → Cover body.now es
        → EscapesTo result (spec.escape end_name.now start_name.now nests 0 [] es) }
    ensures within { IfSome result (λ p. (front : List ℕ) × (body.now ≡ front ++ p.1.now)) }
{
    let mut level = 0;
    let mut rest = body;
    'elements: while let Some((element, following)) = next_element(rest) {
        match level_after(element, end_name, start_name, nests, level) {
            Some(next) => {
                level = next;
                rest = following;
            }
            None => {
                let (text, _) = body.split_at(body.len() - rest.len());
                return Some((text, following));
            }
        }
    }
    None
}

/// Returns how many starts are still without their ends after the element. Returns `None` at the end of the body.
fn level_after(
    element: Element<'_>,
    end_name: &str,
    start_name: &str,
    nests: bool,
    level: usize,
) -> Option<usize>
    requires { level < 2 ^ 63 }
    ensures value { (s rest : List ℕ) (e : cover.Element) → IsElement s rest e → Means element.entry e
        → result ≡ spec.level_after end_name.now start_name.now nests level e }
    ensures within { IfSome result (λ next. next ≤ level + 1) }
{
    parts_are_matches();
    match element {
        Element::Tag(tag) => {
            if tag.name == end_name && next_token(tag.tokens).is_none() {
                level.checked_sub(1)
            } else if nests && tag.name == start_name {
                Some(level + 1)
            } else {
                Some(level)
            }
        }
        _ => Some(level),
    }
}
