//! Parsing a whole text, element by element.
ghost use Rattle.std.specs.Prelude.{List, Result};
ghost use Rattle.liquid_error.specs.meaning.Refusal.{Refusal};
ghost use Rattle.liquid_error.specs.meaning.Told.{Gives};
ghost use Rattle.liquid_plugins.specs.meaning.NodesOf.{shapes_of};
ghost use Rattle.liquid_plugins.specs.meaning.Nodes.{NodeShape};
ghost use Rattle.liquid_parser.specs.meaning.Plugins.{language_of};
ghost use Rattle.liquid_parser.specs.meaning.Reading.{Answers, Reads, OneReading};
ghost use Rattle.liquid_parser.specs.steps.Views.{state_view};
ghost use Rattle.liquid_parser.specs.meaning.Reading as spec;

use crate::chain::fast_path::{Walked, fast_expression, no_expression};
use crate::cursor::element::check_element;
use crate::plugin::block::ParseBlock;
use crate::plugin::language::Language;
use crate::plugin::tag::ParseTag;
use crate::reading::advance::advance;
use crate::reading::escape::unclosed_error;
use crate::reading::stack::ParserState;
use liquid_error::Error;
use liquid_grammar::{match_white, next_element};
use liquid_plugins::{Node, ParseFilter};
use std::alloc::Global;

/// Returns the nodes of a template's text, in order.
///
/// Fails with the first error, from left to right: what is neither text nor expression nor tag ("Invalid liquid"), a
/// block without its end, an unknown tag or filter, a number that is not an integer of 64 bits, a token that
/// nothing expects, brackets or blocks more than a hundred deep, and the error of a plug-in.
pub fn parse<F: ParseFilter, T: ParseTag<F>, B: ParseBlock<F>>(
    alloc: Global,
    text: &str,
    language: &Language<F, T, B>,
) -> Result<Vec<Node<F::Filter, T::Node, B::Node>>, Error>
    ensures found { Answers (λ v. shapes_of F.Filter.shape T.Node.shape B.Node.shape v.items)
        (language_of F.makes T.gives B.block language.now) text.now result }
    ensures only { (a : Result (List (NodeShape F.Filter.Shape T.Node.Shape B.Node.Shape)) Refusal)
        → Reads (language_of F.makes T.gives B.block language.now) text.now a
        → Gives (λ v. shapes_of F.Filter.shape T.Node.shape B.Node.shape v.items) result a }
{
    read_nodes(alloc, text, language)
}

/// Each text is parsed with exactly one result.
pub fn one_reading<F: ParseFilter, T: ParseTag<F>, B: ParseBlock<F>>(language: &Language<F, T, B>)
    ensures { OneReading (language_of F.makes T.gives B.block language.now) }
{}

fn read_nodes<'a, F: ParseFilter, T: ParseTag<F>, B: ParseBlock<F>>(
    alloc: Global,
    text: &'a str,
    language: &'a Language<F, T, B>,
) -> Result<Vec<Node<F::Filter, T::Node, B::Node>>, Error>
    ensures { Answers (λ v. shapes_of F.Filter.shape T.Node.shape B.Node.shape v.items)
        (language_of F.makes T.gives B.block language.now) text.now result }
{
    let mut state = ParserState {
        open: Vec::new(alloc),
        nodes: Vec::new(alloc),
    };
    let mut rest = text;
    'elements: loop {
        match fast_expression(alloc, rest, language)? {
            Walked::Whole((node, following)) => {
                state.nodes.push(node)?;
                rest = following;
            }
            Walked::NoExpression => return Err(no_expression(alloc, text, match_white(rest).1)),
            Walked::Undecided => match next_element(rest) {
                Some((found, following)) => {
                    let element = check_element(alloc, text, rest, found)?;
                    rest = advance(alloc, 0, text, &mut state, element, following, language)?;
                }
                None => return end_reading::<F, T, B>(alloc, text, state),
            },
        }
    }
}

/// Returns the nodes of a text that is read to its end.
pub(crate) fn end_reading<'a, F: ParseFilter, T: ParseTag<F>, B: ParseBlock<F>>(
    alloc: Global,
    source: &str,
    state: ParserState<'a, B, B::Plan, Node<F::Filter, T::Node, B::Node>>,
) -> Result<Vec<Node<F::Filter, T::Node, B::Node>>, Error>
    ensures { Gives (λ v. shapes_of F.Filter.shape T.Node.shape B.Node.shape v.items) result
        (spec.ended source.now (state_view F.Filter.shape T.Node.shape B.Node.shape B.Plan.shape B.block state.entry)) }
{
    let ParserState { mut open, nodes } = state;
    match open.pop() {
        None => Ok(nodes),
        Some(block) => Err(unclosed_error(alloc, source, block.kind.end_tag())),
    }
}
