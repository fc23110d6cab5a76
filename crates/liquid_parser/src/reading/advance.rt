//! Reading one element, in the state that the elements before it have left.
ghost use Rattle.std.specs.Prelude.{◌≡◌, ◌++◌, ℕ, List, IfOk};
ghost use Rattle.liquid_parser.specs.meaning.Elements.{IfElement, IfExpression};
ghost use Rattle.liquid_parser.specs.meaning.Plugins.{registry_of, language_of};
ghost use Rattle.liquid_parser.specs.meaning.Reading.{element_read, expression_read, node_added};
ghost use Rattle.liquid_parser.specs.steps.Views.{advanced, Advances, Steps};

use crate::cursor::element::{BlockElement, Exp};
use crate::plugin::block::ParseBlock;
use crate::plugin::language::Language;
use crate::plugin::tag::ParseTag;
use crate::reading::dispatch::dispatch;
use crate::reading::escape::read_escaped;
use crate::reading::stack::{Next, ParserState};
use liquid_error::Error;
use liquid_plugins::{Node, ParseFilter};
use std::alloc::Global;

/// Reads one element (and the escaped body that it begins), and returns the rest of the text. An error ends the
/// reading, and then the state is unspecified.
///
/// This many blocks are open around everything that is read. The rest after the element is text of the source.
#[inline(always)]
pub(crate) fn advance<'a, 't, F: ParseFilter, T: ParseTag<F>, B: ParseBlock<F>>(
    alloc: Global,
    outside: usize,
    source: &str,
    state: &mut ParserState<'a, B, B::Plan, Node<F::Filter, T::Node, B::Node>>,
    element: BlockElement<'a>,
    following: &'t str,
    language: &'a Language<F, T, B>,
) -> Result<&'t str, Error>
    ensures value { Advances F.Filter.shape T.Node.shape B.Node.shape B.Plan.shape B.block element.entry state.old state.new following.now
        result (advanced (language_of F.makes T.gives B.block language.now) source.now outside) }
    ensures within { IfOk result (λ rest. (front : List ℕ) × (following.now ≡ front ++ rest.now)) }
{
    match read_element(alloc, outside, state, element, language)? {
        Next::Among => Ok(following),
        Next::Escaped(block) => read_escaped::<F, T, B>(alloc, source, following, block, state),
    }
}

/// Reads an element.
#[inline(always)]
fn read_element<'a, F: ParseFilter, T: ParseTag<F>, B: ParseBlock<F>>(
    alloc: Global,
    outside: usize,
    state: &mut ParserState<'a, B, B::Plan, Node<F::Filter, T::Node, B::Node>>,
    element: BlockElement<'a>,
    language: &'a Language<F, T, B>,
) -> Result<Next<'a, B, B::Plan, Node<F::Filter, T::Node, B::Node>>, Error>
    ensures { IfElement element.entry (λ own after e. Steps F.Filter.shape T.Node.shape B.Node.shape B.Plan.shape B.block
        state.old state.new result (λ bs ns. element_read (language_of F.makes T.gives B.block language.now) own outside bs ns e after)) }
{
    match element {
        BlockElement::Raw(raw) => {
            state.nodes.push(raw.into_renderable(alloc)?)?;
            Ok(Next::Among)
        }
        BlockElement::Expression(exp) => read_expression(alloc, state, exp, language),
        BlockElement::Tag(tag) => dispatch(alloc, outside, state, tag, language),
        BlockElement::Invalid(token) => Err(token.refusal(alloc)),
    }
}

/// Reads an expression.
#[inline(always)]
fn read_expression<'a, F: ParseFilter, T: ParseTag<F>, B: ParseBlock<F>>(
    alloc: Global,
    state: &mut ParserState<'a, B, B::Plan, Node<F::Filter, T::Node, B::Node>>,
    exp: Exp<'_>,
    language: &Language<F, T, B>,
) -> Result<Next<'a, B, B::Plan, Node<F::Filter, T::Node, B::Node>>, Error>
    ensures { IfExpression exp.entry (λ source chain. Steps F.Filter.shape T.Node.shape B.Node.shape B.Plan.shape B.block
        state.old state.new result (λ bs ns. node_added bs ns (expression_read (registry_of F.makes language.now.filters) source chain))) }
{
    let node = exp.parse(alloc, language)?;
    state.nodes.push(node)?;
    Ok(Next::Among)
}
