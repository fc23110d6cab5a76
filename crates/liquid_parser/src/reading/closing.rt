//! Reading what follows a tag, until no block is open.
ghost use Rattle.std.specs.Prelude.{◌≡◌, ◌++◌, ℕ, List, IfOk};
ghost use Rattle.liquid_parser.specs.declared.reading.stack.Next.TheVariants.{Among};
ghost use Rattle.liquid_parser.specs.meaning.ElementReading.{read_closed};
ghost use Rattle.liquid_parser.specs.meaning.Plugins.{language_of};
ghost use Rattle.liquid_parser.specs.steps.Views.{ReadsOn};

use crate::cursor::element::check_element;
use crate::plugin::block::ParseBlock;
use crate::plugin::language::Language;
use crate::plugin::tag::ParseTag;
use crate::reading::advance::advance;
use crate::reading::escape::read_escaped;
use crate::reading::parse::end_reading;
use crate::reading::stack::{Next, ParserState};
use liquid_error::Error;
use liquid_grammar::next_element;
use liquid_plugins::{Node, ParseFilter};
use std::alloc::Global;

/// The number of blocks that are open around what a cursor's elements are parsed into: the cursor's own.
pub(crate) const AROUND: usize = 1;

/// Reads what follows a tag, until no block is open.
pub(crate) fn read_after_tag<'a, 't: 'a, F: ParseFilter, T: ParseTag<F>, B: ParseBlock<F>>(
    alloc: Global,
    source: &'t str,
    text: &'t str,
    state: ParserState<'a, B, B::Plan, Node<F::Filter, T::Node, B::Node>>,
    next: Next<'a, B, B::Plan, Node<F::Filter, T::Node, B::Node>>,
    language: &'a Language<F, T, B>,
) -> Result<(Vec<Node<F::Filter, T::Node, B::Node>>, &'t str), Error>
    ensures value { ReadsOn F.Filter.shape T.Node.shape B.Node.shape B.Plan.shape B.block next.entry state.entry text.now result
        (read_closed (language_of F.makes T.gives B.block language.now) source.now 1) }
    ensures within { IfOk result (λ p. (front : List ℕ) × (text.now ≡ front ++ p.1.now)) }
{
    match next {
        Next::Among => read_until_closed(alloc, source, text, state, language),
        Next::Escaped(block) => {
            let mut state = state;
            let after = read_escaped::<F, T, B>(alloc, source, text, block, &mut state)?;
            read_until_closed(alloc, source, after, state, language)
        }
    }
}

/// Reads the text until no block is open. Returns the nodes then, and what follows.
fn read_until_closed<'a, 't: 'a, F: ParseFilter, T: ParseTag<F>, B: ParseBlock<F>>(
    alloc: Global,
    source: &'t str,
    text: &'t str,
    state: ParserState<'a, B, B::Plan, Node<F::Filter, T::Node, B::Node>>,
    language: &'a Language<F, T, B>,
) -> Result<(Vec<Node<F::Filter, T::Node, B::Node>>, &'t str), Error>
    ensures value { ReadsOn F.Filter.shape T.Node.shape B.Node.shape B.Plan.shape B.block Among state.entry text.now result
        (read_closed (language_of F.makes T.gives B.block language.now) source.now 1) }
    ensures within { IfOk result (λ p. (front : List ℕ) × (text.now ≡ front ++ p.1.now)) }
{
    let mut state = state;
    let mut rest = text;
    'elements: while !state.open.is_empty() {
        match next_element(rest) {
            Some((found, following)) => {
                let element = check_element(alloc, source, rest, found)?;
                rest = advance(
                    alloc, AROUND, source, &mut state, element, following, language,
                )?;
            }
            None => {
                let nodes = end_reading::<F, T, B>(alloc, source, state)?;
                return Ok((nodes, rest));
            }
        }
    }
    Ok((state.nodes, rest))
}
