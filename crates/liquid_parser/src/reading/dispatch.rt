//! Classifies a tag: end, divider, tag or block.
ghost use Rattle.std.specs.Prelude.{[], ◌≡◌, ◌∷◌, Ok, IfSome};
ghost use Rattle.liquid_error.specs.meaning.Refusal.{ok_then};
ghost use Rattle.liquid_error.specs.meaning.Told.{told};
ghost use Rattle.liquid_parser.specs.meaning.Plugins.{language_of};
ghost use Rattle.liquid_parser.specs.meaning.Reading.{among, block_begun, closed, outer_read, parted, tag_read, unknown_tag};
ghost use Rattle.liquid_parser.specs.meaning.WholeTag.{IfTag};
ghost use Rattle.liquid_parser.specs.steps.Views.{Steps, StepsInside};

use crate::chain::names::{is_among, list_names};
use crate::cursor::tag::Tag;
use crate::plugin::block::ParseBlock;
use crate::plugin::language::Language;
use crate::plugin::tag::ParseTag;
use crate::reading::place::error_at;
use crate::reading::stack::{Next, ParserState};
use crate::reading::steps::{begin_block, close_block, divide_block, tag_node};
use liquid_error::Error;
use liquid_plugins::{Node, ParseFilter};
use std::alloc::Global;
use std::mem;

/// The greatest number of blocks that may be open at once.
pub const BLOCK_LIMIT: usize = 100;

/// Reads a tag as the innermost block's end, a divider of it, a tag of the language or a block of it: the first of
/// these that it is.
///
/// This many blocks are open around everything that is read.
pub(crate) fn dispatch<'a, F: ParseFilter, T: ParseTag<F>, B: ParseBlock<F>>(
    alloc: Global,
    outside: usize,
    state: &mut ParserState<'a, B, B::Plan, Node<F::Filter, T::Node, B::Node>>,
    tag: Tag<'a>,
    language: &'a Language<F, T, B>,
) -> Result<Next<'a, B, B::Plan, Node<F::Filter, T::Node, B::Node>>, Error>
    ensures { IfTag tag.entry (λ source t. Steps F.Filter.shape T.Node.shape B.Node.shape B.Plan.shape B.block
        state.old state.new result (λ bs ns. tag_read (language_of F.makes T.gives B.block language.now) source outside bs ns t)) }
{
    let kind = match state.open.last() {
        Some(block) => block.kind,
        None => return dispatch_outside(alloc, outside, state, tag, language),
    };
    if tag.name == kind.end_tag() {
        end_block::<F, T, B>(alloc, state, tag)
    } else if is_among(kind.dividers(), tag.name) {
        end_part::<F, T, B>(alloc, state, tag)
    } else {
        dispatch_outside(alloc, outside, state, tag, language)
    }
}

/// Ends the innermost block. The nodes so far are its last part, and it becomes a node of the list that it is in.
fn end_block<'a, F: ParseFilter, T: ParseTag<F>, B: ParseBlock<F>>(
    alloc: Global,
    state: &mut ParserState<'a, B, B::Plan, Node<F::Filter, T::Node, B::Node>>,
    tag: Tag<'a>,
) -> Result<Next<'a, B, B::Plan, Node<F::Filter, T::Node, B::Node>>, Error>
    ensures { IfTag tag.entry (λ source t. StepsInside F.Filter.shape T.Node.shape B.Node.shape B.Plan.shape B.block
        state.old state.new result (λ b bs ns. ok_then (closed source t b ns) (λ after. Ok (among bs after)))) }
{
    match state.open.pop() {
        None => Ok(Next::Among),
        Some(block) => {
            let nodes = mem::replace(&mut state.nodes, Vec::new(alloc));
            state.nodes = close_block::<F, T, B>(alloc, block, nodes, tag)?;
            Ok(Next::Among)
        }
    }
}

/// Ends a part of the innermost block. The nodes so far are that part. The block stays where it is.
fn end_part<'a, F: ParseFilter, T: ParseTag<F>, B: ParseBlock<F>>(
    alloc: Global,
    state: &mut ParserState<'a, B, B::Plan, Node<F::Filter, T::Node, B::Node>>,
    tag: Tag<'a>,
) -> Result<Next<'a, B, B::Plan, Node<F::Filter, T::Node, B::Node>>, Error>
    ensures { IfTag tag.entry (λ source t. StepsInside F.Filter.shape T.Node.shape B.Node.shape B.Plan.shape B.block
        state.old state.new result (λ b bs ns. ok_then (parted source t b ns) (λ divided. Ok (among (divided ∷ bs) [])))) }
{
    match state.open.last_mut() {
        None => Ok(Next::Among),
        Some(block) => {
            let nodes = mem::replace(&mut state.nodes, Vec::new(alloc));
            divide_block::<F, T, B>(alloc, block, nodes, tag)?;
            Ok(Next::Among)
        }
    }
}

/// Reads a tag of the language, otherwise a block of it. Anything else is an error.
fn dispatch_outside<'a, F: ParseFilter, T: ParseTag<F>, B: ParseBlock<F>>(
    alloc: Global,
    outside: usize,
    state: &mut ParserState<'a, B, B::Plan, Node<F::Filter, T::Node, B::Node>>,
    tag: Tag<'a>,
    language: &'a Language<F, T, B>,
) -> Result<Next<'a, B, B::Plan, Node<F::Filter, T::Node, B::Node>>, Error>
    ensures { IfTag tag.entry (λ source t. Steps F.Filter.shape T.Node.shape B.Node.shape B.Plan.shape B.block
        state.old state.new result (outer_read (language_of F.makes T.gives B.block language.now) source outside t)) }
{
    match language.tags.get(tag.name) {
        Some(plug_in) => {
            let node = tag_node::<F, T, B>(alloc, plug_in, tag, &language.filters)?;
            state.nodes.push(node)?;
            Ok(Next::Among)
        }
        None => match language.blocks.get(tag.name) {
            Some(kind) => open_block(alloc, outside, kind, state, tag, language),
            None => Err(unknown_tag_error(alloc, tag, language)),
        },
    }
}

/// Begins a block after the nodes so far, unless too many are open.
fn open_block<'a, F: ParseFilter, T: ParseTag<F>, B: ParseBlock<F>>(
    alloc: Global,
    outside: usize,
    kind: &'a B,
    state: &mut ParserState<'a, B, B::Plan, Node<F::Filter, T::Node, B::Node>>,
    tag: Tag<'a>,
    language: &'a Language<F, T, B>,
) -> Result<Next<'a, B, B::Plan, Node<F::Filter, T::Node, B::Node>>, Error>
    ensures { IfTag tag.entry (λ source t. Steps F.Filter.shape T.Node.shape B.Node.shape B.Plan.shape B.block
        state.old state.new result (block_begun (language_of F.makes T.gives B.block language.now) source outside t (B.block kind.now))) }
{
    if state.open.len() >= BLOCK_LIMIT.saturating_sub(outside) {
        return Err(error_at(alloc, tag.tokens.source, "Nested too deep", tag.from));
    }
    let nodes = mem::replace(&mut state.nodes, Vec::new(alloc));
    let block = begin_block::<F, T, B>(alloc, kind, nodes, tag, &language.filters)?;
    if kind.escapes() {
        return Ok(Next::Escaped(block));
    }
    state.open.push(block)?;
    Ok(Next::Among)
}

/// Returns the error for a tag that the language has neither as a tag nor as a block.
fn unknown_tag_error<F: ParseFilter, T: ParseTag<F>, B: ParseBlock<F>>(
    alloc: Global,
    tag: Tag<'_>,
    language: &Language<F, T, B>,
) -> Error
    ensures { IfTag tag.entry (λ source t. IfSome (told result)
        (λ r. r ≡ unknown_tag (language_of F.makes T.gives B.block language.now) source t)) }
{
    let tags = match list_names(alloc, &language.tags) {
        Ok(names) => names,
        Err(_) => return Error::Memory,
    };
    let blocks = match list_names(alloc, &language.blocks) {
        Ok(names) => names,
        Err(_) => return Error::Memory,
    };
    error_at(alloc, tag.tokens.source, "Unknown tag.", tag.from)
        .context(alloc, "requested", tag.name)
        .context(alloc, "available tags", tags.as_str())
        .context(alloc, "available blocks", blocks.as_str())
}
