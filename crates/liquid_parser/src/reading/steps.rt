//! Beginning, dividing and ending a block, and the node of a tag.
ghost use Rattle.std.specs.Prelude.{[]};
ghost use Rattle.liquid_error.specs.meaning.Told.{Gives};
ghost use Rattle.liquid_parser.specs.meaning.Lang.{escaped};
ghost use Rattle.liquid_plugins.specs.meaning.NodesOf.{node_of, shapes_of};
ghost use Rattle.liquid_parser.specs.meaning.Plugins.{registry_of};
ghost use Rattle.liquid_parser.specs.meaning.Reading.{begun, closed, finished, parted, tag_given};
ghost use Rattle.liquid_parser.specs.meaning.WholeTag.{IfTag};
ghost use Rattle.liquid_parser.specs.steps.Views.{open_view, Opens, Divides, Closes};

use crate::cursor::tag::Tag;
use crate::plugin::block::{BlockBody, ParseBlock};
use crate::plugin::tag::ParseTag;
use crate::reading::place::place_in;
use crate::reading::stack::OpenBlock;
use liquid_error::Error;
use liquid_plugins::{Node, ParseFilter, PluginRegistry, left_of};
use std::alloc::Global;

/// Returns the node of a tag.
pub(crate) fn tag_node<F: ParseFilter, T: ParseTag<F>, B: ParseBlock<F>>(
    alloc: Global,
    plug_in: &T,
    tag: Tag<'_>,
    filters: &PluginRegistry<F>,
) -> Result<Node<F::Filter, T::Node, B::Node>, Error>
    ensures { IfTag tag.entry (λ source t. Gives (node_of F.Filter.shape T.Node.shape B.Node.shape) result
        (tag_given source t (registry_of F.makes filters.now) (T.gives plug_in.now))) }
{
    match plug_in.parse(alloc, tag.tokens, filters) {
        Ok(made) => Ok(Node::Tag(left_of(tag.from), made)),
        Err(error) => Err(error.or_place(place_in(tag.tokens.source, tag.from))),
    }
}

/// Begins a block after these nodes.
pub(crate) fn begin_block<'a, F: ParseFilter, T: ParseTag<F>, B: ParseBlock<F>>(
    alloc: Global,
    kind: &'a B,
    nodes: Vec<Node<F::Filter, T::Node, B::Node>>,
    tag: Tag<'a>,
    filters: &PluginRegistry<F>,
) -> Result<OpenBlock<'a, B, B::Plan, Node<F::Filter, T::Node, B::Node>>, Error>
    ensures { IfTag tag.entry (λ source t. Opens F.Filter.shape T.Node.shape B.Node.shape B.Plan.shape B.block nodes.items result
        (begun source t (registry_of F.makes filters.now) (B.block kind.now))) }
{
    match kind.begin(alloc, tag.tokens, filters) {
        Ok(plan) => Ok(OpenBlock {
            kind,
            source: tag.tokens.source,
            from: tag.from,
            plan,
            before: nodes,
            parts: Vec::new(alloc),
        }),
        Err(error) => Err(error.or_place(place_in(tag.tokens.source, tag.from))),
    }
}

/// Ends a part of a block at a divider.
pub(crate) fn divide_block<'a, F: ParseFilter, T: ParseTag<F>, B: ParseBlock<F>>(
    alloc: Global,
    block: &mut OpenBlock<'a, B, B::Plan, Node<F::Filter, T::Node, B::Node>>,
    nodes: Vec<Node<F::Filter, T::Node, B::Node>>,
    tag: Tag<'_>,
) -> Result<(), Error>
    ensures { IfTag tag.entry (λ source t. Divides F.Filter.shape T.Node.shape B.Node.shape B.Plan.shape B.block
        block.old block.new nodes.items result (parted source t)) }
{
    match block
        .kind
        .divide(alloc, &mut block.plan, tag.name, tag.tokens)
    {
        Ok(()) => {
            block.parts.push(nodes)?;
            Ok(())
        }
        Err(error) => Err(error.or_place(place_in(tag.tokens.source, tag.from))),
    }
}

/// Ends a block. Returns the nodes of the list that it is in, with its own as the last.
pub(crate) fn close_block<'a, F: ParseFilter, T: ParseTag<F>, B: ParseBlock<F>>(
    alloc: Global,
    block: OpenBlock<'a, B, B::Plan, Node<F::Filter, T::Node, B::Node>>,
    nodes: Vec<Node<F::Filter, T::Node, B::Node>>,
    tag: Tag<'_>,
) -> Result<Vec<Node<F::Filter, T::Node, B::Node>>, Error>
    ensures { IfTag tag.entry (λ source t. Closes F.Filter.shape T.Node.shape B.Node.shape B.Plan.shape B.block
        block.entry nodes.items result (closed source t)) }
{
    tag.tokens.expect_nothing(alloc)?;
    let OpenBlock {
        kind,
        source,
        from,
        plan,
        mut before,
        mut parts,
    } = block;
    parts.push(nodes)?;
    match kind.finish(alloc, plan, BlockBody::Parts(parts.len())) {
        Ok(made) => {
            before.push(Node::Block(left_of(from), made, parts))?;
            Ok(before)
        }
        Err(error) => Err(error.or_place(place_in(source, from))),
    }
}

/// Ends a block with an escaped body of this text. Returns the nodes of the list that it is in, with its own as the
/// last.
pub(crate) fn close_escaped<'a, F: ParseFilter, T: ParseTag<F>, B: ParseBlock<F>>(
    alloc: Global,
    block: OpenBlock<'a, B, B::Plan, Node<F::Filter, T::Node, B::Node>>,
    text: &str,
) -> Result<Vec<Node<F::Filter, T::Node, B::Node>>, Error>
    ensures { Gives (λ v. shapes_of F.Filter.shape T.Node.shape B.Node.shape v.items) result
        (finished (open_view F.Filter.shape T.Node.shape B.Node.shape B.Plan.shape B.block block.entry) (escaped text.now) []) }
{
    let OpenBlock {
        kind,
        source,
        from,
        plan,
        mut before,
        parts,
    } = block;
    drop(parts);
    match kind.finish(alloc, plan, BlockBody::Escaped(text)) {
        Ok(made) => {
            before.push(Node::Block(left_of(from), made, Vec::new(alloc)))?;
            Ok(before)
        }
        Err(error) => Err(error.or_place(place_in(source, from))),
    }
}
