//! The renderer's cycle.
//!
//! It keeps no more across a call than the next turn needs. A value of a turn, an error or a frame is made, used and
//! dropped in functions that return before the cycle continues, so that a level of nesting takes little native stack.
ghost use Rattle.std.specs.Prelude.{◌≡◌, ◌<◌, IsOk};
ghost use Rattle.liquid_template.specs.meaning.Opens.{OpenNone};
ghost use Rattle.liquid_template.specs.steps.Keeps.{Keeps};
ghost use Rattle.liquid_template.specs.steps.OfNodes.{BlockTakes, TagTakes, block_of, list_of, one_of, part_of, partial_of, tag_of};
ghost use Rattle.liquid_template.specs.steps.Outs.{RendersOut};
ghost use Rattle.liquid_template.specs.steps.Place.{around};

use crate::end::{drop_partial, end_captured, end_partial, end_turn, open_text};
use crate::outlet::Out;
use crate::put::{put_chain, put_name, put_text};
use crate::start::{Going, drop_going, start_boxed, start_node};
use crate::store::PartialStore;
use crate::template::Template;
use crate::trace::locate;
use crate::turn::{Step, take_turn};
use liquid_error::Error;
use liquid_plugins::{Filter, Node, Renderable};
use liquid_runtime::Scopes;
use std::alloc::Global;
use std::rc::Rc;

/// Renders nodes, up to an error or an interrupt.
#[cycle(render)]
pub(crate) fn render_list<X, T, B, S, O>(
    alloc: Global,
    nodes: &[Node<X, T, B>],
    depth: u32,
    out: &mut O,
    scopes: &mut S,
    answer: &mut Result<(), Error>,
)
where
    X: Filter,
    S: Scopes,
    T: Renderable<S::Register>,
    B: Renderable<S::Register>,
    S::Store: PartialStore<X, T, B>,
    O: Out,
    requires { IsOk answer.old }
    ensures renders { RendersOut S.view O.place
        (list_of S.Register.fresh X.Filter T.Renderable B.Renderable S.Store.finds (S.store scopes.old) depth nodes.now)
        scopes.old scopes.new out.old out.new answer.new }
    ensures owes { S.restores scopes.new ≡ S.restores scopes.old }
    ensures keeps { Keeps (OpenNone T.means B.means) S.store S.lent S.Store.finds depth scopes.old scopes.new }
    ensures around { around (O.place out.new) ≡ around (O.place out.old) }
{
    for node in nodes {
        render_node(alloc, node, depth, out, scopes, answer);
        match answer {
            Ok(()) => {}
            Err(_) => {
                locate(answer, node.left());
                return;
            }
        }
        if scopes.registers().interrupt.interrupted() {
            return;
        }
    }
}

/// Renders a node.
#[cycle(render)]
fn render_node<X, T, B, S, O>(
    alloc: Global,
    node: &Node<X, T, B>,
    depth: u32,
    out: &mut O,
    scopes: &mut S,
    answer: &mut Result<(), Error>,
)
where
    X: Filter,
    S: Scopes,
    T: Renderable<S::Register>,
    B: Renderable<S::Register>,
    S::Store: PartialStore<X, T, B>,
    O: Out,
    requires { IsOk answer.old }
    ensures renders { RendersOut S.view O.place
        (one_of S.Register.fresh X.Filter T.Renderable B.Renderable S.Store.finds (S.store scopes.old) depth node.now)
        scopes.old scopes.new out.old out.new answer.new }
    ensures owes { S.restores scopes.new ≡ S.restores scopes.old }
    ensures keeps { Keeps (OpenNone T.means B.means) S.store S.lent S.Store.finds depth scopes.old scopes.new }
    ensures around { around (O.place out.new) ≡ around (O.place out.old) }
{
    match node {
        Node::Text(text) => put_text(alloc, text.as_str(), out, answer),
        Node::Brief(text) => put_text(alloc, text.as_str(), out, answer),
        Node::Name(_, name) => put_name::<X, S, O>(alloc, name.as_str(), out, scopes, answer),
        Node::Chain(_, chain) => put_chain(alloc, chain, out, scopes, answer),
        Node::Tag(_, tag) => render_tag(alloc, tag, depth, out, scopes, answer),
        Node::Block(_, block, parts) => {
            render_block(alloc, block, parts, depth, out, scopes, answer)
        }
    }
}

/// Renders a tag's node, which has no parts. Tags open only partials, so what they keep needs no box.
#[cycle(render)]
#[inline(never)]
fn render_tag<X, T, B, S, O>(
    alloc: Global,
    tag: &T,
    depth: u32,
    out: &mut O,
    scopes: &mut S,
    answer: &mut Result<(), Error>,
)
where
    X: Filter,
    S: Scopes,
    T: Renderable<S::Register>,
    B: Renderable<S::Register>,
    S::Store: PartialStore<X, T, B>,
    O: Out,
    requires { IsOk answer.old }
    ensures renders { RendersOut S.view O.place
        (tag_of S.Register.fresh X.Filter T.Renderable B.Renderable S.Store.finds (S.store scopes.old) depth tag.now)
        scopes.old scopes.new out.old out.new answer.new }
    ensures owes { S.restores scopes.new ≡ S.restores scopes.old }
    ensures keeps { Keeps (OpenNone T.means B.means) S.store S.lent S.Store.finds depth scopes.old scopes.new }
    ensures around { around (O.place out.new) ≡ around (O.place out.old) }
{
    let mut going = match start_node(alloc, tag, scopes, answer) {
        Some(going) => going,
        None => return,
    };
    for _ in 0..T::turns(&going.progress) {
        if !take_tag(alloc, tag, &mut going, depth, out, scopes, answer) {
            return;
        }
    }
}

/// Takes a tag's turn, and returns whether the others follow.
#[cycle(render)]
fn take_tag<X, T, B, S, O>(
    alloc: Global,
    tag: &T,
    going: &mut Going<T::Progress>,
    depth: u32,
    out: &mut O,
    scopes: &mut S,
    answer: &mut Result<(), Error>,
) -> bool
where
    X: Filter,
    S: Scopes,
    T: Renderable<S::Register>,
    B: Renderable<S::Register>,
    S::Store: PartialStore<X, T, B>,
    O: Out,
    requires { IsOk answer.old }
    ensures takes { TagTakes S.Register.fresh X.Filter T.Renderable B.Renderable S.Store.finds (S.store scopes.old) depth
        S.view O.place T.Progress.shape tag.now going.old going.new scopes.old scopes.new out.old out.new answer.new result }
    ensures owes { S.restores scopes.new ≡ S.restores scopes.old }
    ensures keeps { Keeps (OpenNone T.means B.means) S.store S.lent S.Store.finds depth scopes.old scopes.new }
    ensures around { around (O.place out.new) ≡ around (O.place out.old) }
{
    match take_turn(alloc, tag, going, depth, out, scopes, answer) {
        Step::Stop => false,
        Step::Next => true,
        Step::Part(_) => end_turn(alloc, tag, going, scopes, answer),
        Step::Captured(_) => {
            let goes_on = end_turn(alloc, tag, going, scopes, answer);
            if goes_on {
                tag.caught(&mut going.progress, String::new(alloc));
            }
            goes_on
        }
        Step::Partial(template) => {
            render_partial(alloc, template, depth, out, scopes, answer);
            end_partial(alloc, tag, going, scopes, answer)
        }
    }
}

/// Renders a block's node.
#[cycle(render)]
fn render_block<X, T, B, S, O>(
    alloc: Global,
    block: &B,
    parts: &[Vec<Node<X, T, B>>],
    depth: u32,
    out: &mut O,
    scopes: &mut S,
    answer: &mut Result<(), Error>,
)
where
    X: Filter,
    S: Scopes,
    T: Renderable<S::Register>,
    B: Renderable<S::Register>,
    S::Store: PartialStore<X, T, B>,
    O: Out,
    requires { IsOk answer.old }
    ensures renders { RendersOut S.view O.place
        (block_of S.Register.fresh X.Filter T.Renderable B.Renderable S.Store.finds (S.store scopes.old) depth block.now parts.now)
        scopes.old scopes.new out.old out.new answer.new }
    ensures owes { S.restores scopes.new ≡ S.restores scopes.old }
    ensures keeps { Keeps (OpenNone T.means B.means) S.store S.lent S.Store.finds depth scopes.old scopes.new }
    ensures around { around (O.place out.new) ≡ around (O.place out.old) }
{
    let mut going = match start_boxed(alloc, block, scopes, answer) {
        Some(going) => going,
        None => return,
    };
    for _ in 0..B::turns(&going.progress) {
        if !take_block(alloc, block, parts, &mut going, depth, out, scopes, answer) {
            drop_going(going);
            return;
        }
    }
    drop_going(going);
}

/// Takes a block's turn, and returns whether the others follow.
#[cycle(render)]
fn take_block<X, T, B, S, O>(
    alloc: Global,
    block: &B,
    parts: &[Vec<Node<X, T, B>>],
    going: &mut Going<B::Progress>,
    depth: u32,
    out: &mut O,
    scopes: &mut S,
    answer: &mut Result<(), Error>,
) -> bool
where
    X: Filter,
    S: Scopes,
    T: Renderable<S::Register>,
    B: Renderable<S::Register>,
    S::Store: PartialStore<X, T, B>,
    O: Out,
    requires { IsOk answer.old }
    ensures takes { BlockTakes S.Register.fresh X.Filter T.Renderable B.Renderable S.Store.finds (S.store scopes.old) depth
        S.view O.place B.Progress.shape block.now parts.now going.old going.new
        scopes.old scopes.new out.old out.new answer.new result }
    ensures owes { S.restores scopes.new ≡ S.restores scopes.old }
    ensures keeps { Keeps (OpenNone T.means B.means) S.store S.lent S.Store.finds depth scopes.old scopes.new }
    ensures around { around (O.place out.new) ≡ around (O.place out.old) }
{
    match take_turn(alloc, block, going, depth, out, scopes, answer) {
        Step::Stop => false,
        Step::Next => true,
        Step::Part(place) => {
            render_part(alloc, parts, place, depth, out, scopes, answer);
            end_turn(alloc, block, going, scopes, answer)
        }
        Step::Captured(place) => {
            open_text(alloc, going, out);
            render_part(alloc, parts, place, depth, out, scopes, answer);
            end_captured(alloc, block, going, out, scopes, answer)
        }
        Step::Partial(template) => {
            render_partial(alloc, template, depth, out, scopes, answer);
            end_partial(alloc, block, going, scopes, answer)
        }
    }
}

/// Renders a part, if there is one with that number.
#[cycle(render)]
fn render_part<X, T, B, S, O>(
    alloc: Global,
    parts: &[Vec<Node<X, T, B>>],
    place: u64,
    depth: u32,
    out: &mut O,
    scopes: &mut S,
    answer: &mut Result<(), Error>,
)
where
    X: Filter,
    S: Scopes,
    T: Renderable<S::Register>,
    B: Renderable<S::Register>,
    S::Store: PartialStore<X, T, B>,
    O: Out,
    requires { IsOk answer.old }
    ensures renders { RendersOut S.view O.place
        (part_of S.Register.fresh X.Filter T.Renderable B.Renderable S.Store.finds (S.store scopes.old) depth parts.now place)
        scopes.old scopes.new out.old out.new answer.new }
    ensures owes { S.restores scopes.new ≡ S.restores scopes.old }
    ensures keeps { Keeps (OpenNone T.means B.means) S.store S.lent S.Store.finds depth scopes.old scopes.new }
    ensures around { around (O.place out.new) ≡ around (O.place out.old) }
{
    match parts.get(place as usize) {
        Some(nodes) => render_list(alloc, nodes, depth, out, scopes, answer),
        None => {}
    }
}

/// Renders a partial. One less may be nested in it.
#[cycle(render)]
fn render_partial<X, T, B, S, O>(
    alloc: Global,
    template: Rc<Template<X, T, B>>,
    depth: u32,
    out: &mut O,
    scopes: &mut S,
    answer: &mut Result<(), Error>,
)
where
    X: Filter,
    S: Scopes,
    T: Renderable<S::Register>,
    B: Renderable<S::Register>,
    S::Store: PartialStore<X, T, B>,
    O: Out,
    requires more { 0 < depth }
    requires no_error { IsOk answer.old }
    ensures renders { RendersOut S.view O.place
        (partial_of S.Register.fresh X.Filter T.Renderable B.Renderable S.Store.finds (S.store scopes.old) depth template.value)
        scopes.old scopes.new out.old out.new answer.new }
    ensures owes { S.restores scopes.new ≡ S.restores scopes.old }
    ensures keeps { Keeps (OpenNone T.means B.means) S.store S.lent S.Store.finds depth scopes.old scopes.new }
    ensures around { around (O.place out.new) ≡ around (O.place out.old) }
{
    render_list(alloc, template.nodes(), depth - 1, out, scopes, answer);
    drop_partial(template);
}
