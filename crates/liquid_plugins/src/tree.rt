//! The nodes of a template.

use crate::expression::FilterChain;
use arrayvec::ArrayString;

/// The greatest number of bytes of a text or a name that is stored in its node. A node is no larger for it: a chain
/// takes as much.
pub const BRIEF_LIMIT: usize = 80;

/// A text or a name that is stored in its node, so that it takes no memory of its own.
pub type Brief = ArrayString<80>;

/// A part of a template that is rendered by itself. `X` is the type of the filters of its chains, `T` of what tags are
/// made into, and `B` of what blocks are made into.
///
/// All but texts have their position, for errors: how many bytes of the template are left where the expression, or the
/// name of the tag or block, begins. `0` is a position that is not known.
#[derive(Drop)]
pub enum Node<X, T, B> {
    /// Text that is written unchanged.
    Text(String),
    /// Short text that is written unchanged.
    Brief(Brief),
    /// The variable of a short name, without indexes and filters.
    Name(u32, Brief),
    /// An expression, and the filters that its value goes through.
    Chain(u32, FilterChain<X>),
    /// What a tag made from its tokens.
    Tag(u32, T),
    /// What a block made from its tokens, with its parts.
    Block(u32, B, Vec<Vec<Node<X, T, B>>>),
}

impl<X, T, B> Node<X, T, B> {
    /// Returns how many bytes of the template are left where the node begins, or `0` if that is not known.
    pub fn left(&self) -> u32 {
        match self {
            Node::Text(_) | Node::Brief(_) => 0,
            Node::Name(left, _) => *left,
            Node::Chain(left, _) => *left,
            Node::Tag(left, _) => *left,
            Node::Block(left, _, _) => *left,
        }
    }
}

/// Returns how many bytes this rest of a template has, as a node keeps it: `0` if they are too many.
#[inline(always)]
pub fn left_of(rest: &str) -> u32 {
    match u32::try_from(rest.len()) {
        Ok(left) => left,
        Err(_) => 0,
    }
}
