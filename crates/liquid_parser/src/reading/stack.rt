//! What the parser keeps of the blocks that are open.

/// A block that is open.
#[derive(Drop)]
pub(crate) struct OpenBlock<'a, K, P, N> {
    pub(crate) kind: &'a K,
    /// The source of its start tag.
    pub(crate) source: &'a str,
    /// The text from the name of its start tag on.
    pub(crate) from: &'a str,
    pub(crate) plan: P,
    /// The nodes before it in the list that it is in.
    pub(crate) before: Vec<N>,
    /// Its parts up to its last divider.
    pub(crate) parts: Vec<Vec<N>>,
}

/// How far a text is read: the open blocks, innermost last, and the nodes of the innermost list so far.
#[derive(Drop)]
pub(crate) struct ParserState<'a, K, P, N> {
    pub(crate) open: Vec<OpenBlock<'a, K, P, N>>,
    pub(crate) nodes: Vec<N>,
}

/// What an element leads to: its nodes are in the state, or the escaped body of a block that has just begun comes next.
/// The blocks around that one are the state's.
#[derive(Drop)]
pub(crate) enum Next<'a, K, P, N> {
    Among,
    Escaped(OpenBlock<'a, K, P, N>),
}
