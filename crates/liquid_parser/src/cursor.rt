//! What a plug-in is given: tags, tokens, and the elements of a block.

pub(crate) mod block;
pub(crate) mod element;
pub(crate) mod tag;
pub(crate) mod token;
pub(crate) mod tokens;
