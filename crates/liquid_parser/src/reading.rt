//! The parsing of a text, from element to node.

pub(crate) mod advance;
pub(crate) mod closing;
pub(crate) mod dispatch;
pub(crate) mod escape;
pub(crate) mod parse;
pub(crate) mod place;
pub(crate) mod stack;
pub(crate) mod steps;
