//! Blocks that transform the text of their body. Each kind of such a block is its names and one function of a text.

pub mod kind;
pub mod node;
pub mod plugin;
