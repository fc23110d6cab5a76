//! Tags that write a text. Each kind of such a tag is a name, its parameters and one function of the values of its
//! arguments.

pub mod kind;
pub mod node;
pub mod plugin;

pub use kind::{TagAnswer, TextTag};
pub use node::TextTagNode;
pub use plugin::TextTagPlugin;
