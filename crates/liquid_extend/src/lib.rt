//! What a host needs to extend a language: plug-ins beside those of a library, blocks that change their text, tags that
//! write a text, arguments of tags.
#![tactic(auto)]

pub mod arguments;
pub mod beside;
pub mod text_blocks;
pub mod text_tags;

pub use arguments::{read_arguments, read_pairs};
pub use beside::one_of::Beside;
pub use text_blocks::kind::TextBlock;
pub use text_blocks::node::TextBlockNode;
pub use text_blocks::plugin::TextBlockPlugin;
pub use text_tags::{TagAnswer, TextTag, TextTagNode, TextTagPlugin};
