//! Texts as Jekyll's authors write them, in this engine's grammar.
#![tactic(auto)]

mod blank;
mod bodies;
mod laws;
mod literals;
mod names;
mod parameters;
mod pieces;
mod rewriting;
mod source;
mod splits;
mod tags;
mod text;

pub use laws::{pieces_joined_are_the_text, texts_without_names_are_untouched};
pub use source::JekyllSource;
pub use text::jekyll_text;
