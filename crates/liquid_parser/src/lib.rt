//! The parser: from the text of a template to its nodes.
#![tactic(auto)]

mod chain;
mod cursor;
mod plugin;
mod reading;

pub use chain::variable::parse_variable;
pub use cursor::block::TagBlock;
pub use cursor::element::{BlockElement, Exp, InvalidLiquidToken, Raw};
pub use cursor::tag::Tag;
pub use cursor::token::{TagToken, TryMatchToken};
pub use cursor::tokens::TagTokenIter;
pub use liquid_plugins::{BRIEF_LIMIT, Brief, Node};
pub use plugin::block::{BlockBody, BlockReflection, ParseBlock};
pub use plugin::language::Language;
pub use plugin::none::NoPlugin;
pub use plugin::tag::{ParseTag, TagReflection};
pub use reading::dispatch::BLOCK_LIMIT;
pub use reading::parse::{one_reading, parse};
