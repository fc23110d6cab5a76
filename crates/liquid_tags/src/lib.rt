//! A small library of tags and blocks: `assign`, `increment`, `break`, `continue`, `include`, `render`, `if`, `for` and
//! `raw`.
#![tactic(auto)]

pub mod asked;
mod assign;
pub mod block_plugins;
pub mod blocks;
pub mod for_block;
pub mod if_block;
pub mod increment;
mod languages;
pub mod laws;
pub mod names;
mod pages;
pub mod partial_call;
pub mod tag_plugins;
pub mod tags;

pub use block_plugins::{BlockPlan, Blocks};
pub use blocks::{BlockNode, BlockProgress};
pub use for_block::items::{ArrayItems, Items, RangeItems};
pub use for_block::rounds::Rounds;
pub use for_block::series::Series;
pub use if_block::condition::{Comparison, Condition};
pub use languages::language;
pub use laws::{library_is_isolated, loop_renders_each_item, outsides_agree_on_the_library};
pub use pages::render_page;
pub use partial_call::call::{Call, Inclusion};
pub use tag_plugins::Tags;
pub use tags::TagNode;
