//! The tags and blocks of standard Liquid, over those of `liquid_tags`.
#![tactic(auto)]

pub mod block_plugins;
pub mod blocks;
mod calls;
mod capture;
mod case;
mod conditionals;
pub mod conditions;
mod cycle;
mod decrement;
mod echo;
pub mod inclusion;
mod isolated;
pub mod iteration;
mod languages;
pub mod laws;
mod loops;
pub mod marks;
mod pages;
pub mod tag_plugins;
pub mod tags;

pub use block_plugins::{StdBlocks, StdPlan};
pub use blocks::{StdBlock, StdProgress};
pub use languages::language;
pub use laws::{outsides_agree_on_the_standard, standard_is_isolated};
pub use pages::render_page;
pub use tag_plugins::StdTags;
pub use tags::{StdTag, StdTagProgress};
