//! Jekyll's tags and blocks: inclusions of partials, URLs of the site's files, and code.
#![tactic(auto)]

pub mod blocks;
pub mod files;
pub mod highlight;
pub mod inclusion;
pub mod links;
pub mod plugin;
pub mod reading;
mod seen;

pub use blocks::JekyllBlocks;
pub use highlight::Highlight;
pub use inclusion::JekyllInclusion;
pub use links::{JekyllLink, JekyllLinks};
pub use plugin::JekyllTags;
