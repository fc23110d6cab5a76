//! Sinks, filters, tags, blocks, languages, sources, registers and names for tests.
#![tactic(auto)]

mod asked;
pub mod block_plugins;
pub mod blocks;
pub mod counted;
pub mod counting_source;
pub mod dripping;
pub mod filters;
pub mod hostile;
pub mod languages;
mod laws;
pub mod names;
pub mod nested;
pub mod partial;
pub mod same;
pub mod tag_plugins;
pub mod tags;
pub mod visits;

pub use block_plugins::{Blocks, HostileBlocks};
pub use blocks::{BlockNode, Stage};
pub use counted::Counted;
pub use counting_source::CountingSource;
pub use dripping::Dripping;
pub use filters::{AnyFilter, Append, AppendParameters, Filters};
pub use hostile::{HostileBlockNode, HostileTagNode};
pub use languages::{hostile_language, language, leaky_language};
pub use laws::leak_is_not_discreet;
pub use names::Name;
pub use nested::Nested;
pub use partial::OnePartial;
pub use same::Same;
pub use tag_plugins::{HostileTags, LeakyTags, Tags};
pub use tags::{LeakyTagNode, TagNode};
pub use visits::Visits;
