//! Files and folders by their paths: those of the machine, and others in memory.
#![tactic(auto)]

pub mod folder;
pub mod in_memory;
pub mod machine;
mod tree;

pub use folder::{Folder, Unread, Why};
pub use in_memory::InMemoryFolder;
pub use machine::Machine;
