//! The standard language with a host's own tags and blocks.
#![tactic(auto)]

pub mod languages;

pub use languages::language_beside;
