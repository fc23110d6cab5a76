//! The renderer for C: pages into the caller's memory. `liquid_static` exports its calls.
#![tactic(auto)]

pub mod each;
mod jekyll;
pub mod languages;
mod moments;
pub mod page;
mod places;
pub mod rendering;
mod repeated;
