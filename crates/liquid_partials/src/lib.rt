//! From texts to written bytes: sources of partials, the stores that are compiled from them, and the rendering of a
//! text in one call.
#![tactic(auto)]

mod compiler;
mod eager;
mod in_memory;
mod laws;
mod lazy;
mod on_demand;
mod pages;
mod readings;
mod rendering;
mod source;
mod texts;

pub use crate::compiler::PartialCompiler;
pub use crate::eager::{EagerCompiler, EagerStore};
pub use crate::in_memory::InMemorySource;
pub use crate::laws::{few_readings, one_store, stores_agree};
pub use crate::lazy::{LazyCompiler, LazyStore};
pub use crate::on_demand::{OnDemandCompiler, OnDemandStore};
pub use crate::pages::render_page_in;
pub use crate::rendering::render_source;
pub use crate::source::PartialSource;
