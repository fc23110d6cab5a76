//! Pages: a template's text, rendered over globals from JSON and named partials, in any language whose tags and blocks
//! may be rendered in a sandbox.
#![tactic(auto)]

pub mod fault;
pub mod gate;
pub mod gather;
pub mod globals;
pub mod options;
pub mod page;
pub mod prepared;
pub mod rendered;
pub mod rendering;
mod within;

pub use fault::{PageFault, PageText};
pub use gate::PageLimit;
pub use gather::PartialBytes;
pub use globals::globals_of;
pub use liquid_runtime::Leniency;
pub use options::{PageFrame, PageOptions};
pub use page::render_page;
pub use prepared::{PreparedPage, prepare_page, render_prepared};
pub use rendered::Rendered;
pub use rendering::{PageTemplate, read_template, render_over_store, render_template, render_text};
