//! Jekyll's filters: those that are functions of values, in a table beside the standard ones, and those that read names.
#![tactic(auto)]

pub mod date_kinds;
pub mod dates;
mod inspection;
pub mod kinds;
pub mod list;
pub mod list_kinds;
pub mod named;
mod parameters;
pub mod plugin;
mod rendered;
mod seen;
pub mod table;
pub mod text;
pub mod text_kinds;
pub mod url;
pub mod value;

pub use date_kinds::JekyllDateKind;
pub use dates::DateForm;
pub use kinds::JekyllKind;
pub use list_kinds::JekyllListKind;
pub use named::NamedKind;
pub use plugin::{JekyllFilter, JekyllPlugin};
pub use table::filters;
pub use text_kinds::JekyllTextKind;
