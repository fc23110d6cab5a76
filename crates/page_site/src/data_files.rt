//! The data of pages: texts of JSON, TOML and CSV as objects, and objects put together.

mod assign;
mod entry;
mod fault;
mod join;
mod json_cause;
mod read;
mod rows;
mod tables;

pub use assign::{SetFault, set_member};
pub use fault::DataFault;
pub use join::{merge, under};
pub use read::{Format, read_data};
