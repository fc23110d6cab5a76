//! JSON as values of templates, and values as JSON.
#![tactic(auto)]

mod build;
mod convert;
pub mod decimals;
mod read;
mod scalar;
mod write;

pub use convert::{into_object, into_value, to_object, to_value};
pub use decimals::object_with_decimals;
pub use read::object_from_str;
pub use scalar::to_scalar;
pub use write::from_value;
