//! Values of Liquid templates, the texts that they render as, and their loose comparison.
#![tactic(auto)]

mod clone;
pub mod compare;
pub mod contents;
pub mod cow;
mod from;
pub mod laws;
pub mod loose;
pub mod map;
pub mod order;
pub mod render;
pub mod shared_array;
pub mod shared_object;
pub mod state;
pub mod steps;
mod strict;
pub mod value;

pub use compare::ValueViewCmp;
pub use cow::ValueCow;
pub use shared_array::SharedArray;
pub use shared_object::SharedObject;
pub use state::State;
pub use value::{Array, Object, Value};
