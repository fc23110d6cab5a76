//! Views: what a template can read of any value of the program, without a copy of it.
#![tactic(auto)]

mod array;
mod build;
mod dates;
mod hash_map;
mod index;
mod kind;
pub mod laws;
mod numbers;
mod object;
mod scalars;
mod values;
pub mod view;

pub use array::ArrayView;
pub use build::{array_of, object_of, scalar_of};
pub use index::ObjectIndex;
pub use kind::ViewKind;
pub use object::{ObjectRender, ObjectSource, ObjectView};
pub use view::{ValueView, ViewRender, ViewSource};
