//! The tags `include` and `render`: the call of a partial, and how it is read.

pub mod call;
pub(crate) mod read_call;
