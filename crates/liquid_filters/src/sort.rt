//! The standard filters that put a list in order.
pub mod laws;
pub mod numbers;
pub mod order;
