//! What the standard filters read of a value: its items, its number, its decimal, a property; and their errors.
pub mod decimals;
pub mod errors;
pub mod items;
pub mod numbers;
pub mod parts;
