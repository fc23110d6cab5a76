//! The standard filters on lists.
pub mod choices;
mod decimal_sums;
pub mod keys;
pub mod laws;
pub mod lists;
pub mod searches;
pub mod sums;
