//! The block `if`: its conditions, and how they are read.

pub mod condition;
pub mod read_condition;
