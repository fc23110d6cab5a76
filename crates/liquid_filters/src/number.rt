//! The standard filters on numbers.
pub mod arithmetic;
mod digits;
mod division;
pub mod laws;
mod rounding;
pub mod single;
pub mod units;
