//! Decimals: exact numbers with at most 18 digits after the point.
#![tactic(auto)]

mod arithmetic;
mod decimal;
mod division;
pub mod laws;
mod parts;
mod reading;
mod writing;

pub use decimal::Decimal;
