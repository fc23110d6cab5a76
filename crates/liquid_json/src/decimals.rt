//! JSON as values, with decimals: a number with a fraction is the text of its decimal.

mod convert;
mod number;
mod read;

pub use number::number_value;
pub use read::object_with_decimals;
