//! Moments: the date times that values mean. The filter `date` prints them.
#![tactic(auto)]

mod clock_text;
mod day_text;
mod digits;
pub mod errors;
mod fields;
pub mod laws;
mod moment_text;
pub mod moments;
mod names;

pub use errors::pattern_error;
pub use moments::moment_of;
