//! Dates and date times of Liquid templates: their parts, their texts, and `strftime` patterns.
#![tactic(auto)]

mod composites;
mod date;
mod date_text;
mod date_time;
mod date_time_text;
mod directive;
mod directive_text;
mod error;
mod flags;
mod format;
mod laws;
mod names;
mod numbers;
mod offset_text;
mod pattern;
mod printed;
mod reading;
mod stamps;
mod writing;

pub use date::Date;
pub use date_time::DateTime;
pub use error::{DateError, DateFormatError};
pub use laws::{
    patterns_have_one_reading, printed_date_times_are_read_back, printed_dates_are_read_back,
};
