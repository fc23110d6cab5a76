//! The standard language extends the language of `liquid_tags`.

pub mod laws;

pub use laws::{standard_reads_the_library, standard_runs_the_library};
