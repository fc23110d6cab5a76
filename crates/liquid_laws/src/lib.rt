//! Laws of the standard language, each as the contract of a function: it extends the language of `liquid_tags`, and what its
//! loops and tables go over and write.
#![tactic(auto)]

pub mod loops;
pub mod superset;
