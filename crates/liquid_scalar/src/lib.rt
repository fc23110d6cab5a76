//! Scalar values of Liquid templates.
#![tactic(auto)]

pub mod scalar;

pub use scalar::{Scalar, ScalarCow, ScalarOf, ScalarRender, ScalarSource, ScalarText};
