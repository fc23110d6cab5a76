//! Expressions and their filters, built from their text.

pub(crate) mod arguments;
pub(crate) mod build;
pub(crate) mod fast_path;
pub(crate) mod filters;
pub(crate) mod names;
pub(crate) mod variable;
