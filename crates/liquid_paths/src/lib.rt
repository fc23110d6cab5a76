//! Paths of indexes, and what they lead to in a value.
#![tactic(auto)]

mod laws;
mod path;
mod steps;
mod walks;

pub use laws::find_agrees_with_try_find;
pub use path::{Path, PathIter, PathText};
pub use steps::{own_part, step};
pub use walks::{find, find_after, try_find};
