//! Calls of partials with a value: their reading, and the turns in which they render.
pub mod calls;
pub mod pairs;
pub mod passed;
pub mod read_call;
pub mod rounds;

pub use calls::{Manner, PartialCall};
pub use read_call::ReadCall;
pub use rounds::{CallRounds, call_rounds, call_turn};
