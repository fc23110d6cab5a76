//! Loops with options: the items that `for` and `tablerow` go over, and their turns.
mod cells;
pub mod loops;
pub mod options;
pub mod picked;
pub mod read_loop;
pub mod rounds;
pub mod scalars;
pub mod tables;

pub use loops::{Loop, picked_items};
pub use options::{LoopBlock, LoopOption, Options};
pub use picked::Picked;
pub use rounds::{Rounds, loop_turn, rounds_over};
pub use scalars::OverScalar;
pub use tables::{Table, table_over, table_turn};
