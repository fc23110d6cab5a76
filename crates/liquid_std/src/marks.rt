//! The tags and blocks that keep marks between their turns: `cycle` and `ifchanged`, and the register that holds the marks.
pub mod changed;
pub mod cycle;
pub mod groups;
pub mod holder;
pub mod laws;
pub mod marks;
pub mod places;

pub use changed::changed_turn;
pub use cycle::{Cycle, cycle_turn};
pub use groups::Group;
pub use holder::HoldsMarks;
pub use laws::groups_have_keys_of_their_own;
pub use marks::Marks;
