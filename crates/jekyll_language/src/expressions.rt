//! Jekyll's filters with an expression in a text, `where_exp`, `find_exp` and `group_by_exp`, beside its other filters.

mod chains;
pub mod grouping;
mod items;
pub mod kinds;
mod names;
pub mod plugin;
mod read_only;
mod reading;
pub mod table;

pub use grouping::{GroupCall, GroupPlugin};
pub use kinds::{ExpressionCall, ExpressionKind};
pub use plugin::{PageFilter, PagePlugin};
pub use table::filters;
