//! Jekyll's filters on lists by a key of each item.
mod choosing;
mod comparing;
mod grouping;
mod item_keys;
mod ordering;
mod own;

pub use choosing::{find, keep_where};
pub use grouping::{group_by, group_entries};
pub use ordering::sort;
pub use own::own_items;
