//! The block `for`: what it goes over, the items that are left, and its turns.

pub mod items;
pub mod rounds;
pub mod series;
pub mod turns;
