//! Two types of plug-ins as one: the tags and blocks of a library, and a host's own beside them.

pub mod blocks;
pub mod nodes;
pub mod one_of;
pub mod tags;
