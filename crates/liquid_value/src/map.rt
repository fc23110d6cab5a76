//! The entries and iterators of an object: those of std's `BTreeMap`, for names and values.
use crate::value::Value;
use std::collections::btree_map;

/// The place of a name in an object, with its value or without one.
pub type Entry<'o> = btree_map::Entry<'o, String, Value>;

/// The place of a name that has a value.
pub type OccupiedEntry<'o> = btree_map::OccupiedEntry<'o, String, Value>;

/// The place of a name that has no value.
pub type VacantEntry<'o> = btree_map::VacantEntry<'o, String, Value>;

/// The entries in byte order of their names.
pub type Iter<'o> = btree_map::Iter<'o, String, Value>;

/// The entries by value, in byte order of their names.
pub type IntoIter = btree_map::IntoIter<String, Value>;

/// The names in byte order.
pub type Keys<'o> = btree_map::Keys<'o, String, Value>;

/// The values in byte order of their names.
pub type Values<'o> = btree_map::Values<'o, String, Value>;
