//! Consequences of the order of a list, a function for each law. Its body is empty, and its contract is the law.
ghost use Rattle.std.specs.Prelude.{map};
ghost use Rattle.std.specs.List.Sorted.{IsPermutation, IsSortedBy, IsStableBy};
ghost use Rattle.liquid_filters.specs.meaning.list.Entries.{entry_view};
ghost use Rattle.liquid_filters.specs.meaning.sort.Order.{comes_before, in_order};

use crate::list::keys::Entry;

/// Ordering keeps the entries. None is before one that it should follow, and those that tie stay in their order.
pub fn order_is_stable(entries: &[Entry<'_>])
    ensures moves { IsPermutation (map entry_view entries.now) (in_order comes_before (map entry_view entries.now)) }
    ensures sorted { IsSortedBy comes_before (in_order comes_before (map entry_view entries.now)) }
    ensures stable { IsStableBy comes_before (map entry_view entries.now) (in_order comes_before (map entry_view entries.now)) }
{}
