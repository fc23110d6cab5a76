//! The filters on lists.
ghost use Rattle.liquid_filters.specs.meaning.Standard.{list_sense};

use crate::arguments::CallArguments;
use crate::list::choices::{compact, keep_where, map, uniq};
use crate::list::lists::{concat, first, join, last, reverse};
use crate::list::searches::{find, find_index, has, reject};
use crate::list::sums::sum;
use crate::parameters::{ARRAY, NAME, NONE, PROPERTY, SEPARATOR, WHERE};
use crate::row::{FilterKind, FilterRow};
use crate::sort::numbers::sort_numeric;
use crate::sort::order::{sort, sort_natural};
use liquid_error::Error;
use liquid_value::Value;
use std::alloc::Global;

/// A filter on lists.
#[derive(Debug, Clone, Copy, PartialEq, Eq, Drop)]
pub enum ListKind {
    Compact,
    Concat,
    Find,
    FindIndex,
    First,
    Has,
    Join,
    Last,
    Map,
    Reject,
    Reverse,
    Sort,
    SortNatural,
    SortNumeric,
    Sum,
    Uniq,
    Where,
}

impl FilterKind for ListKind {
    ghost sense = { list_sense };

    fn row(&self) -> FilterRow {
        match self {
            ListKind::Compact => FilterRow::new(
                "compact",
                "Removes the items that are nil.",
                &PROPERTY,
            ),
            ListKind::Concat => FilterRow::new("concat", "Appends the items of an array.", &ARRAY),
            ListKind::Find => FilterRow::new(
                "find",
                "Returns the first item with a property.",
                &WHERE,
            ),
            ListKind::FindIndex => FilterRow::new(
                "find_index",
                "Returns the index of the first item with a property.",
                &WHERE,
            ),
            ListKind::First => FilterRow::new("first", "Returns the first item.", &NONE),
            ListKind::Has => FilterRow::new("has", "Tests whether an item has a property.", &WHERE),
            ListKind::Join => FilterRow::new("join", "Joins the items to a string.", &SEPARATOR),
            ListKind::Last => FilterRow::new("last", "Returns the last item.", &NONE),
            ListKind::Map => FilterRow::new("map", "Returns a property of each item.", &NAME),
            ListKind::Reject => FilterRow::new(
                "reject",
                "Removes the items with a property.",
                &WHERE,
            ),
            ListKind::Reverse => FilterRow::new("reverse", "Reverses the items.", &NONE),
            ListKind::Sort => FilterRow::new("sort", "Sorts the items.", &PROPERTY),
            ListKind::SortNatural => FilterRow::new(
                "sort_natural",
                "Sorts the items, ignoring case.",
                &PROPERTY,
            ),
            ListKind::SortNumeric => FilterRow::new(
                "sort_numeric",
                "Sorts the items by their numbers.",
                &PROPERTY,
            ),
            ListKind::Sum => FilterRow::new("sum", "Adds up the items.", &PROPERTY),
            ListKind::Uniq => FilterRow::new("uniq", "Removes repeated items.", &PROPERTY),
            ListKind::Where => FilterRow::new("where", "Keeps the items with a property.", &WHERE),
        }
    }

    fn answer(
        &self,
        alloc: Global,
        input: &Value,
        arguments: &CallArguments<'_>,
    ) -> Result<Value, Error> {
        let given = arguments.positional;
        match self {
            ListKind::Compact => compact(alloc, input, given),
            ListKind::Concat => concat(alloc, input, given),
            ListKind::Find => find(alloc, input, given),
            ListKind::FindIndex => find_index(alloc, input, given),
            ListKind::First => first(alloc, input),
            ListKind::Has => has(alloc, input, given),
            ListKind::Join => join(alloc, input, given),
            ListKind::Last => last(alloc, input),
            ListKind::Map => map(alloc, input, given),
            ListKind::Reject => reject(alloc, input, given),
            ListKind::Reverse => reverse(alloc, input),
            ListKind::Sort => sort(alloc, input, given),
            ListKind::SortNatural => sort_natural(alloc, input, given),
            ListKind::SortNumeric => sort_numeric(alloc, input, given),
            ListKind::Sum => sum(alloc, input, given),
            ListKind::Uniq => uniq(alloc, input, given),
            ListKind::Where => keep_where(alloc, input, given),
        }
    }
}
