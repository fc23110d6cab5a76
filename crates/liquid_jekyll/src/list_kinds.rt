//! The kinds of Jekyll's filters on lists.
ghost use Rattle.liquid_jekyll.specs.meaning.Senses.{list_sense};

use crate::list::{find, group_by, keep_where, sort};
use crate::parameters::{CONNECTOR, COUNT, ITEM, KEY, KEY_AND_VALUE, SORT, WHERE};
use crate::value::{array_to_sentence_string, pop, push, shift, unshift};
use liquid_error::Error;
use liquid_filters::{CallArguments, FilterKind, FilterRow};
use liquid_value::Value;
use std::alloc::Global;

/// A filter of Jekyll on a list.
#[derive(Debug, Clone, Copy, PartialEq, Eq, Drop)]
pub enum JekyllListKind {
    ArrayToSentenceString,
    Find,
    GroupBy,
    Pop,
    Push,
    Shift,
    Sort,
    Unshift,
    Where,
}

impl FilterKind for JekyllListKind {
    ghost sense = { list_sense };

    fn row(&self) -> FilterRow {
        match self {
            JekyllListKind::ArrayToSentenceString => FilterRow::new(
                "array_to_sentence_string",
                "Lists the items as in a sentence.",
                &CONNECTOR,
            ),
            JekyllListKind::Find => FilterRow::new(
                "find",
                "Returns the first item whose key fits a value.",
                &KEY_AND_VALUE,
            ),
            JekyllListKind::GroupBy => {
                FilterRow::new("group_by", "Groups the items by a key.", &KEY)
            }
            JekyllListKind::Pop => {
                FilterRow::new("pop", "Removes the last items of an array.", &COUNT)
            }
            JekyllListKind::Push => FilterRow::new("push", "Appends an item to an array.", &ITEM),
            JekyllListKind::Shift => {
                FilterRow::new("shift", "Removes the first items of an array.", &COUNT)
            }
            JekyllListKind::Sort => { FilterRow::new("sort", "Sorts the items by a key.", &SORT) }
            JekyllListKind::Unshift => FilterRow::new(
                "unshift",
                "Prepends an item to an array.",
                &ITEM,
            ),
            JekyllListKind::Where => {
                FilterRow::new("where", "Keeps the items whose key fits a value.", &WHERE)
            }
        }
    }

    fn answer(
        &self,
        alloc: Global,
        input: &Value,
        arguments: &CallArguments<'_>,
    ) -> Result<Value, Error> {
        let given = arguments.positional;
        match self {
            JekyllListKind::ArrayToSentenceString => array_to_sentence_string(alloc, input, given),
            JekyllListKind::Find => find(alloc, input, given),
            JekyllListKind::GroupBy => group_by(alloc, input, given),
            JekyllListKind::Pop => pop(alloc, input, given),
            JekyllListKind::Push => push(alloc, input, given),
            JekyllListKind::Shift => shift(alloc, input, given),
            JekyllListKind::Sort => sort(alloc, input, given),
            JekyllListKind::Unshift => unshift(alloc, input, given),
            JekyllListKind::Where => keep_where(alloc, input, given),
        }
    }
}
