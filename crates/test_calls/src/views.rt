//! The calls that make values of a program's own types.
use liquid_scalar::Scalar;
use liquid_value::Value;
use liquid_views::{ValueView, array_of, object_of, scalar_of};
use std::alloc::Global;

/// Returns the value of an array that is built of the items of a list.
fn copy_list(alloc: Global, list: &Vec<i64>) -> Option<Value> {
    array_of(alloc, list).ok()?.to_value(alloc).ok()
}

/// Returns `true` if an array that is built of the items of a list is as the list.
fn is_copied(alloc: Global, list: &Vec<i64>) -> bool {
    match copy_list(alloc, list).zip(list.to_value(alloc).ok()) {
        Some((copied, value)) => copied == value,
        None => false,
    }
}

/// Returns `true` if a list was made, and an array is built of its items.
fn array_is_built(alloc: Global) -> bool {
    match vec![in alloc; 1i64, 2] {
        Ok(list) => is_copied(alloc, &list),
        Err(_) => false,
    }
}

/// Returns `true` if an object is built of pairs, of which a later one wins.
fn object_is_built(alloc: Global) -> bool {
    match object_of(alloc, &[("a", 1i64), ("b", 2), ("a", 3)]) {
        Ok(object) => object.len() == 2,
        Err(_) => false,
    }
}

/// Returns `true` if each call makes its value.
pub fn views_answer(alloc: Global) -> bool {
    scalar_of(4i64) == Scalar::Integer(4) && array_is_built(alloc) && object_is_built(alloc)
}
