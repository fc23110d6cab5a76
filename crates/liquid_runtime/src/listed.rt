//! The place of an item in an array that a loop shares.
ghost use Rattle.std.specs.Prelude.{◌<◌, length};

use liquid_value::Array;
use std::rc::Rc;

/// The item at a place of an array that the loop shares. The item is not copied.
#[derive(Drop)]
pub struct Listed {
    pub(crate) array: Rc<Array>,
    pub(crate) place: usize,
    ghost is_there: { place < length array.value.items },
}
