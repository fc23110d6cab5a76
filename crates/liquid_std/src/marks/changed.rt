//! The block `ifchanged`.
ghost use Rattle.std.specs.Prelude.{◌≡◌, option_map, string_bytes, OnErr};
ghost use Rattle.liquid_error.specs.meaning.Told.{Gives};
ghost use Rattle.liquid_runtime.specs.meaning.Written.{SameFrames};
ghost use Rattle.liquid_plugins.specs.meaning.TurnOf.{turn_of, Leaves, LeavesProgress};
ghost use Rattle.liquid_std.specs.meaning.marks.Changes.{changes};

use crate::marks::holder::HoldsMarks;
use liquid_core::{Error, Frame, Runtime, Turn};
use std::mem;

/// Captures the part in the first turn, and writes its text in the second, unless it is that of the last `ifchanged`.
///
/// `text` is the text of the part once the part is rendered, and `None` before that. If memory runs out, the last text
/// stays.
#[inline(never)]
pub fn changed_turn<V: HoldsMarks, R: Runtime<Register = V>>(
    text: &mut Option<String>,
    runtime: &mut R,
) -> Result<Turn, Error>
    ensures answer { Gives turn_of result (changes V.holds (option_map (λ s. string_bytes s) text.old) (R.view runtime.old)).answer }
    ensures after { Leaves result (changes V.holds (option_map (λ s. string_bytes s) text.old) (R.view runtime.old)).written
        (R.view runtime.old) (R.view runtime.new) }
    ensures progress { LeavesProgress result (changes V.holds (option_map (λ s. string_bytes s) text.old) (R.view runtime.old)).progress
        (option_map (λ s. string_bytes s) text.new) }
    ensures kept { OnErr result (R.view runtime.new ≡ R.view runtime.old) }
    ensures frames { SameFrames (R.view runtime.old) (R.view runtime.new) }
    ensures store { R.store runtime.new ≡ R.store runtime.old }
    ensures owes { R.restores runtime.new ≡ R.restores runtime.old }
    ensures borrows { R.lent runtime.new ≡ R.lent runtime.old }
{
    match mem::replace(text, None) {
        Some(text) => {
            if runtime.registers().value.marks().is_last(text.as_str()) {
                Ok(Turn::End)
            } else {
                let last = text.clone()?;
                runtime.registers_mut().value.keep_last(last);
                Ok(Turn::Text(text))
            }
        }
        None => Ok(Turn::Capture(0, Frame::None, None)),
    }
}
