//! The block `capture`.
ghost use Rattle.std.specs.Prelude.{◌≡◌, string_bytes, OnErr};
ghost use Rattle.liquid_error.specs.meaning.Told.{Gives};
ghost use Rattle.liquid_parser.specs.meaning.Handed.{Tokens};
ghost use Rattle.liquid_parser.specs.meaning.Plugins.{AreTokens};
ghost use Rattle.liquid_runtime.specs.meaning.Written.{SameFrames};
ghost use Rattle.liquid_plugins.specs.meaning.TurnOf.{turn_of, Leaves, LeavesProgress};
ghost use Rattle.liquid_std.specs.meaning.BlockPlugins.{capture_given, plan_of};
ghost use Rattle.liquid_std.specs.meaning.Captures.{captures, text_of};

use crate::block_plugins::StdPlan;
use crate::blocks::StdBlock;
use liquid_core::{Error, Frame, Runtime, TagTokenIter, Turn, Value};
use liquid_tags::asked::{TOKEN_EXPECTED, alone};
use std::alloc::Global;
use std::mem;

/// Reads the start tag of a `capture`.
pub(crate) fn begin_capture(alloc: Global, tokens: TagTokenIter<'_>) -> Result<StdPlan, Error>
    ensures { (ts : Tokens) → AreTokens tokens.entry ts → Gives plan_of result (capture_given ts) }
{
    let mut tokens = tokens;
    let name = tokens.next_identifier(alloc, TOKEN_EXPECTED)?;
    let name = String::from_str(alloc, name)?;
    alone(alloc, tokens, StdPlan::new(StdBlock::Capture(name)))
}

/// Captures the part in the first turn, and assigns its text to the name in the second. If memory runs out, the name keeps
/// its value.
#[inline(never)]
pub(crate) fn capture_turn<R: Runtime>(
    alloc: Global,
    name: &String,
    text: &mut Option<String>,
    runtime: &mut R,
) -> Result<Turn, Error>
    ensures answer { Gives turn_of result (captures (string_bytes name.now) (text_of text.old) (R.view runtime.old)).answer }
    ensures after { Leaves result (captures (string_bytes name.now) (text_of text.old) (R.view runtime.old)).written
        (R.view runtime.old) (R.view runtime.new) }
    ensures progress { LeavesProgress result (captures (string_bytes name.now) (text_of text.old) (R.view runtime.old)).progress
        (text_of text.new) }
    ensures kept { OnErr result (R.view runtime.new ≡ R.view runtime.old) }
    ensures frames { SameFrames (R.view runtime.old) (R.view runtime.new) }
    ensures store { R.store runtime.new ≡ R.store runtime.old }
    ensures owes { R.restores runtime.new ≡ R.restores runtime.old }
    ensures borrows { R.lent runtime.new ≡ R.lent runtime.old }
{
    match mem::replace(text, None) {
        Some(text) => {
            runtime.set_global(name.clone()?, Value::scalar(text))?;
            Ok(Turn::End)
        }
        None => Ok(Turn::Capture(0, Frame::None, None)),
    }
}
