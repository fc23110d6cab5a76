//! The tag `decrement`.
ghost use Rattle.std.specs.Prelude.{◌≡◌, string_bytes, IfSome, OnErr};
ghost use Rattle.liquid_error.specs.meaning.Told.{told, Gives};
ghost use Rattle.liquid_parser.specs.meaning.Handed.{Tokens};
ghost use Rattle.liquid_parser.specs.meaning.Plugins.{AreTokens};
ghost use Rattle.liquid_runtime.specs.meaning.Written.{SameFrames};
ghost use Rattle.liquid_plugins.specs.meaning.TurnOf.{turn_of, Leaves};
ghost use Rattle.liquid_tags.specs.meaning.Counters.{past_limit};
ghost use Rattle.liquid_std.specs.meaning.Decrement.{decrements, one_lower};
ghost use Rattle.liquid_std.specs.meaning.TagPlugins.{decrement_given};
ghost use Rattle.liquid_std.specs.meaning.Tags.{tag_of};

use crate::tags::StdTag;
use liquid_core::{Error, Filter, Runtime, TagTokenIter, Turn, Value};
use liquid_tags::asked::{TOKEN_EXPECTED, alone};
use liquid_tags::increment::{counts_from, past_limit};
use std::alloc::Global;

/// Reads the node of a `decrement`.
pub(crate) fn parse_decrement<X: Filter>(
    alloc: Global,
    tokens: TagTokenIter<'_>,
) -> Result<StdTag<X>, Error>
    ensures { (ts : Tokens) → AreTokens tokens.entry ts → Gives (tag_of X.shape) result (decrement_given ts) }
{
    let mut tokens = tokens;
    let name = tokens.next_identifier(alloc, TOKEN_EXPECTED)?;
    let name = String::from_str(alloc, name)?;
    alone(alloc, tokens, StdTag::Decrement(name))
}

/// Decrements an index variable, and writes the new number. If there is an error, or memory runs out, nothing changes.
#[inline(never)]
pub(crate) fn decrement<R: Runtime>(
    alloc: Global,
    name: &String,
    runtime: &mut R,
) -> Result<Turn, Error>
    ensures answer { Gives turn_of result (decrements (string_bytes name.now) (tt {0}) (R.view runtime.old)).answer }
    ensures after { Leaves result (decrements (string_bytes name.now) (tt {0}) (R.view runtime.old)).written
        (R.view runtime.old) (R.view runtime.new) }
    ensures kept { OnErr result (R.view runtime.new ≡ R.view runtime.old) }
    ensures frames { SameFrames (R.view runtime.old) (R.view runtime.new) }
    ensures store { R.store runtime.new ≡ R.store runtime.old }
    ensures owes { R.restores runtime.new ≡ R.restores runtime.old }
    ensures borrows { R.lent runtime.new ≡ R.lent runtime.old }
{
    let number = counts_from(runtime.get_index(name.as_str()));
    match one_lower(number) {
        Some(lower) => {
            let text = lower.to_string(alloc)?;
            runtime.set_index(name.clone()?, Value::scalar(lower))?;
            Ok(Turn::Text(text))
        }
        None => Err(past_limit(alloc, name.as_str())),
    }
}

/// Returns the next lower number, if there is one.
fn one_lower(number: i64) -> Option<i64>
    ensures { result ≡ one_lower number }
{
    number.checked_sub(1)
}
