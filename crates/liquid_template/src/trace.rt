//! The trace of a node on its errors, and their position.
ghost use Rattle.std.specs.Prelude.{◌≡◌, Err, option_map, string_bytes};
ghost use Rattle.liquid_error.specs.meaning.Helpers.{ErrBecomes};
ghost use Rattle.liquid_template.specs.meaning.Actions.{refused_through};
ghost use Rattle.liquid_template.specs.steps.NodeTurns.{SaysSame};

use liquid_error::Error;
use std::alloc::Global;
use std::mem;

/// Adds the trace, if one is given, to an error.
#[inline(never)]
pub(crate) fn with_own_trace(
    alloc: Global,
    answer: Result<(), Error>,
    trace: Option<String>,
) -> Result<(), Error>
    ensures { ErrBecomes (refused_through (option_map (λ s. string_bytes s) trace)) answer result }
{
    match answer {
        Ok(()) => Ok(()),
        Err(error) => match trace {
            Some(text) => Err(error.trace(alloc, &text)),
            None => Err(error),
        },
    }
}

/// Returns the answer, with an error seen from the text that renders this partial.
#[inline(always)]
pub(crate) fn within_partial<V>(
    alloc: Global,
    answer: Result<V, Error>,
    partial: &str,
) -> Result<V, Error>
    ensures { ErrBecomes (λ r. r) answer result }
{
    match answer {
        Ok(value) => Ok(value),
        Err(error) => Err(error.within(alloc, partial)),
    }
}

/// Sets the node that an error is in, unless the error has a position in the node's text. What it says stays as it is.
#[inline(never)]
pub(crate) fn locate(answer: &mut Result<(), Error>, left: u32)
    ensures { SaysSame answer.old answer.new }
{
    match mem::replace(answer, Ok(())) {
        Ok(()) => {}
        Err(error) => *answer = Err(error.at_node(left)),
    }
}

/// Makes an error the answer.
#[inline(never)]
pub(crate) fn refuse(answer: &mut Result<(), Error>, error: Error)
    ensures { answer.new ≡ Err error }
{
    *answer = Err(error);
}

/// Keeps the trace of a turn in place of the last one's.
pub(crate) fn keep_trace(kept: &mut Option<String>, trace: Option<String>)
    ensures { kept.new ≡ trace }
{
    *kept = trace;
}
