//! The static library for C: what it exports are calls of `liquid_c`.
//!
//! What crosses are slices of bytes, structs of slices, and numbers. No pointer is kept when a call
//! returns, and all that a call allocates is freed before it returns. Any bytes and any numbers have an
//! answer; `c/liquid.h` says what is left to the caller. `c/calls.c` has the calls of the header, which hand on
//! theirs to these, with other pointers in the place of null pointers.
#![tactic(auto)]

ghost use Rattle.std.specs.Prelude.{◌≡◌};
ghost use Rattle.liquid_c.specs.meaning.Outcomes.{LeavesAsked, LeavesOver};
ghost use Rattle.liquid_c.specs.meaning.Turns.{TurnsOver};

use liquid_c::each::render_each;
use liquid_c::page::{Outcome, Page};
use liquid_c::rendering::render;
use std::alloc::Global;

/// The number of the header's form.
const VERSION: u32 = 4;

/// Renders the page into `out`, and writes how it ended to `outcome` and the text of an error to `message`.
///
/// `out` gets the first bytes of what was rendered, as many as it has room for, and its other bytes stay as
/// they were. `outcome.needed` says how many were rendered. `message` and `outcome.message_len` are alike.
#[unsafe(no_mangle)]
pub extern "C" fn liquid_core_render(
    alloc: Global,
    page: &Page<'_>,
    out: &mut [u8],
    message: &mut [u8],
    outcome: &mut Outcome,
)
    ensures { LeavesAsked page.now out.old out.new outcome.new }
{
    *outcome = render(alloc, page, out, message);
}

/// Renders the page over each of these globals in turn, as `liquid_core_render` does over `page.globals`, which are
/// passed over. The pages are in `out` one after another, and `outcomes` has one outcome for each, as far as
/// it has room. `message` has the text of the last error.
///
/// Returns how many pages are whole, and in `out`.
#[unsafe(no_mangle)]
pub extern "C" fn liquid_core_render_each(
    alloc: Global,
    page: &Page<'_>,
    globals: &[&[u8]],
    out: &mut [u8],
    message: &mut [u8],
    outcomes: &mut [Outcome],
) -> usize
    ensures { TurnsOver (LeavesOver page.now) globals.now out.old out.new outcomes.old outcomes.new result }
{
    render_each(alloc, page, globals, out, message, outcomes)
}

/// Returns the number of the header's form, which a caller compares with its `LIQUID_VERSION`.
#[unsafe(no_mangle)]
pub extern "C" fn liquid_version() -> u32
    ensures { result ≡ 4 }
{
    VERSION
}
