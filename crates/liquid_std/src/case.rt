//! The block `case`, with its divider `when`.
ghost use Rattle.liquid_error.specs.meaning.Told.{Gives};
ghost use Rattle.liquid_parser.specs.meaning.Handed.{Tokens};
ghost use Rattle.liquid_parser.specs.meaning.Plugins.{AreTokens};
ghost use Rattle.liquid_std.specs.meaning.conditions.Branches.{case_of};
ghost use Rattle.liquid_std.specs.meaning.BlockPlugins.{case_given, plan_of, with_alternatives};

use crate::block_plugins::StdPlan;
use crate::blocks::StdBlock;
use crate::conditions::read_values::read_values;
use crate::conditions::{Case, Equality};
use liquid_core::{Error, TagTokenIter};
use liquid_tags::asked::{TOKEN_EXPECTED, alone};
use std::alloc::Global;

/// The separators between two values of a `when`.
static WHEN_SEPARATORS: [&str; 2] = [",", "or"];

/// Reads the start tag of a `case`, whose values are compared by this equality.
pub(crate) fn begin_case(
    alloc: Global,
    equality: Equality,
    tokens: TagTokenIter<'_>,
) -> Result<StdPlan, Error>
    ensures { (ts : Tokens) → AreTokens tokens.entry ts → Gives plan_of result (case_given equality ts) }
{
    let mut tokens = tokens;
    let value = tokens.next_value(alloc, TOKEN_EXPECTED)?;
    let alternatives = Vec::new(alloc);
    let case = Box::new(
        alloc,
        Case {
            value,
            alternatives,
        },
    )?;
    alone(alloc, tokens, StdPlan::new(StdBlock::Case(equality, case)))
}

/// Reads a `when`, and appends its alternatives.
pub(crate) fn push_alternatives(
    alloc: Global,
    case: &mut Case,
    tokens: TagTokenIter<'_>,
) -> Result<(), Error>
    ensures { (ts : Tokens) → AreTokens tokens.entry ts
        → Gives (λ _. case_of case.new) result (with_alternatives (case_of case.old) ts) }
{
    let values = read_values(alloc, tokens, &WHEN_SEPARATORS)?;
    Ok(case.alternatives.push(values)?)
}
