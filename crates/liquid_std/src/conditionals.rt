//! The blocks `if` and `unless`, with their divider `elsif`.
ghost use Rattle.std.specs.Prelude.{map};
ghost use Rattle.liquid_error.specs.meaning.Told.{Gives};
ghost use Rattle.liquid_parser.specs.meaning.Handed.{Tokens};
ghost use Rattle.liquid_parser.specs.meaning.Plugins.{AreTokens};
ghost use Rattle.liquid_std.specs.meaning.conditions.Conditions.{condition_of};
ghost use Rattle.liquid_std.specs.declared.blocks.StdBlockShape.TheVariants.{If, Unless};
ghost use Rattle.liquid_std.specs.meaning.BlockPlugins.{condition_planned, plan_of, with_condition};

use crate::block_plugins::StdPlan;
use crate::blocks::StdBlock;
use crate::conditions::read_condition::read_condition;
use crate::conditions::{Condition, Equality};
use liquid_core::{Error, TagTokenIter};
use std::alloc::Global;

/// Reads the start tag of an `if`, whose conditions compare by this equality.
pub(crate) fn begin_if(
    alloc: Global,
    equality: Equality,
    tokens: TagTokenIter<'_>,
) -> Result<StdPlan, Error>
    ensures { (ts : Tokens) → AreTokens tokens.entry ts → Gives plan_of result (condition_planned (If equality) ts) }
{
    let first = read_condition(alloc, tokens)?;
    let mut conditions = Vec::new(alloc);
    conditions.push(first)?;
    Ok(StdPlan::new(StdBlock::If(equality, conditions)))
}

/// Reads the start tag of an `unless`, whose conditions compare by this equality.
pub(crate) fn begin_unless(
    alloc: Global,
    equality: Equality,
    tokens: TagTokenIter<'_>,
) -> Result<StdPlan, Error>
    ensures { (ts : Tokens) → AreTokens tokens.entry ts → Gives plan_of result (condition_planned (Unless equality) ts) }
{
    let first = read_condition(alloc, tokens)?;
    let mut conditions = Vec::new(alloc);
    conditions.push(first)?;
    Ok(StdPlan::new(StdBlock::Unless(equality, conditions)))
}

/// Reads an `elsif`, and appends its condition.
pub(crate) fn push_condition(
    alloc: Global,
    conditions: &mut Vec<Condition>,
    tokens: TagTokenIter<'_>,
) -> Result<(), Error>
    ensures { (ts : Tokens) → AreTokens tokens.entry ts
        → Gives (λ _. map condition_of conditions.new.items) result (with_condition (map condition_of conditions.old.items) ts) }
{
    let condition = read_condition(alloc, tokens)?;
    Ok(conditions.push(condition)?)
}
