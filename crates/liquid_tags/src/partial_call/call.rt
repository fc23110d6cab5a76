//! The tags `include` and `render`.
ghost use Rattle.std.specs.FinMap.{empty};
ghost use Rattle.std.specs.Prelude.{◌≡◌, ◌++◌, codes, map, IfOk, string_bytes};
ghost use Rattle.liquid_error.specs.meaning.Told.{Gives};
ghost use Rattle.liquid_value.specs.meaning.View.{view as tree_of};
ghost use Rattle.liquid_runtime.specs.meaning.Maps.{Names, names_of};
ghost use Rattle.liquid_plugins.specs.meaning.ExpressionOf.{expression_of};
ghost use Rattle.liquid_plugins.specs.meaning.TurnOf.{turn_of};
ghost use Rattle.liquid_tags.specs.meaning.Partials.{bound, included, inclusion_turn, pair_of, partial_name, word_of};

use crate::for_block::series::type_error;
use crate::names::bind;
use liquid_core::{Error, Expression, Frame, Object, Runtime, Turn, Value, no_names};
use std::alloc::{AllocError, Global};

/// What the partial sees: its pairs and the names around it, or only its pairs.
#[derive(Debug, Clone, Copy, PartialEq, Eq, Drop)]
pub enum Inclusion {
    Include,
    Render,
}

/// The value that names a partial, and the names that it is given.
#[derive(Drop)]
pub struct Call {
    pub name: Expression,
    pub pairs: Vec<(String, Expression)>,
}

/// Returns the turn with the partial of the call.
#[inline(always)]
pub(crate) fn include<R: Runtime>(
    alloc: Global,
    inclusion: Inclusion,
    call: &Call,
    runtime: &R,
) -> Result<Turn, Error>
    ensures { Gives turn_of result (included inclusion (expression_of call.now.name)
        (map pair_of call.now.pairs.items) (R.view runtime.now)) }
{
    let value = call.name.evaluate(alloc, runtime)?;
    let name = partial_name(alloc, value.as_view())?;
    let names = evaluate_pairs(alloc, call.pairs.as_slice(), runtime)?;
    Ok(inclusion_turn(alloc, inclusion, name, names)?)
}

/// Returns the name that a value gives to a partial: the text of a scalar.
///
/// Any other value is an `Err`, "Partial name expected".
pub fn partial_name(alloc: Global, value: &Value) -> Result<String, Error>
    ensures { Gives (λ s. string_bytes s) result (partial_name (tree_of value.now)) }
{
    match value {
        Value::Scalar(scalar) => Ok(scalar.to_kstr(alloc)?.into_owned(alloc)?),
        other => Err(type_error(alloc, "Partial name expected", other)),
    }
}

/// Returns the names of the pairs, with the values of their expressions, evaluated in order. Of two pairs with one name the
/// later wins.
///
/// The first expression without a value is an `Err`.
#[inline(always)]
pub fn evaluate_pairs<R: Runtime>(
    alloc: Global,
    pairs: &[(String, Expression)],
    runtime: &R,
) -> Result<Object, Error>
    ensures { Gives names_of result (bound (R.view runtime.now) empty (map pair_of pairs.now)) }
{
    let mut names = no_names(alloc);
    for pair in pairs {
        let value = pair.1.evaluate(alloc, runtime)?;
        bind(alloc, &mut names, pair.0.as_str(), value.into_owned()?)?;
    }
    Ok(names)
}

/// Returns the turn with the partial.
#[inline(always)]
fn inclusion_turn(
    alloc: Global,
    inclusion: Inclusion,
    name: String,
    names: Object,
) -> Result<Turn, AllocError>
    ensures { IfOk result (λ turn. turn_of turn ≡ inclusion_turn inclusion (string_bytes name) (names_of names)) }
{
    let trace = inclusion_trace(alloc, inclusion, name.as_str())?;
    let own = Some(name.clone()?);
    let frame = match inclusion {
        Inclusion::Include => Frame::Stack(names, own),
        Inclusion::Render => Frame::Sandboxed(names, own),
    };
    Ok(Turn::Partial(name, frame, Some(trace)))
}

/// Returns the trace of the tag for an error in the partial: the tag's name and the partial's.
pub fn inclusion_trace(
    alloc: Global,
    inclusion: Inclusion,
    name: &str,
) -> Result<String, AllocError>
    ensures { IfOk result (λ s. string_bytes s ≡ word_of inclusion ++ (codes " " ++ name.now)) }
{
    let front = match inclusion {
        Inclusion::Include => "include ",
        Inclusion::Render => "render ",
    };
    let mut trace = String::with_capacity(alloc, front.len().saturating_add(name.len()))?;
    trace.push_str(front)?;
    trace.push_str(name)?;
    Ok(trace)
}
