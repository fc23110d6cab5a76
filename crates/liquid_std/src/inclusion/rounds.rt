//! The rounds of a call: one for each item that it passes.
ghost use Rattle.std.specs.FinMap.{empty};
ghost use Rattle.std.specs.Prelude.{◌≡◌, length, map, option_map, slice_get, string_bytes, IfOk, OnOk, OnErr};
ghost use Rattle.liquid_error.specs.meaning.Told.{Gives};
ghost use Rattle.liquid_value.specs.meaning.View.{view as tree_of};
ghost use Rattle.liquid_runtime.specs.meaning.Calls.{frame_of};
ghost use Rattle.liquid_runtime.specs.meaning.Maps.{names_of};
ghost use Rattle.liquid_plugins.specs.meaning.TurnOf.{turn_of};
ghost use Rattle.liquid_tags.specs.meaning.Partials.{pair_of};
ghost use Rattle.liquid_std.specs.meaning.inclusion.Calls.{call_of};
ghost use Rattle.liquid_std.specs.meaning.inclusion.Rounds.{call_rounds, following, frame_for, given_in};
ghost use Rattle.liquid_std.specs.meaning.inclusion.Rounds.{given_of, key_in, key_of, loop_names};
ghost use Rattle.liquid_std.specs.meaning.inclusion.Rounds.{has_name, names_at, partial_for, rounds_of, turn_at, with_given, with_item};

use crate::inclusion::calls::PartialCall;
use crate::inclusion::passed::{Passed, passes};
use liquid_core::parser::{Bytes, ListOf, Meant, TreeMark};
use liquid_core::runtime::Counts;
use liquid_core::{Error, Expression, Frame, Object, Runtime, Turn, Value, no_names};
use liquid_tags::Inclusion;
use liquid_tags::names::bind;
use liquid_tags::partial_call::call::{inclusion_trace, partial_name};
use std::alloc::{AllocError, Global};
use std::path::Path;

/// The progress of a call with a value.
#[derive(Drop)]
pub struct CallRounds {
    inclusion: Inclusion,
    /// The name of the partial.
    name: String,
    /// The name of what is passed.
    key: String,
    /// The pairs with their values.
    given: Vec<(String, Value)>,
    /// What is passed.
    items: Passed,
    /// Whether each item is given with `forloop`.
    is_loop: bool,
    /// The place of the next item, counted from 0.
    place: u64,
}

/// Marks the shape of a call's progress.
pub struct CallRoundsShape {
    pub inclusion: Inclusion,
    pub name: Bytes,
    pub key: Bytes,
    pub given: ListOf<(Bytes, TreeMark)>,
    pub items: ListOf<TreeMark>,
    pub is_loop: bool,
    pub place: u64,
}

impl Meant for CallRounds {
    type Shape = CallRoundsShape;

    ghost shape = { rounds_of };
}

impl CallRounds {
    /// Returns the number of turns: one for each item.
    pub fn turns(&self) -> u64
        ensures { result ≡ length (rounds_of self.now).items }
    {
        self.items.len()
    }
}

/// Returns the progress of a call that starts.
///
/// The name of the partial is evaluated first, then what is passed, and then the pairs from left to right. A name that is
/// not a scalar is an `Err`, "Partial name expected".
#[inline(never)]
pub fn call_rounds<R: Runtime>(
    alloc: Global,
    call: &PartialCall,
    runtime: &R,
) -> Result<Box<CallRounds>, Error>
    ensures { Gives (λ r. rounds_of r.value) result (call_rounds (R.view runtime.now) (call_of call.now)) }
{
    let value = call.name.evaluate(alloc, runtime)?;
    let name = partial_name(alloc, value.as_view())?;
    let (items, is_loop) = passes(alloc, call.manner, &call.series, runtime)?;
    let given = evaluate_given(alloc, call.pairs.as_slice(), runtime)?;
    let key = key_of(alloc, &call.alias, name.as_str())?;
    let rounds = CallRounds {
        inclusion: call.inclusion,
        name,
        key,
        given,
        items,
        is_loop,
        place: 0,
    };
    Ok(Box::new(alloc, rounds)?)
}

/// Returns the name of what is passed: the alias, or the last part of the partial's name.
fn key_of(alloc: Global, alias: &Option<String>, name: &str) -> Result<String, AllocError>
    ensures { IfOk result (λ s. string_bytes s ≡ key_of (option_map (λ a. string_bytes a) alias.now) name.now) }
{
    match alias {
        Some(alias) => alias.clone(),
        None => String::from_str(alloc, key_in(name)),
    }
}

/// Returns the last part of a name as a path, or the name if it has no such part.
fn key_in(name: &str) -> &str
    ensures { result.now ≡ key_in name.now }
{
    match Path::new(name).file_name() {
        Some(last) => last,
        None => name,
    }
}

/// Returns the pairs with their values, which are evaluated from left to right.
fn evaluate_given<R: Runtime>(
    alloc: Global,
    pairs: &[(String, Expression)],
    runtime: &R,
) -> Result<Vec<(String, Value)>, Error>
    ensures { Gives (λ v. map given_of v.items) result (given_in (R.view runtime.now) (map pair_of pairs.now)) }
{
    let mut given = Vec::with_capacity(alloc, pairs.len())?;
    for pair in pairs {
        let value = pair.1.evaluate(alloc, runtime)?;
        given.push((pair.0.clone()?, value.into_owned()?))?;
    }
    Ok(given)
}

/// Returns the next turn of a call: the partial for the next item, or the end if there is none.
#[inline(always)]
pub fn call_turn(alloc: Global, rounds: &mut CallRounds) -> Result<Turn, AllocError>
    ensures answer { IfOk result (λ turn. turn_of turn
        ≡ turn_at (rounds_of rounds.old) (slice_get (rounds_of rounds.old).items (rounds_of rounds.old).place)) }
    ensures after { OnOk result (rounds_of rounds.new ≡ following (rounds_of rounds.old)) }
    ensures same { OnErr result (rounds_of rounds.new ≡ rounds_of rounds.old) }
{
    let Some(next) = rounds.place.checked_add(1) else {
        return Err(AllocError);
    };
    let item = rounds.items.get(rounds.place)?;
    let turn = turn_at(alloc, &*rounds, item)?;
    rounds.place = next;
    Ok(turn)
}

/// Returns the turn with the partial for an item, or the end if there is none.
fn turn_at(alloc: Global, rounds: &CallRounds, item: Option<Value>) -> Result<Turn, AllocError>
    ensures { IfOk result (λ turn. turn_of turn ≡ turn_at (rounds_of rounds.now) (option_map tree_of item)) }
{
    match item {
        Some(item) => {
            let names = names_at(alloc, rounds, item)?;
            partial_for(alloc, rounds.inclusion, &rounds.name, names)
        }
        None => Ok(Turn::End),
    }
}

/// Returns the turn with the partial of a name, which is given these names.
fn partial_for(
    alloc: Global,
    inclusion: Inclusion,
    name: &String,
    names: Object,
) -> Result<Turn, AllocError>
    ensures { IfOk result (λ turn. turn_of turn ≡ partial_for inclusion (string_bytes name.now) (names_of names)) }
{
    let trace = inclusion_trace(alloc, inclusion, name.as_str())?;
    let frame = frame_for(inclusion, names, name.clone()?);
    Ok(Turn::Partial(name.clone()?, frame, Some(trace)))
}

fn frame_for(inclusion: Inclusion, names: Object, name: String) -> Frame
    ensures { frame_of result ≡ frame_for inclusion (names_of names) (string_bytes name) }
{
    match inclusion {
        Inclusion::Include => Frame::Stack(names, Some(name)),
        Inclusion::Render => Frame::Isolated(names, Some(name)),
    }
}

/// Returns the names that the partial is given for an item: `forloop` in a loop, the pairs, and the item.
fn names_at(alloc: Global, rounds: &CallRounds, item: Value) -> Result<Object, AllocError>
    ensures { IfOk result (λ names. names_of names ≡ names_at (rounds_of rounds.now) (tree_of item)) }
{
    let mut names = loop_names(alloc, rounds.is_loop, rounds.place, rounds.items.len())?;
    bind_given(alloc, &mut names, rounds.given.as_slice())?;
    bind_item(
        alloc,
        rounds.inclusion,
        rounds.key.as_str(),
        item,
        &mut names,
    )?;
    Ok(names)
}

/// Returns `forloop` in a loop, and otherwise no names.
fn loop_names(alloc: Global, is_loop: bool, place: u64, size: u64) -> Result<Object, AllocError>
    ensures { IfOk result (λ names. names_of names ≡ loop_names is_loop place size) }
{
    let mut names = no_names(alloc);
    if is_loop {
        let value = Counts { place, size }.to_value(alloc)?;
        bind(alloc, &mut names, "forloop", value)?;
    }
    Ok(names)
}

/// Binds pairs to their values.
fn bind_given(
    alloc: Global,
    names: &mut Object,
    given: &[(String, Value)],
) -> Result<(), AllocError>
    ensures { OnOk result (names_of names.new ≡ with_given (names_of names.old) (map given_of given.now)) }
{
    for pair in given {
        bind(alloc, names, pair.0.as_str(), pair.1.clone()?)?;
    }
    Ok(())
}

/// Binds what is passed to its name. Nil gives a partial of `render` no name.
fn bind_item(
    alloc: Global,
    inclusion: Inclusion,
    key: &str,
    item: Value,
    names: &mut Object,
) -> Result<(), AllocError>
    ensures { OnOk result (names_of names.new ≡ with_item inclusion key.now (tree_of item) (names_of names.old)) }
{
    if has_name(inclusion, &item) {
        bind(alloc, names, key, item)
    } else {
        Ok(())
    }
}

/// Returns `false` for nil that is passed by a `render`.
fn has_name(inclusion: Inclusion, item: &Value) -> bool
    ensures { result ≡ has_name inclusion (tree_of item.now) }
{
    match (inclusion, item) {
        (Inclusion::Render, Value::Nil) => false,
        _ => true,
    }
}
