//! Walks over an object. Each step returns how many items are left before and after it.
ghost use Rattle.std.specs.Prelude.{◌≡◌, length};
ghost use Rattle.std.specs.Map.Iter.{TakesFirst, deref, deref_pair};
ghost use Rattle.liquid_value.specs.laws.Steps.{CountsDown};

use crate::map::{IntoIter, Iter, Keys, Values};
use crate::value::Value;

/// Takes one step over entries. Returns how many were left, the first of them, and how many are left after it.
///
/// If none is left, there is no entry, at this step and at each later one.
#[tactic(auto, using(crate::proofs::StepLemmas::counts_down))]
pub fn step_over_entries<'o>(walk: &mut Iter<'o>) -> (usize, Option<(&'o String, &'o Value)>, usize)
    ensures left { result.0 ≡ length walk.old }
    ensures takes { TakesFirst deref_pair walk.old result.1 walk.new }
    ensures remain { result.2 ≡ length walk.new }
    ensures counts { CountsDown result.0 result.1 result.2 }
{
    let left = walk.len();
    let entry = walk.next();
    (left, entry, walk.len())
}

/// Takes one step over names. Returns how many were left, the first of them, and how many are left after it.
#[tactic(auto, using(crate::proofs::StepLemmas::counts_down))]
pub fn step_over_keys<'o>(walk: &mut Keys<'o>) -> (usize, Option<&'o String>, usize)
    ensures left { result.0 ≡ length walk.old }
    ensures takes { TakesFirst deref walk.old result.1 walk.new }
    ensures remain { result.2 ≡ length walk.new }
    ensures counts { CountsDown result.0 result.1 result.2 }
{
    let left = walk.len();
    let key = walk.next();
    (left, key, walk.len())
}

/// Takes one step over values. Returns how many were left, the first of them, and how many are left after it.
#[tactic(auto, using(crate::proofs::StepLemmas::counts_down))]
pub fn step_over_values<'o>(walk: &mut Values<'o>) -> (usize, Option<&'o Value>, usize)
    ensures left { result.0 ≡ length walk.old }
    ensures takes { TakesFirst deref walk.old result.1 walk.new }
    ensures remain { result.2 ≡ length walk.new }
    ensures counts { CountsDown result.0 result.1 result.2 }
{
    let left = walk.len();
    let value = walk.next();
    (left, value, walk.len())
}

/// Takes one step over owned entries. Returns how many were left, the first of them, and how many are left after it.
#[tactic(auto, using(crate::proofs::StepLemmas::counts_down))]
pub fn step_over_owned_entries(walk: &mut IntoIter) -> (usize, Option<(String, Value)>, usize)
    ensures left { result.0 ≡ length walk.old }
    ensures takes { TakesFirst (λ entry. entry) walk.old result.1 walk.new }
    ensures remain { result.2 ≡ length walk.new }
    ensures counts { CountsDown result.0 result.1 result.2 }
{
    let left = walk.len();
    let owned = walk.next();
    (left, owned, walk.len())
}
