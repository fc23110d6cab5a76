//! Each call of any scopes returns and leaves what a list of calls says about it.
ghost use Rattle.std.specs.Prelude.{◌≡◌, ◌<◌, length, Ok, Err, IfOk, IfErr, IfSome, OnOk, OnErr, option_map, string_bytes};
ghost use Rattle.liquid_error.specs.meaning.Told.{told};
ghost use Rattle.liquid_paths.specs.meaning.PathOf.{indexes_of};
ghost use Rattle.liquid_value.specs.meaning.Cow.{cow_view};
ghost use Rattle.liquid_value.specs.meaning.View.{view as tree_of};
ghost use Rattle.liquid_runtime.specs.meaning.Calls.{frame_of};
ghost use Rattle.liquid_runtime.specs.meaning.OpenFrames.{opened};
ghost use Rattle.liquid_scopes.specs.meaning.Histories.{
  push as pushing,
  pop as popping,
  set_global as setting_global,
  set_index as setting_index,
  try_get as trying,
  get as getting,
  get_index as getting_index,
  nothing,
  old as old_value,
  value as value_found,
  found_or_refused,
};
ghost use Rattle.test_calls.specs.steps.ScopeCalls.{Leaves};

use liquid_error::Error;
use liquid_runtime::{Frame, Scopes};
use liquid_scalar::ScalarCow;
use liquid_value::{Value, ValueCow};
use std::alloc::{AllocError, Global};

pub(crate) fn push<S: Scopes>(scopes: &mut S, frame: Frame) -> Result<(), Error>
    ensures ok { OnOk result (Leaves S.view S.restores S.Register.fresh (pushing (frame_of frame)) scopes.old nothing scopes.new) }
    ensures unchanged { OnErr result (S.view scopes.new ≡ S.view scopes.old) }
    ensures owes { OnErr result (S.restores scopes.new ≡ S.restores scopes.old) }
{
    scopes.push(frame)
}

pub(crate) fn pop<S: Scopes>(scopes: &mut S)
    requires { 0 < length (opened (S.restores scopes.old)) }
    ensures { Leaves S.view S.restores S.Register.fresh popping scopes.old nothing scopes.new }
{
    scopes.pop();
}

pub(crate) fn set_global<S: Scopes>(
    scopes: &mut S,
    name: String,
    value: Value,
) -> Result<Option<Value>, Error>
    ensures ok { IfOk result (λ given. Leaves S.view S.restores S.Register.fresh
        (setting_global (string_bytes name) (tree_of value)) scopes.old (old_value (Ok (option_map tree_of given))) scopes.new) }
    ensures err { IfErr result (λ e. IfSome (told e) (λ refusal. Leaves S.view S.restores S.Register.fresh
        (setting_global (string_bytes name) (tree_of value)) scopes.old (old_value (Err refusal)) scopes.new)) }
    ensures unchanged { OnErr result (S.view scopes.new ≡ S.view scopes.old) }
    ensures owes { OnErr result (S.restores scopes.new ≡ S.restores scopes.old) }
{
    Ok(scopes.set_global(name, value)?)
}

pub(crate) fn set_index<S: Scopes>(
    scopes: &mut S,
    name: String,
    value: Value,
) -> Result<Option<Value>, Error>
    ensures ok { IfOk result (λ given. Leaves S.view S.restores S.Register.fresh
        (setting_index (string_bytes name) (tree_of value)) scopes.old (old_value (Ok (option_map tree_of given))) scopes.new) }
    ensures err { IfErr result (λ e. IfSome (told e) (λ refusal. Leaves S.view S.restores S.Register.fresh
        (setting_index (string_bytes name) (tree_of value)) scopes.old (old_value (Err refusal)) scopes.new)) }
    ensures unchanged { OnErr result (S.view scopes.new ≡ S.view scopes.old) }
    ensures owes { OnErr result (S.restores scopes.new ≡ S.restores scopes.old) }
{
    Ok(scopes.set_index(name, value)?)
}

pub(crate) fn try_get<'s, S: Scopes>(
    alloc: Global,
    scopes: &'s S,
    path: &[ScalarCow<'_>],
) -> Result<Option<ValueCow<'s>>, AllocError>
    ensures { IfOk result (λ found. Leaves S.view S.restores S.Register.fresh
        (trying (indexes_of path.now)) scopes.now (value_found (option_map cow_view found)) scopes.now) }
{
    Ok(scopes.try_get(alloc, path)?)
}

pub(crate) fn get<'s, S: Scopes>(
    alloc: Global,
    scopes: &'s S,
    path: &[ScalarCow<'_>],
) -> Result<ValueCow<'s>, Error>
    ensures ok { IfOk result (λ found. Leaves S.view S.restores S.Register.fresh
        (getting (indexes_of path.now)) scopes.now (found_or_refused (Ok (cow_view found))) scopes.now) }
    ensures err { IfErr result (λ e. IfSome (told e) (λ refusal. Leaves S.view S.restores S.Register.fresh
        (getting (indexes_of path.now)) scopes.now (found_or_refused (Err refusal)) scopes.now)) }
{
    Ok(scopes.get(alloc, path)?)
}

pub(crate) fn get_index<'s, S: Scopes>(scopes: &'s S, name: &str) -> Option<&'s Value>
    ensures { Leaves S.view S.restores S.Register.fresh (getting_index name.now) scopes.now
        (value_found (option_map (λ r. tree_of r.now) result)) scopes.now }
{
    scopes.get_index(name)
}
