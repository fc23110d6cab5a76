//! The name of an item in an expression.
ghost use Rattle.std.specs.Prelude.{◌≡◌, string_bytes, IfOk, OnOk};
ghost use Rattle.std.specs.FinMap.{empty, insert};
ghost use Rattle.liquid_value.specs.meaning.View.{view as tree_of};
ghost use Rattle.liquid_runtime.specs.meaning.Maps.{names_of};

use liquid_value::{Object, Value};
use std::alloc::{AllocError, Global};

/// Returns the object in which only this name has a value.
pub(crate) fn one_name(alloc: Global, name: &str, value: &Value) -> Result<Object, AllocError>
    ensures { IfOk result (λ names. names_of names ≡ insert empty name.now (tree_of value.now)) }
{
    let mut names = no_names(alloc);
    bind(&mut names, String::from_str(alloc, name)?, value.clone()?)?;
    Ok(names)
}

#[tactic(auto, using(liquid_runtime::proofs::Objects::changed_objects))]
fn no_names(alloc: Global) -> Object
    ensures { names_of result ≡ empty }
{
    Object::new(alloc)
}

/// Gives a name a value.
#[tactic(auto, using(liquid_runtime::proofs::Objects::changed_objects))]
fn bind(names: &mut Object, name: String, value: Value) -> Result<(), AllocError>
    ensures { OnOk result (names_of names.new ≡ insert (names_of names.old) (string_bytes name) (tree_of value)) }
{
    drop(names.insert(name, value)?);
    Ok(())
}
