//! Objects of names.
ghost use Rattle.std.specs.FinMap.{insert};
ghost use Rattle.std.specs.Prelude.{◌≡◌, IfOk};
ghost use Rattle.liquid_value.specs.meaning.View.{view as tree_of};
ghost use Rattle.liquid_runtime.specs.meaning.Maps.{names_of};

use liquid_core::{Object, Value};
use std::alloc::{AllocError, Global};

/// Gives a name this value.
#[tactic(auto, using(liquid_runtime::proofs::ObjectNames::changed_objects))]
pub fn bind(alloc: Global, names: &mut Object, name: &str, value: Value) -> Result<(), AllocError>
    ensures { IfOk result (λ _. names_of names.new ≡ insert (names_of names.old) name.now (tree_of value)) }
{
    names.insert(String::from_str(alloc, name)?, value)?;
    Ok(())
}
