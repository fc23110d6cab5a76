//! A value at a name of an object.
ghost use Rattle.std.specs.Prelude.{◌≡◌, OnOk};
ghost use Rattle.liquid_value.specs.meaning.Members.{put_member};
ghost use Rattle.liquid_value.specs.meaning.View.{view, members_view};

use liquid_value::{Object, Value};
use std::alloc::{AllocError, Global};

/// Puts a value at a name, in place of any other.
pub(crate) fn put(
    alloc: Global,
    object: &mut Object,
    name: &str,
    value: Value,
) -> Result<(), AllocError>
    ensures { OnOk result (members_view object.new.entries ≡ put_member name.now (view value) (members_view object.old.entries)) }
{
    let name = String::from_str(alloc, name)?;
    drop(object.insert(name, value)?);
    Ok(())
}
