//! One object over another, and an object under a name.
ghost use Rattle.std.specs.Prelude.{◌≡◌, IfOk};
ghost use Rattle.liquid_value.specs.meaning.Tree.{object, member, no_members};
ghost use Rattle.liquid_value.specs.meaning.View.{members_view};
ghost use Rattle.page_site.specs.meaning.data_files.Merged.{merged};

use crate::data_files::entry::put;
use liquid_value::{Object, SharedObject, Value};
use std::alloc::{AllocError, Global};

/// Returns the members of both objects. A name of both has its value of the second one, as a whole: objects at one name
/// are not merged.
pub fn merge(below: Object, above: Object) -> Result<Object, AllocError>
    ensures { IfOk result (λ both. members_view both.entries ≡ merged (members_view below.entries) (members_view above.entries)) }
{
    let mut both = below;
    for (name, value) in above {
        drop(both.insert(name, value)?);
    }
    Ok(both)
}

/// Returns an object with one name, whose value is the object.
pub fn under(alloc: Global, name: &str, inner: Object) -> Result<Object, AllocError>
    ensures { IfOk result (λ outer. members_view outer.entries ≡ member name.now (object (members_view inner.entries)) no_members) }
{
    let mut outer = Object::new(alloc);
    let value = Value::Object(SharedObject::shared(alloc, inner)?);
    put(alloc, &mut outer, name, value)?;
    Ok(outer)
}
