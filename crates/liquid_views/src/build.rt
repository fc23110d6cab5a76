//! Values built from what a program has.
ghost use Rattle.std.specs.Prelude.{◌≡◌, IfOk};
ghost use Rattle.liquid_value.specs.meaning.Tree.{no_members};
ghost use Rattle.liquid_value.specs.meaning.View.{items_view, members_view};
ghost use Rattle.liquid_views.specs.meaning.Pairs.{put_pairs};
ghost use Rattle.liquid_views.specs.meaning.Trees.{items_by};

use crate::view::ValueView;
use liquid_scalar::Scalar;
use liquid_value::{Array, Object};
use std::alloc::{AllocError, Global};

/// Returns the scalar of a number, a boolean, a string, a date or a date time.
pub fn scalar_of<T: Into<Scalar>>(value: T) -> Scalar
    ensures { T.converts value result }
{
    value.into()
}

/// Returns the list of these values, copied.
pub fn array_of<V: ValueView>(alloc: Global, items: &[V]) -> Result<Array, AllocError>
    ensures { IfOk result (λ v. items_view v.items ≡ items_by V.tree items.now) }
{
    let mut array = Vec::with_capacity(alloc, items.len())?;
    for item in items {
        array.push(item.to_value(alloc)?)?;
    }
    Ok(array)
}

/// Returns the map of these pairs of name and value, copied. Of two pairs with one name the later wins.
pub fn object_of<V: ValueView>(alloc: Global, pairs: &[(&str, V)]) -> Result<Object, AllocError>
    ensures { IfOk result (λ m. members_view m.entries ≡ put_pairs V.tree pairs.now no_members) }
{
    let mut object = Object::new(alloc);
    for pair in pairs {
        let name = String::from_str(alloc, pair.0)?;
        drop(object.insert(name, pair.1.to_value(alloc)?)?);
    }
    Ok(object)
}
