//! Lists of values, and their views.
ghost use Rattle.std.specs.Prelude.{◌≡◌, pos, negsuc, refl, is_some, option_map};
ghost use Rattle.liquid_value.specs.meaning.Members.{item_count};
ghost use Rattle.liquid_value.specs.meaning.Tree.{Items, array};
ghost use Rattle.liquid_value.specs.meaning.Render.{render_items, listed_items, render};
ghost use Rattle.std.specs.Fmt.{WritesOnOk};
ghost use Rattle.std.specs.Prelude.{◌++◌, codes};
ghost use Rattle.liquid_value.specs.meaning.Place.{place_at, item_at};
ghost use Rattle.liquid_views.specs.meaning.Trees.{items_by};

use crate::build::array_of;
use crate::kind::ViewKind;
use crate::view::ValueView;
use liquid_value::{SharedArray, Value};
use std::alloc::{AllocError, Global};
use std::fmt;

/// A list of values of one type.
pub trait ArrayView: ValueView {
    type Item: ValueView;

    ghost items: { Self → Items };

    /// Returns the number of items.
    fn size(&self) -> i64
        ensures { result ≡ pos (item_count (items self.now)) };

    /// Returns the items in order.
    fn values(&self) -> &[Self::Item]
        ensures { items_by Self.Item.tree result.now ≡ items self.now };

    /// Returns `true` if there is an item at the index. A negative index counts from the end. It takes no memory.
    fn contains_key(&self, index: i64) -> bool
        ensures { result ≡ is_some (place_at index (item_count (items self.now))) };

    /// Returns the item at the index, if there is one. A negative index counts from the end. It takes no memory.
    fn get(&self, index: i64) -> Option<&Self::Item>
        ensures { option_map (λ x. Self.Item.tree x.now) result ≡ item_at index (items self.now) };

    /// Returns the first item, if there is one.
    fn first(&self) -> Option<&Self::Item>
        ensures { option_map (λ x. Self.Item.tree x.now) result ≡ item_at (pos 0) (items self.now) }
    {
        self.get(0)
    }

    /// Returns the last item, if there is one.
    fn last(&self) -> Option<&Self::Item>
        ensures { option_map (λ x. Self.Item.tree x.now) result ≡ item_at (negsuc 0) (items self.now) }
    {
        self.get(-1)
    }

    // the items are those of the value
    ghost holds: { (s : Self) → Self.tree s ≡ array (items s) };
}

// Returns the place in a list of this length that the index names, if it names one.
fn place_at(index: i64, length: usize) -> Option<usize>
    ensures { result ≡ place_at index length }
{
    if index < 0 {
        let back = index.unsigned_abs();
        if back <= length as u64 {
            Some(length - back as usize)
        } else {
            None
        }
    } else {
        let place = index as usize;
        if place < length { Some(place) } else { None }
    }
}

fn item_at<T: ValueView>(items: &[T], index: i64) -> Option<&T>
    ensures { option_map (λ x. T.tree x.now) result ≡ item_at index (items_by T.tree items.now) }
{
    match place_at(index, items.len()) {
        Some(place) => items.get(place),
        None => None,
    }
}

impl<T: ValueView> ValueView for Vec<T> {
    ghost tree = { λ v. array (items_by T.tree v.items) };

    #[tactic(auto, using(crate::proofs::Lists::has_no_items_of_list))]
    fn kind(&self) -> ViewKind<'_> {
        ViewKind::Array(self.is_empty())
    }

    fn to_value(&self, alloc: Global) -> Result<Value, AllocError> {
        Ok(Value::Array(SharedArray::shared(alloc, array_of(alloc, self)?)?))
    }

    fn write_render<W: fmt::Write>(&self, f: &mut fmt::Formatter<W>) -> fmt::Result {
        for item in self {
            item.write_render(f)?;
        }
        Ok(())
    }

    fn write_source<W: fmt::Write>(&self, f: &mut fmt::Formatter<W>) -> fmt::Result {
        f.write_str("[")?;
        list_items(self, f)?;
        f.write_str("]")
    }
}

fn list_items<T: ValueView, W: fmt::Write>(items: &[T], f: &mut fmt::Formatter<W>) -> fmt::Result
    ensures { WritesOnOk W.write_str_gives f.old result (listed_items (items_by T.tree items.now)) f.new }
{
    for item in items {
        list_item(item, f)?;
    }
    Ok(())
}

fn list_item<T: ValueView, W: fmt::Write>(item: &T, f: &mut fmt::Formatter<W>) -> fmt::Result
    ensures { WritesOnOk W.write_str_gives f.old result (render (T.tree item.now) ++ codes ", ") f.new }
{
    item.write_render(f)?;
    f.write_str(", ")
}

impl<T: ValueView> ArrayView for Vec<T> {
    type Item = T;

    ghost items = { λ v. items_by T.tree v.items };

    ghost holds = { λ v. refl };

    #[tactic(auto, using(crate::proofs::Lists::count_of_list))]
    fn size(&self) -> i64 {
        self.len() as i64
    }

    fn values(&self) -> &[T] {
        self.as_slice()
    }

    #[tactic(auto, using(crate::proofs::Lists::count_of_list))]
    fn contains_key(&self, index: i64) -> bool {
        place_at(index, self.len()).is_some()
    }

    fn get(&self, index: i64) -> Option<&T> {
        item_at(self.as_slice(), index)
    }
}

/// A list seen through a reference.
impl<A: ArrayView> ArrayView for &A {
    type Item = A::Item;

    ghost items = { λ a. A.items a.now };

    ghost holds = { λ a. A.holds a.now };

    fn size(&self) -> i64 {
        (**self).size()
    }

    fn values(&self) -> &[A::Item] {
        (**self).values()
    }

    fn contains_key(&self, index: i64) -> bool {
        (**self).contains_key(index)
    }

    fn get(&self, index: i64) -> Option<&A::Item> {
        (**self).get(index)
    }
}
