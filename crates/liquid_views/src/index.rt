//! The keys of maps of values.
ghost use Rattle.std.specs.Prelude.{◌≡◌, ℕ, List, option_map, string_bytes, nat_eq, refl};
ghost use Rattle.std.specs.BTreeMap.{is_at};
ghost use Rattle.std.specs.Cmp.Lexicographic.{pointwise, slice_cmp};
ghost use Rattle.std.specs.Hash as writes;
ghost use Rattle.std.specs.Map.{lookup};
ghost use Rattle.std.specs.Ordering.{nat_cmp};

use std::cmp::Ordering;
use std::collections::BTreeMap;
use std::hash::Hash;

/// A key of a map of values. It is shown, compared, ordered and hashed as its text.
pub trait ObjectIndex: Ord + Hash {
    ghost index: { Self → List ℕ };

    /// Returns the text of the key.
    fn as_index(&self) -> &str
        ensures { result.now ≡ index self.now };

    /// Returns the value at the key with this text, if there is one. It takes no memory.
    ///
    /// The default compares one key after another. A type whose maps can be searched by a string, such as `String`,
    /// searches.
    fn value_in<'m, V>(map: &'m BTreeMap<Self, V>, name: &str) -> Option<&'m V>
    where
        Self: Sized,
        ensures { option_map (λ v. v.now) result ≡ lookup (is_at (λ key. slice_cmp nat_cmp name.now (index key))) map.now.entries }
    {
        for (key, value) in map.iter() {
            match name.cmp(key.as_index()) {
                Ordering::Equal => return Some(value),
                Ordering::Less | Ordering::Greater => {}
            }
        }
        None
    }

    // keys are equal as their texts
    ghost equal: { (x y : Self) → Self.eq x y ≡ pointwise nat_eq (index x) (index y) };

    // keys are ordered as their texts
    ghost ordered: { (x y : Self) → Self.cmp x y ≡ slice_cmp nat_cmp (index x) (index y) };

    // keys are hashed as their texts
    ghost hashed: { (x : Self) → Self.hash_input x ≡ writes.str (index x) };
}

impl ObjectIndex for String {
    ghost index = { string_bytes };

    ghost equal = { λ x y. refl };

    ghost ordered = { λ x y. refl };

    ghost hashed = { λ x. refl };

    fn as_index(&self) -> &str {
        self.as_str()
    }

    fn value_in<'m, V>(map: &'m BTreeMap<String, V>, name: &str) -> Option<&'m V> {
        map.get(name)
    }
}
