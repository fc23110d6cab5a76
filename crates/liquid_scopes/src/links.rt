//! What links over one another show, the oldest first, given what is shown below them, and a value set in one of them.
ghost use Rattle.std.specs.Prelude.{◌≡◌, ◌&&◌, ◌||◌, ℕ, List, false, nat_eq, bytes_eq, is_none, map};
ghost use Rattle.std.specs.Prelude.{IfOk, OnOk, OnErr, option_map, string_bytes};
ghost use Rattle.liquid_error.specs.meaning.Told.{Gives};
ghost use Rattle.liquid_value.specs.meaning.View.{view as tree_of};
ghost use Rattle.liquid_runtime.specs.meaning.Frames.{Restore};
ghost use Rattle.liquid_runtime.specs.meaning.Sets.{old_global, put_global};
ghost use Rattle.liquid_scopes.specs.steps.Layers.{restoring, is_global, GlobalAt};
ghost use Rattle.liquid_scopes.specs.steps.Standing.{Forgotten, own_at, has_at, is_sandboxed, places_where};
ghost use Rattle.liquid_runtime.specs.meaning.View.{View};
ghost use Rattle.liquid_runtime.specs.meaning.NamesSeen.{names_seen};
ghost use Rattle.liquid_runtime.specs.meaning.Roots.{NamesOf};
ghost use Rattle.liquid_scopes.specs.steps.LinkLayers.{layer_of, layers_of, view_over};

use crate::index::Index;
use crate::link::Link;
use liquid_error::Error;
use liquid_runtime::Fresh;
use liquid_value::Value;
use std::alloc::{AllocError, Global};
use std::collections::BTreeSet;

/// Returns the name of the template.
pub(crate) fn name_over<'a, V: Fresh>(
    links: &'a [Link<V>],
    below: Option<&'a str>,
) -> Option<&'a str>
    ensures { (v : View V.Shape) → option_map (λ r. r.now) below.entry ≡ v.name → option_map (λ r. r.now) result
        ≡ (view_over v links.now).name }
{
    let mut name = below;
    for link in links {
        name = link.name_over(name);
    }
    name
}

/// Returns the names that have a value.
pub(crate) fn roots_over<V: Fresh>(
    alloc: Global,
    links: &[Link<V>],
    below: BTreeSet<String>,
) -> Result<BTreeSet<String>, AllocError>
    ensures { (v : View V.Shape) → NamesOf (names_seen v) below
        → IfOk result (λ names. NamesOf (names_seen (view_over v links.now)) names) }
{
    let mut names = below;
    for link in links {
        names = link.roots_over(alloc, names)?;
    }
    Ok(names)
}

/// Removes this place from the name's places in the index, unless the frame there gives the name a value.
pub(crate) fn forget_absent<V>(links: &[Link<V>], index: &mut Index, name: &str, place: usize)
    ensures { Forgotten (λ q. bytes_eq name.now q && is_none (own_at place (layers_of links.now) name.now)) place
        index.old.places index.new.places }
{
    match links.get(place) {
        Some(link) => link.forget_absent(index, name, place),
        None => index.forget(name, place),
    }
}

/// Gives a name a value in the global frame at this place, wherever the name is listed.
pub(crate) fn put<V: Fresh>(
    links: &mut Vec<Link<V>>,
    place: usize,
    name: String,
    value: Value,
) -> Result<Option<Value>, Error>
    requires { GlobalAt (layers_of links.old.items) place }
    ensures gives { (v : View V.Shape) → Gives (option_map tree_of) result (old_global (view_over v links.old.items) (string_bytes name)) }
    ensures sets { (v : View V.Shape) → OnOk result (view_over v links.new.items
        ≡ put_global (view_over v links.old.items) (string_bytes name) (tree_of value)) }
    ensures owes { (v : View V.Shape) (rs : List (Restore V.Shape)) → restoring V.shape v (layers_of links.new.items) rs
        ≡ restoring V.shape v (layers_of links.old.items) rs }
    ensures names { OnOk result ((q : List ℕ) (j : ℕ) → has_at (layers_of links.new.items) q j
        ≡ (has_at (layers_of links.old.items) q j || (bytes_eq (string_bytes name) q && nat_eq j place))) }
    ensures seals { OnOk result (places_where is_sandboxed 0 (layers_of links.new.items)
        ≡ places_where is_sandboxed 0 (layers_of links.old.items)) }
    ensures globals { OnOk result (places_where is_global 0 (layers_of links.new.items)
        ≡ places_where is_global 0 (layers_of links.old.items)) }
    ensures unchanged { OnErr result (map layer_of links.new.items ≡ map layer_of links.old.items) }
{
    links[place].assign(name, value)
}
