//! Finding the value of a name in a table of frames, or in the base.
ghost use Rattle.std.specs.Prelude.{◌≡◌, ◌≤◌, ◌<◌, ◌+◌, ◌^◌, ℕ, IfSome, option_map};
ghost use Rattle.liquid_runtime.specs.meaning.NamesSeen.{lookup};
ghost use Rattle.liquid_runtime.specs.meaning.LoopNames.{seen_tree};
ghost use Rattle.liquid_scopes.specs.steps.LinkLayers.{layers_of, view_over};
ghost use Rattle.liquid_scopes.specs.steps.Standing.{last_seal, own_at_top, two_looks};

use crate::flat_scopes::Count;
use crate::table::Table;
use liquid_runtime::{Runtime, Seen};

/// Returns the value of a name over this base. One lookup is in the unlisted frame, if it may be the name's last one,
/// and one is at its last listed place or in the base.
pub(crate) fn look_up<'a, R: Runtime>(
    table: &'a Table<R::Register>,
    base: &'a R,
    name: &str,
    count: &mut Count,
) -> Option<Seen<'a>>
    requires { count.old.looks + 2 < 2 ^ 64 }
    ensures value { option_map seen_tree result ≡ lookup (view_over (R.view base.now) table.now.links.items) name.now }
    ensures looks { count.new.looks ≤ count.old.looks + 2 }
    ensures counts { count.old.looks ≤ count.new.looks }
    ensures finds { IfSome result (λ value. count.old.looks + 1 ≤ count.new.looks) }
{
    let listed = table.find_listed(name);
    match table.unlisted_over(listed) {
        Some(place) => match table.look_at(place, name, count) {
            Some(seen) => Some(seen),
            None => look_listed(table, base, listed, name, count),
        },
        None => look_listed(table, base, listed, name, count),
    }
}

/// Returns the value that the name has at this place, or in the base if it has none. Frames below the last sandboxed
/// frame are not seen.
#[inline(always)]
fn look_listed<'a, R: Runtime>(
    table: &'a Table<R::Register>,
    base: &'a R,
    listed: Option<usize>,
    name: &str,
    count: &mut Count,
) -> Option<Seen<'a>>
    requires { count.old.looks + 1 < 2 ^ 64 }
    ensures value { option_map seen_tree result
        ≡ two_looks listed (last_seal (layers_of table.now.links.items))
        (own_at_top listed (layers_of table.now.links.items) name.now) (lookup (R.view base.now) name.now) }
    ensures looks { count.new.looks ≤ count.old.looks + 1 }
    ensures counts { count.old.looks ≤ count.new.looks }
    ensures finds { IfSome result (λ value. count.old.looks + 1 ≤ count.new.looks) }
{
    match listed {
        Some(place) => match table.find_sandboxed() {
            Some(seal) => {
                if place < seal {
                    return None;
                }
                table.look_at(place, name, count)
            }
            None => table.look_at(place, name, count),
        },
        None => match table.find_sandboxed() {
            Some(_) => None,
            None => {
                count.tick();
                base.try_get_name(name)
            }
        },
    }
}
