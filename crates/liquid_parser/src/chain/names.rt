//! Names of plug-ins and dividers.
ghost use Rattle.std.specs.Prelude.{◌≡◌, bytes_eq, map, string_bytes, IfOk};
ghost use Rattle.std.specs.FinMap.{keys};
ghost use Rattle.std.specs.List.{list_any};
ghost use Rattle.liquid_parser.specs.meaning.Lang.{listed};

use liquid_plugins::PluginRegistry;
use std::alloc::{AllocError, Global};

/// Returns the names of a registry, joined by `, `.
pub(crate) fn list_names<P: Drop>(
    alloc: Global,
    registry: &PluginRegistry<P>,
) -> Result<String, AllocError>
    ensures { IfOk result (λ t. string_bytes t ≡ listed (keys registry.now)) }
{
    let mut names = Vec::new(alloc);
    for name in registry.plugin_names() {
        names.push(name)?;
    }
    names.join(alloc, ", ")
}

/// Returns `true` if the name is one of these.
pub(crate) fn is_among(names: &[&str], name: &str) -> bool
    ensures { result ≡ list_any (bytes_eq name.now) (map (λ n. n.now) names.now) }
{
    for other in names {
        if name == *other {
            return true;
        }
    }
    false
}
