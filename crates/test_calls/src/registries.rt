//! The calls of a registry.
use liquid_core::parser::PluginRegistry;
use std::alloc::Global;
use test_plugins::Filters;

type Registry = PluginRegistry<Filters>;

/// Returns `true` if a filter is registered, and takes the place of another one if it should.
fn registers(registry: &mut Registry, name: &str, filter: Filters, replaces: bool) -> bool {
    match registry.register(name, filter) {
        Ok(is_replaced) => is_replaced == replaces,
        Err(_) => false,
    }
}

/// Returns `true` if a filter is registered as `fail`, and none as `Fail`.
fn has_fail(registry: &Registry, filter: &Filters) -> bool {
    registry.get("fail") == Some(filter) && registry.get("Fail").is_none()
}

/// Returns `true` if the other filter takes the place of the first one, but not in a copy made before.
fn replaces_one(registry: &mut Registry) -> bool {
    match registry.clone() {
        Ok(before) => {
            registers(registry, "fail", Filters::Fail, true)
                && has_fail(registry, &Filters::Fail)
                && has_fail(&before, &Filters::Append)
        }
        Err(_) => false,
    }
}

/// Returns `true` if the names are listed in order.
fn names_are_listed(registry: &Registry) -> bool {
    let mut names = registry.plugin_names();
    names.len() == 2
        && names.next() == Some("append")
        && names.len() == 1
        && names.next() == Some("fail")
        && names.next().is_none()
        && names.next().is_none()
}

/// Returns `true` if the filters are listed in the order of their names.
fn plugins_are_listed(registry: &Registry) -> bool {
    let mut plugins = registry.plugins();
    plugins.len() == 2
        && plugins.next() == Some(&Filters::Append)
        && plugins.next() == Some(&Filters::Fail)
        && plugins.next().is_none()
}

/// Returns `true` if an empty registry has the filters that are registered, by name.
fn has_plug_ins(registry: &mut Registry) -> bool {
    registers(registry, "fail", Filters::Append, false)
        && registers(registry, "append", Filters::Append, false)
        && replaces_one(registry)
        && names_are_listed(registry)
        && plugins_are_listed(registry)
}

/// Returns `true` if each call of a registry has its result.
pub fn registries_answer(alloc: Global) -> bool {
    let mut registry = PluginRegistry::new(alloc);
    has_plug_ins(&mut registry)
}
