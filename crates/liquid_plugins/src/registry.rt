//! Registries: plug-ins by their names.
ghost use Rattle.std.specs.Prelude.{◌≡◌, is_some, length, string_bytes, IfOk, IfSome, OnOk, OnErr};
ghost use Rattle.std.specs.FinMap.{empty, get, insert, keys, values};
ghost use Rattle.std.specs.Iterator.{UpTo, at_most};
ghost use Rattle.std.specs.Iterator.SizeHint.{IsExactHint, IsWithinCount};
ghost use Rattle.std.specs.Map.Iter.{TakesFirst, deref};
ghost use Rattle.std.specs.Option.{option_copied};
ghost use Rattle.liquid_plugins.specs.meaning.Registry.{IsCopy};

use std::alloc::{AllocError, Global};
use std::collections::{BTreeMap, btree_map};
use std::marker::Model;

/// Plug-ins of one kind, each under a name: a finite map.
#[derive(Drop)]
pub struct PluginRegistry<P> {
    alloc: Global,
    plugins: BTreeMap<String, P>,
}

impl<P> Model for PluginRegistry<P> {
    ghost use Rattle.std.specs.Coded.{coded_list, coded_ℕ};
    ghost use Rattle.std.specs.FinMap.{code};
    ghost use Rattle.liquid_runtime.specs.meaning.Maps.{NameMap};
    ghost use Rattle.liquid_plugins.specs.meaning.Registry.{by_name};

    ghost Value = { NameMap P };

    ghost coded = { code (coded_list coded_ℕ) P.code };

    ghost view = { λ r. by_name r.plugins };
}

impl<P: Drop> PluginRegistry<P> {
    /// Returns a registry without plug-ins.
    #[tactic(auto, using(crate::proofs::Registries::registries))]
    pub fn new(alloc: Global) -> PluginRegistry<P>
        ensures { result ≡ empty }
    {
        PluginRegistry {
            alloc,
            plugins: BTreeMap::new(alloc),
        }
    }

    /// Registers the plug-in under the name, and returns whether it replaced another, which is dropped.
    ///
    /// If memory runs out, the registry is left as it was, and the plug-in is dropped.
    #[tactic(auto, using(crate::proofs::Registries::registries))]
    pub fn register(&mut self, name: &str, plugin: P) -> Result<bool, AllocError>
        ensures replaced { IfOk result (λ replaced. replaced ≡ is_some (get self.old name.now)) }
        ensures ok { OnOk result (self.new ≡ insert self.old name.now plugin) }
        ensures err { OnErr result (self.new ≡ self.old) }
    {
        let name = String::from_str(self.alloc, name)?;
        let old = self.plugins.insert(name, plugin)?;
        Ok(old.is_some())
    }

    /// Returns the plug-in of the name.
    #[tactic(auto, using(crate::proofs::Registries::registries))]
    pub fn get(&self, name: &str) -> Option<&P>
        ensures { option_copied result ≡ get self.now name.now }
    {
        self.plugins.get(name)
    }

    /// Returns an iterator over the names, in byte order.
    #[tactic(auto, using(crate::proofs::Registries::registries))]
    pub fn plugin_names(&self) -> PluginNames<'_, P>
        ensures { result ≡ keys self.now }
    {
        PluginNames {
            names: self.plugins.keys(),
        }
    }

    /// Returns an iterator over the plug-ins, in byte order of their names.
    #[tactic(auto, using(crate::proofs::Registries::registries))]
    pub fn plugins(&self) -> Plugins<'_, P>
        ensures { result ≡ values self.now }
    {
        Plugins {
            plugins: self.plugins.values(),
        }
    }
}

impl<P: Clone> Clone for PluginRegistry<P> {
    ghost is_clone = { IsCopy P.is_clone };

    #[tactic(auto, using(crate::proofs::Registries::registries))]
    fn clone(&self) -> Result<PluginRegistry<P>, AllocError> {
        Ok(PluginRegistry {
            alloc: self.alloc,
            plugins: self.plugins.clone()?,
        })
    }
}

/// An iterator over the names of a registry, in byte order.
#[derive(Drop)]
pub struct PluginNames<'r, P> {
    names: btree_map::Keys<'r, String, P>,
}

impl<'r, P> Model for PluginNames<'r, P> {
    ghost use Rattle.std.specs.Prelude.{ℕ, List, map, string_bytes};

    ghost Value = { List (List ℕ) };

    ghost view = { λ n. map (λ s. string_bytes s) n.names };
}

impl<'r, P> Iterator for PluginNames<'r, P> {
    type Item = &'r str;

    ghost next_gives = { TakesFirst deref };

    ghost remaining = { λ s. at_most (length s) };

    fn next(&mut self) -> Option<&'r str> {
        match self.names.next() {
            Some(name) => Some(name.as_str()),
            None => None,
        }
    }

    /// Returns the number of names that are left, as both bounds.
    fn size_hint(&self) -> (usize, Option<usize>)
        ensures lower { IsWithinCount result.0 (at_most (length self.now)) }
        ensures upper { IfSome result.1 (UpTo (at_most (length self.now))) }
        ensures exact { IsExactHint result (length self.now) }
    {
        let left = self.names.len();
        (left, Some(left))
    }
}

impl<P> ExactSizeIterator for PluginNames<'_, P> {
    fn len(&self) -> usize {
        self.names.len()
    }
}

/// An iterator over the plug-ins of a registry, in byte order of their names.
#[derive(Drop)]
pub struct Plugins<'r, P> {
    plugins: btree_map::Values<'r, String, P>,
}

impl<'r, P> Model for Plugins<'r, P> {
    ghost use Rattle.std.specs.Prelude.{List};

    ghost Value = { List P };

    ghost view = { λ p. p.plugins };
}

impl<'r, P> Iterator for Plugins<'r, P> {
    type Item = &'r P;

    ghost next_gives = { TakesFirst deref };

    ghost remaining = { λ s. at_most (length s) };

    fn next(&mut self) -> Option<&'r P> {
        self.plugins.next()
    }

    /// Returns the number of plug-ins that are left, as both bounds.
    fn size_hint(&self) -> (usize, Option<usize>)
        ensures lower { IsWithinCount result.0 (at_most (length self.now)) }
        ensures upper { IfSome result.1 (UpTo (at_most (length self.now))) }
        ensures exact { IsExactHint result (length self.now) }
    {
        let left = self.plugins.len();
        (left, Some(left))
    }
}

impl<P> ExactSizeIterator for Plugins<'_, P> {
    fn len(&self) -> usize {
        self.plugins.len()
    }
}
