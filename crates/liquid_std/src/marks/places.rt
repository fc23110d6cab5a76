//! The places of the groups of `cycle`.
ghost use Rattle.std.specs.Prelude.{◌≡◌, option_copied, string_bytes, OnOk, OnErr};
ghost use Rattle.std.specs.FinMap.{empty, get, insert};

use std::alloc::{AllocError, Global};
use std::collections::BTreeMap;
use std::marker::Model;

/// A place for each group that has one: a finite map from the keys of groups.
#[derive(Drop)]
pub struct Places {
    places: BTreeMap<String, u64>,
}

impl Model for Places {
    ghost use Rattle.std.specs.Coded.{coded_list, coded_ℕ};
    ghost use Rattle.std.specs.Prelude.{ℕ};
    ghost use Rattle.std.specs.FinMap.{code};
    ghost use Rattle.liquid_runtime.specs.meaning.Maps.{NameMap};
    ghost use Rattle.liquid_plugins.specs.meaning.Registry.{by_name};

    ghost Value = { NameMap ℕ };

    ghost coded = { code (coded_list coded_ℕ) coded_ℕ };

    ghost view = { λ p. by_name p.places };
}

impl Places {
    /// Returns a map without places.
    #[tactic(auto, using(liquid_plugins::proofs::Registries::registries))]
    pub fn new(alloc: Global) -> Places
        ensures { result ≡ empty }
    {
        Places {
            places: BTreeMap::new(alloc),
        }
    }

    /// Returns the place of a group, if it has one.
    #[tactic(auto, using(liquid_plugins::proofs::Registries::registries))]
    pub fn get(&self, key: &str) -> Option<u64>
        ensures { result ≡ get self.now key.now }
    {
        self.places.get(key).copied()
    }

    /// Gives the group this place. If memory runs out, nothing changes.
    #[tactic(auto, using(liquid_plugins::proofs::Registries::registries))]
    pub fn set(&mut self, key: String, place: u64) -> Result<(), AllocError>
        ensures ok { OnOk result (self.new ≡ insert self.old (string_bytes key) place) }
        ensures err { OnErr result (self.new ≡ self.old) }
    {
        self.places.insert(key, place)?;
        Ok(())
    }
}
