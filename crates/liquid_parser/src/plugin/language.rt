//! Languages.
ghost use Rattle.std.specs.Prelude.{◌≡◌, is_some, IfOk, OnErr, OnOk};
ghost use Rattle.std.specs.FinMap.{empty, get, insert};
ghost use Rattle.liquid_plugins.specs.meaning.Registry.{IsCopy};

use crate::plugin::block::BlockReflection;
use crate::plugin::tag::TagReflection;
use liquid_plugins::{FilterReflection, PluginRegistry};
use std::alloc::{AllocError, Global};

/// What a template may use: filters, tags and blocks, each with its name.
#[derive(Drop)]
pub struct Language<F, T, B> {
    pub filters: PluginRegistry<F>,
    pub tags: PluginRegistry<T>,
    pub blocks: PluginRegistry<B>,
}

impl<F: Drop, T: Drop, B: Drop> Language<F, T, B> {
    /// Returns the language without filters, tags and blocks. It takes no memory.
    pub fn empty(alloc: Global) -> Language<F, T, B>
        ensures filters { result.filters ≡ empty }
        ensures tags { result.tags ≡ empty }
        ensures blocks { result.blocks ≡ empty }
    {
        Language {
            filters: PluginRegistry::new(alloc),
            tags: PluginRegistry::new(alloc),
            blocks: PluginRegistry::new(alloc),
        }
    }
}

/// Each call adds a plug-in under the name that the plug-in itself returns. It returns whether the plug-in replaced
/// another one of that name, which is dropped.
///
/// If memory runs out, the language is left as it was, and the plug-in is dropped.
impl<F: FilterReflection + Drop, T: TagReflection + Drop, B: BlockReflection + Drop> Language<
    F,
    T,
    B,
> {
    /// Adds a filter.
    pub fn add_filter(&mut self, alloc: Global, filter: F) -> Result<bool, AllocError>
        ensures replaced { IfOk result (λ replaced. replaced ≡ is_some (get self.old.filters (F.filter_name filter))) }
        ensures ok { OnOk result (self.new.filters ≡ insert self.old.filters (F.filter_name filter) filter) }
        ensures err { OnErr result (self.new.filters ≡ self.old.filters) }
        ensures others { (self.new.tags ≡ self.old.tags) × (self.new.blocks ≡ self.old.blocks) }
    {
        let name = String::from_str(alloc, filter.name())?;
        self.filters.register(name.as_str(), filter)
    }

    /// Adds a tag.
    pub fn add_tag(&mut self, alloc: Global, tag: T) -> Result<bool, AllocError>
        ensures replaced { IfOk result (λ replaced. replaced ≡ is_some (get self.old.tags (T.tag_name tag))) }
        ensures ok { OnOk result (self.new.tags ≡ insert self.old.tags (T.tag_name tag) tag) }
        ensures err { OnErr result (self.new.tags ≡ self.old.tags) }
        ensures others { (self.new.filters ≡ self.old.filters) × (self.new.blocks ≡ self.old.blocks) }
    {
        let name = String::from_str(alloc, tag.tag())?;
        self.tags.register(name.as_str(), tag)
    }

    /// Adds a block under the name of its start tag.
    pub fn add_block(&mut self, alloc: Global, block: B) -> Result<bool, AllocError>
        ensures replaced { IfOk result (λ replaced. replaced ≡ is_some (get self.old.blocks (B.block_names block).start_name)) }
        ensures ok { OnOk result (self.new.blocks ≡ insert self.old.blocks (B.block_names block).start_name block) }
        ensures err { OnErr result (self.new.blocks ≡ self.old.blocks) }
        ensures others { (self.new.filters ≡ self.old.filters) × (self.new.tags ≡ self.old.tags) }
    {
        let name = String::from_str(alloc, block.start_tag())?;
        self.blocks.register(name.as_str(), block)
    }
}

impl<F: Clone, T: Clone, B: Clone> Clone for Language<F, T, B> {
    ghost is_clone = { λ l copy. IsCopy F.is_clone l.filters copy.filters
        × IsCopy T.is_clone l.tags copy.tags × IsCopy B.is_clone l.blocks copy.blocks };

    fn clone(&self) -> Result<Language<F, T, B>, AllocError> {
        Ok(Language {
            filters: self.filters.clone()?,
            tags: self.tags.clone()?,
            blocks: self.blocks.clone()?,
        })
    }
}
