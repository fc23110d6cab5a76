//! Languages of the test plug-ins.
ghost use Rattle.std.specs.Prelude.{◌≡◌, IfOk};
ghost use Rattle.test_plugins.specs.meaning.Languages.{
  hostile_blocks,
  hostile_tags,
  leaky_tags,
  plain_blocks,
  plain_tags,
  the_filters,
};
ghost use Rattle.test_plugins.specs.meaning.ProgramLanguage.{meaning_of, program_language};

use crate::block_plugins::{Blocks, HostileBlocks};
use crate::filters::Filters;
use crate::tag_plugins::{HostileTags, LeakyTags, Tags};
use liquid_parser::Language;
use liquid_plugins::PluginRegistry;
use std::alloc::{AllocError, Global};

/// Returns the plain language: the filters, tags and blocks that hide nothing and leak nothing, each under its own
/// name.
pub fn language(alloc: Global) -> Result<Language<Filters, Tags, Blocks>, AllocError>
    ensures registered { IfOk result (λ l. (l.filters ≡ the_filters) × (l.tags ≡ plain_tags) × (l.blocks ≡ plain_blocks)) }
    ensures means { IfOk result (λ l. meaning_of l ≡ program_language) }
{
    let mut tags = PluginRegistry::new(alloc);
    tags.register("set", Tags::Set)?;
    tags.register("inc", Tags::Inc)?;
    tags.register("brk", Tags::Brk)?;
    Ok(Language {
        filters: filters(alloc)?,
        tags,
        blocks: blocks(alloc)?,
    })
}

/// Returns the same language with the tag `leak`.
pub fn leaky_language(alloc: Global) -> Result<Language<Filters, LeakyTags, Blocks>, AllocError>
    ensures { IfOk result (λ l. (l.filters ≡ the_filters) × (l.tags ≡ leaky_tags) × (l.blocks ≡ plain_blocks)) }
{
    let mut tags = PluginRegistry::new(alloc);
    tags.register("set", LeakyTags::Plain(Tags::Set))?;
    tags.register("inc", LeakyTags::Plain(Tags::Inc))?;
    tags.register("brk", LeakyTags::Plain(Tags::Brk))?;
    tags.register("leak", LeakyTags::Leak)?;
    Ok(Language {
        filters: filters(alloc)?,
        tags,
        blocks: blocks(alloc)?,
    })
}

/// Returns the plain language with the malicious tags `spin` and `mute` and the malicious blocks `far` and `b`.
pub fn hostile_language(
    alloc: Global,
) -> Result<Language<Filters, HostileTags, HostileBlocks>, AllocError>
    ensures { IfOk result (λ l. (l.filters ≡ the_filters) × (l.tags ≡ hostile_tags) × (l.blocks ≡ hostile_blocks)) }
{
    Ok(Language {
        filters: filters(alloc)?,
        tags: malicious_tags(alloc)?,
        blocks: malicious_blocks(alloc)?,
    })
}

/// Returns the plain tags, and the malicious ones.
fn malicious_tags(alloc: Global) -> Result<PluginRegistry<HostileTags>, AllocError>
    ensures { IfOk result (λ tags. tags ≡ hostile_tags) }
{
    let mut tags = PluginRegistry::new(alloc);
    tags.register("set", HostileTags::Plain(Tags::Set))?;
    tags.register("inc", HostileTags::Plain(Tags::Inc))?;
    tags.register("brk", HostileTags::Plain(Tags::Brk))?;
    tags.register("spin", HostileTags::Spin)?;
    tags.register("mute", HostileTags::Mute)?;
    Ok(tags)
}

/// Returns the plain blocks, and the malicious ones.
fn malicious_blocks(alloc: Global) -> Result<PluginRegistry<HostileBlocks>, AllocError>
    ensures { IfOk result (λ blocks. blocks ≡ hostile_blocks) }
{
    let mut blocks = PluginRegistry::new(alloc);
    blocks.register("box", HostileBlocks::Plain(Blocks::Box))?;
    blocks.register("sbox", HostileBlocks::Plain(Blocks::Sbox))?;
    blocks.register("swap", HostileBlocks::Plain(Blocks::Swap))?;
    blocks.register("raw", HostileBlocks::Plain(Blocks::Raw))?;
    blocks.register("with", HostileBlocks::Plain(Blocks::With))?;
    blocks.register("glob", HostileBlocks::Plain(Blocks::Glob))?;
    blocks.register("far", HostileBlocks::Far)?;
    blocks.register("b", HostileBlocks::Odd)?;
    Ok(blocks)
}

/// Returns the filters of each language.
pub fn filters(alloc: Global) -> Result<PluginRegistry<Filters>, AllocError>
    ensures { IfOk result (λ r. r ≡ the_filters) }
{
    let mut filters = PluginRegistry::new(alloc);
    filters.register("append", Filters::Append)?;
    filters.register("fail", Filters::Fail)?;
    Ok(filters)
}

/// Returns the blocks of the plain language.
fn blocks(alloc: Global) -> Result<PluginRegistry<Blocks>, AllocError>
    ensures { IfOk result (λ r. r ≡ plain_blocks) }
{
    let mut blocks = PluginRegistry::new(alloc);
    blocks.register("box", Blocks::Box)?;
    blocks.register("sbox", Blocks::Sbox)?;
    blocks.register("swap", Blocks::Swap)?;
    blocks.register("raw", Blocks::Raw)?;
    blocks.register("with", Blocks::With)?;
    blocks.register("glob", Blocks::Glob)?;
    Ok(blocks)
}
