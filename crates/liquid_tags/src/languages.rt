//! The language of the library.
ghost use Rattle.std.specs.Prelude.{◌≡◌, IfOk};
ghost use Rattle.liquid_parser.specs.meaning.Plugins.{registry_of};
ghost use Rattle.liquid_tags.specs.meaning.Languages.{meaning_of, tags_and_blocks, the_blocks, the_tags};

use crate::block_plugins::Blocks;
use crate::tag_plugins::Tags;
use liquid_core::parser::PluginRegistry;
use liquid_core::{Language, ParseFilter};
use std::alloc::{AllocError, Global};

/// Returns the language of the library's tags and blocks, each under its name, with these filters.
pub fn language<F: ParseFilter>(
    alloc: Global,
    filters: PluginRegistry<F>,
) -> Result<Language<F, Tags, Blocks>, AllocError>
    ensures registered { IfOk result (λ l. (l.filters ≡ filters) × (l.tags ≡ the_tags) × (l.blocks ≡ the_blocks)) }
    ensures means { IfOk result (λ l. meaning_of F.makes l ≡ tags_and_blocks (registry_of F.makes filters)) }
{
    Ok(Language {
        filters,
        tags: tags(alloc)?,
        blocks: blocks(alloc)?,
    })
}

/// Returns the tags, each under its name.
fn tags(alloc: Global) -> Result<PluginRegistry<Tags>, AllocError>
    ensures { IfOk result (λ tags. tags ≡ the_tags) }
{
    let mut tags = PluginRegistry::new(alloc);
    tags.register("assign", Tags::Assign)?;
    tags.register("increment", Tags::Increment)?;
    tags.register("break", Tags::Break)?;
    tags.register("continue", Tags::Continue)?;
    tags.register("include", Tags::Include)?;
    tags.register("render", Tags::Render)?;
    Ok(tags)
}

/// Returns the blocks, each under its name.
fn blocks(alloc: Global) -> Result<PluginRegistry<Blocks>, AllocError>
    ensures { IfOk result (λ blocks. blocks ≡ the_blocks) }
{
    let mut blocks = PluginRegistry::new(alloc);
    blocks.register("if", Blocks::If)?;
    blocks.register("for", Blocks::For)?;
    blocks.register("raw", Blocks::Raw)?;
    Ok(blocks)
}
