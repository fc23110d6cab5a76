//! The standard language.
ghost use Rattle.std.specs.Prelude.{◌≡◌, IfOk};
ghost use Rattle.liquid_parser.specs.meaning.Plugins.{registry_of};
ghost use Rattle.liquid_std.specs.meaning.Languages.{meaning_of, tags_and_blocks, the_blocks, the_tags};

use crate::block_plugins::StdBlocks;
use crate::conditions::Equality;
use crate::iteration::OverScalar;
use crate::tag_plugins::StdTags;
use liquid_core::parser::PluginRegistry;
use liquid_core::{Language, ParseFilter};
use liquid_tags::Tags;
use std::alloc::{AllocError, Global};

/// Returns the language of the standard tags and blocks, each under its name, with these filters.
pub fn language<F: ParseFilter>(
    alloc: Global,
    filters: PluginRegistry<F>,
) -> Result<Language<F, StdTags, StdBlocks>, AllocError>
    ensures registered { IfOk result (λ l. (l.filters ≡ filters) × (l.tags ≡ the_tags) × (l.blocks ≡ the_blocks)) }
    ensures means { IfOk result (λ l. meaning_of F.makes l ≡ tags_and_blocks (registry_of F.makes filters)) }
{
    Ok(Language {
        filters,
        tags: tags(alloc)?,
        blocks: blocks(alloc)?,
    })
}

/// Returns the tags, each under its name.
fn tags(alloc: Global) -> Result<PluginRegistry<StdTags>, AllocError>
    ensures { IfOk result (λ tags. tags ≡ the_tags) }
{
    let mut tags = PluginRegistry::new(alloc);
    tags.register("assign", StdTags::Library(Tags::Assign))?;
    tags.register("increment", StdTags::Library(Tags::Increment))?;
    tags.register("break", StdTags::Library(Tags::Break))?;
    tags.register("continue", StdTags::Library(Tags::Continue))?;
    tags.register("include", StdTags::Library(Tags::Include))?;
    tags.register("render", StdTags::Library(Tags::Render))?;
    tags.register("decrement", StdTags::Decrement)?;
    tags.register("echo", StdTags::Echo)?;
    tags.register("cycle", StdTags::Cycle)?;
    Ok(tags)
}

/// Returns the blocks, each under its name.
fn blocks(alloc: Global) -> Result<PluginRegistry<StdBlocks>, AllocError>
    ensures { IfOk result (λ blocks. blocks ≡ the_blocks) }
{
    let mut blocks = PluginRegistry::new(alloc);
    blocks.register("if", StdBlocks::If(Equality::Loose))?;
    blocks.register("unless", StdBlocks::Unless(Equality::Loose))?;
    blocks.register("case", StdBlocks::Case(Equality::Loose))?;
    blocks.register("for", StdBlocks::For(OverScalar::Refused))?;
    blocks.register("tablerow", StdBlocks::Tablerow)?;
    blocks.register("capture", StdBlocks::Capture)?;
    blocks.register("ifchanged", StdBlocks::Ifchanged)?;
    blocks.register("comment", StdBlocks::Comment)?;
    blocks.register("raw", StdBlocks::Raw)?;
    Ok(blocks)
}
