//! The standard tags and blocks and a host's own, in one language.
ghost use Rattle.std.specs.Prelude.{◌≡◌, IfOk, OnOk, map};
ghost use Rattle.liquid_extend.specs.declared.beside.one_of.Beside.TheVariants.{Library, Own};
ghost use Rattle.liquid_tags.specs.meaning.Languages.{under_names};
ghost use Rattle.liquid_beside.specs.meaning.Languages.{blocks_beside, own_start, own_tag, tags_beside};

use liquid_core::parser::{BlockReflection, PluginRegistry, TagReflection};
use liquid_core::{Language, ParseFilter};
use liquid_extend::Beside;
use liquid_std::conditions::Equality;
use liquid_std::iteration::OverScalar;
use liquid_std::{StdBlocks, StdTags};
use liquid_tags::Tags;
use std::alloc::{AllocError, Global};

/// The standard tags.
const STANDARD_TAGS: [StdTags; 9] = [
    StdTags::Library(Tags::Assign),
    StdTags::Library(Tags::Increment),
    StdTags::Library(Tags::Break),
    StdTags::Library(Tags::Continue),
    StdTags::Library(Tags::Include),
    StdTags::Library(Tags::Render),
    StdTags::Decrement,
    StdTags::Echo,
    StdTags::Cycle,
];

/// The standard blocks.
const STANDARD_BLOCKS: [StdBlocks; 9] = [
    StdBlocks::If(Equality::Loose),
    StdBlocks::Unless(Equality::Loose),
    StdBlocks::Case(Equality::Loose),
    StdBlocks::For(OverScalar::Refused),
    StdBlocks::Tablerow,
    StdBlocks::Capture,
    StdBlocks::Ifchanged,
    StdBlocks::Comment,
    StdBlocks::Raw,
];

/// Returns the language of the standard tags and blocks and a host's own, which replace those of the same name, with
/// these filters. Each plug-in is under its own name.
pub fn language_beside<F, O, B>(
    alloc: Global,
    filters: PluginRegistry<F>,
    tags: &[O],
    blocks: &[B],
) -> Result<Language<F, Beside<StdTags, O>, Beside<StdBlocks, B>>, AllocError>
where
    F: ParseFilter,
    O: TagReflection + Clone + Copy + Drop,
    B: BlockReflection + Clone + Copy + Drop,
    ensures filters { IfOk result (λ l. l.filters ≡ filters) }
    ensures tags { IfOk result (λ l. l.tags ≡ tags_beside O.tag_name tags.now) }
    ensures blocks { IfOk result (λ l. l.blocks ≡ blocks_beside B.block_names blocks.now) }
{
    Ok(Language {
        filters,
        tags: tags_beside(alloc, tags)?,
        blocks: blocks_beside(alloc, blocks)?,
    })
}

/// Returns the standard tags and a host's own, each under its name.
fn tags_beside<O: TagReflection + Clone + Copy + Drop>(
    alloc: Global,
    own: &[O],
) -> Result<PluginRegistry<Beside<StdTags, O>>, AllocError>
    ensures { IfOk result (λ tags. tags ≡ tags_beside O.tag_name own.now) }
{
    let mut tags = PluginRegistry::new(alloc);
    add_standard_tags(&mut tags, &STANDARD_TAGS)?;
    add_own_tags(&mut tags, own)?;
    Ok(tags)
}

/// Adds standard tags, each under its name.
fn add_standard_tags<O: TagReflection + Clone + Copy + Drop>(
    tags: &mut PluginRegistry<Beside<StdTags, O>>,
    standard: &[StdTags],
) -> Result<(), AllocError>
    ensures { OnOk result (tags.new ≡ under_names (own_tag O.tag_name) tags.old (map Library standard.now)) }
{
    for tag in standard {
        tags.register(tag.tag(), Beside::Library(*tag))?;
    }
    Ok(())
}

/// Adds a host's own tags, each under its name.
fn add_own_tags<O: TagReflection + Clone + Copy + Drop>(
    tags: &mut PluginRegistry<Beside<StdTags, O>>,
    own: &[O],
) -> Result<(), AllocError>
    ensures { OnOk result (tags.new ≡ under_names (own_tag O.tag_name) tags.old (map Own own.now)) }
{
    for tag in own {
        tags.register(tag.tag(), Beside::Own(*tag))?;
    }
    Ok(())
}

/// Returns the standard blocks and a host's own, each under the name of its start tag.
fn blocks_beside<B: BlockReflection + Clone + Copy + Drop>(
    alloc: Global,
    own: &[B],
) -> Result<PluginRegistry<Beside<StdBlocks, B>>, AllocError>
    ensures { IfOk result (λ blocks. blocks ≡ blocks_beside B.block_names own.now) }
{
    let mut blocks = PluginRegistry::new(alloc);
    add_standard_blocks(&mut blocks, &STANDARD_BLOCKS)?;
    add_own_blocks(&mut blocks, own)?;
    Ok(blocks)
}

/// Adds standard blocks, each under the name of its start tag.
fn add_standard_blocks<B: BlockReflection + Clone + Copy + Drop>(
    blocks: &mut PluginRegistry<Beside<StdBlocks, B>>,
    standard: &[StdBlocks],
) -> Result<(), AllocError>
    ensures { OnOk result (blocks.new ≡ under_names (own_start B.block_names) blocks.old (map Library standard.now)) }
{
    for block in standard {
        blocks.register(block.start_tag(), Beside::Library(*block))?;
    }
    Ok(())
}

/// Adds a host's own blocks, each under the name of its start tag.
fn add_own_blocks<B: BlockReflection + Clone + Copy + Drop>(
    blocks: &mut PluginRegistry<Beside<StdBlocks, B>>,
    own: &[B],
) -> Result<(), AllocError>
    ensures { OnOk result (blocks.new ≡ under_names (own_start B.block_names) blocks.old (map Own own.now)) }
{
    for block in own {
        blocks.register(block.start_tag(), Beside::Own(*block))?;
    }
    Ok(())
}
