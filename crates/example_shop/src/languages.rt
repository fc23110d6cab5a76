//! The shop's language.
ghost use Rattle.std.specs.Prelude.{◌≡◌, IfOk};
ghost use Rattle.example_shop.specs.meaning.Languages.{meaning_of, the_blocks, the_filters, the_language, the_tags};

use crate::badge::Badge;
use crate::filters::{Quoted, ShopFilters};
use crate::stock::Stock;
use crate::twice::Twice;
use liquid_core::parser::{Language, PluginRegistry};
use liquid_extend::{Beside, TextBlockPlugin};
use liquid_filters::filters_beside;
use liquid_tags::{Blocks, Tags};
use std::alloc::{AllocError, Global};

/// The tags of the library, and `badge`.
pub type ShopTags = Beside<Tags, Badge>;

/// The blocks of the library, `stock` and `twice`.
pub type ShopBlocks = Beside<Blocks, Beside<Stock, TextBlockPlugin<Twice>>>;

/// The standard filters and `quoted`, and these tags and blocks.
pub type ShopLanguage = Language<ShopFilters, ShopTags, ShopBlocks>;

/// Returns the language of the plug-ins, each under its name.
pub fn language(alloc: Global) -> Result<ShopLanguage, AllocError>
    ensures filters { IfOk result (λ l. l.filters ≡ the_filters) }
    ensures tags { IfOk result (λ l. l.tags ≡ the_tags) }
    ensures blocks { IfOk result (λ l. l.blocks ≡ the_blocks) }
    ensures means { IfOk result (λ l. meaning_of l ≡ the_language) }
{
    Ok(Language {
        filters: filters_beside(alloc, None, &[Quoted])?,
        tags: tags(alloc)?,
        blocks: blocks(alloc)?,
    })
}

/// Returns the tags.
fn tags(alloc: Global) -> Result<PluginRegistry<ShopTags>, AllocError>
    ensures { IfOk result (λ tags. tags ≡ the_tags) }
{
    let mut tags = PluginRegistry::new(alloc);
    tags.register("assign", Beside::Library(Tags::Assign))?;
    tags.register("include", Beside::Library(Tags::Include))?;
    tags.register("badge", Beside::Own(Badge))?;
    Ok(tags)
}

/// Returns the blocks.
fn blocks(alloc: Global) -> Result<PluginRegistry<ShopBlocks>, AllocError>
    ensures { IfOk result (λ blocks. blocks ≡ the_blocks) }
{
    let mut blocks = PluginRegistry::new(alloc);
    blocks.register("if", Beside::Library(Blocks::If))?;
    blocks.register("for", Beside::Library(Blocks::For))?;
    blocks.register("stock", Beside::Own(Beside::Library(Stock)))?;
    let twice = TextBlockPlugin { kind: Twice };
    blocks.register("twice", Beside::Own(Beside::Own(twice)))?;
    Ok(blocks)
}
