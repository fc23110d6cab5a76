//! Jekyll's language.
ghost use Rattle.std.specs.Prelude.{◌≡◌, IfOk, OnOk};
ghost use Rattle.liquid_parser.specs.meaning.Plugins.{registry_of};
ghost use Rattle.liquid_tags.specs.meaning.Languages.{under_names};
ghost use Rattle.jekyll_language.specs.meaning.Languages.{
  meaning_of,
  own_tags,
  standard_tags,
  tags_and_blocks,
  the_blocks,
  the_tags,
};
ghost use Rattle.jekyll_language.specs.meaning.Plugins.{tag_name};

use jekyll_tags::{JekyllBlocks, JekyllLinks, JekyllTags};
use liquid_core::parser::PluginRegistry;
use liquid_core::{Language, ParseFilter};
use liquid_extend::Beside;
use liquid_std::conditions::Equality;
use liquid_std::iteration::OverScalar;
use liquid_std::{StdBlocks, StdTags};
use liquid_tags::Tags;
use std::alloc::{AllocError, Global};

/// The standard tags, and Jekyll's: those that include partials, and those that write a URL.
pub type SiteTags = Beside<StdTags, Beside<JekyllTags, JekyllLinks>>;

/// The standard blocks, and Jekyll's.
pub type SiteBlocks = Beside<StdBlocks, JekyllBlocks>;

/// Returns the language of the standard tags and blocks and of Jekyll's, each under its name, with these filters. The tag
/// `include` is Jekyll's. In conditions a value equals only the same one, and a `for` over a text has that text as its one
/// item.
///
/// Jekyll's authors write some names without quotes. `jekyll_source::jekyll_text` returns a text with the quotes, which is
/// then read in this language. An `Err` means out of memory.
pub fn language<F: ParseFilter>(
    alloc: Global,
    filters: PluginRegistry<F>,
) -> Result<Language<F, SiteTags, SiteBlocks>, AllocError>
    ensures registered { IfOk result (λ l. (l.filters ≡ filters) × (l.tags ≡ the_tags) × (l.blocks ≡ the_blocks)) }
    ensures means { IfOk result (λ l. meaning_of F.makes l ≡ tags_and_blocks (registry_of F.makes filters)) }
{
    Ok(Language {
        filters,
        tags: tags(alloc)?,
        blocks: blocks(alloc)?,
    })
}

/// Returns the tags, each under its name.
fn tags(alloc: Global) -> Result<PluginRegistry<SiteTags>, AllocError>
    ensures { IfOk result (λ tags. tags ≡ the_tags) }
{
    let mut tags = PluginRegistry::new(alloc);
    add_standard_tags(&mut tags)?;
    add_own_tags(&mut tags)?;
    Ok(tags)
}

/// Adds the standard tags, each under its name.
fn add_standard_tags(tags: &mut PluginRegistry<SiteTags>) -> Result<(), AllocError>
    ensures { OnOk result (tags.new ≡ under_names tag_name tags.old standard_tags) }
{
    tags.register("assign", Beside::Library(StdTags::Library(Tags::Assign)))?;
    tags.register(
        "increment",
        Beside::Library(StdTags::Library(Tags::Increment)),
    )?;
    tags.register("break", Beside::Library(StdTags::Library(Tags::Break)))?;
    tags.register(
        "continue",
        Beside::Library(StdTags::Library(Tags::Continue)),
    )?;
    tags.register("render", Beside::Library(StdTags::Library(Tags::Render)))?;
    tags.register("decrement", Beside::Library(StdTags::Decrement))?;
    tags.register("echo", Beside::Library(StdTags::Echo))?;
    tags.register("cycle", Beside::Library(StdTags::Cycle))?;
    Ok(())
}

/// Adds Jekyll's tags, each under its name.
fn add_own_tags(tags: &mut PluginRegistry<SiteTags>) -> Result<(), AllocError>
    ensures { OnOk result (tags.new ≡ under_names tag_name tags.old own_tags) }
{
    tags.register("include", Beside::Own(Beside::Library(JekyllTags::Include)))?;
    tags.register(
        "include_cached",
        Beside::Own(Beside::Library(JekyllTags::IncludeCached)),
    )?;
    tags.register(
        "include_relative",
        Beside::Own(Beside::Library(JekyllTags::IncludeRelative)),
    )?;
    tags.register("seo", Beside::Own(Beside::Library(JekyllTags::Seo)))?;
    tags.register("link", Beside::Own(Beside::Own(JekyllLinks::Link)))?;
    tags.register("post_url", Beside::Own(Beside::Own(JekyllLinks::PostUrl)))?;
    tags.register("feed_meta", Beside::Own(Beside::Own(JekyllLinks::FeedMeta)))?;
    Ok(())
}

/// Returns the blocks, each under its name.
fn blocks(alloc: Global) -> Result<PluginRegistry<SiteBlocks>, AllocError>
    ensures { IfOk result (λ blocks. blocks ≡ the_blocks) }
{
    let mut blocks = PluginRegistry::new(alloc);
    blocks.register("if", Beside::Library(StdBlocks::If(Equality::Same)))?;
    blocks.register("unless", Beside::Library(StdBlocks::Unless(Equality::Same)))?;
    blocks.register("case", Beside::Library(StdBlocks::Case(Equality::Same)))?;
    blocks.register(
        "for",
        Beside::Library(StdBlocks::For(OverScalar::TextItself)),
    )?;
    blocks.register("tablerow", Beside::Library(StdBlocks::Tablerow))?;
    blocks.register("capture", Beside::Library(StdBlocks::Capture))?;
    blocks.register("ifchanged", Beside::Library(StdBlocks::Ifchanged))?;
    blocks.register("comment", Beside::Library(StdBlocks::Comment))?;
    blocks.register("raw", Beside::Library(StdBlocks::Raw))?;
    blocks.register("highlight", Beside::Own(JekyllBlocks::Highlight))?;
    Ok(blocks)
}
