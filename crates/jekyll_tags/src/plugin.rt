//! The tags, as plug-ins.
ghost use Rattle.std.specs.Prelude.{◌≡◌};
ghost use Rattle.jekyll_tags.specs.meaning.Given.{tag_given};
ghost use Rattle.jekyll_tags.specs.meaning.Named.{tag_name};

use crate::inclusion::JekyllInclusion;
use crate::reading::{read_name, read_pairs};
use liquid_core::parser::PluginRegistry;
use liquid_core::{Error, ParseFilter, ParseTag, TagReflection, TagTokenIter};
use std::alloc::Global;

/// Jekyll's tags that include partials.
///
/// Each but `seo` has a name: a chain, or chains between `<` and `>`, whose texts are joined. Pairs `name = value` follow,
/// which the partial gets as the object `include`.
#[derive(Debug, Clone, Copy, PartialEq, Eq, Drop)]
pub enum JekyllTags {
    Include,
    IncludeCached,
    /// The partial's name has `./` before it.
    IncludeRelative,
    /// The partial `seo`. The tag has no name.
    Seo,
}

impl TagReflection for JekyllTags {
    ghost tag_name = { tag_name };

    fn tag(&self) -> &str {
        match self {
            JekyllTags::Include => "include",
            JekyllTags::IncludeCached => "include_cached",
            JekyllTags::IncludeRelative => "include_relative",
            JekyllTags::Seo => "seo",
        }
    }

    fn description(&self) -> &str {
        match self {
            JekyllTags::Include => "Renders a partial.",
            JekyllTags::IncludeCached => "Renders a partial.",
            JekyllTags::IncludeRelative => "Renders a partial beside the page.",
            JekyllTags::Seo => "Renders the partial `seo`.",
        }
    }
}

impl<F: ParseFilter> ParseTag<F> for JekyllTags {
    type Node = JekyllInclusion<F::Filter>;

    ghost gives = { tag_given };

    fn parse(
        &self,
        alloc: Global,
        tokens: TagTokenIter<'_>,
        filters: &PluginRegistry<F>,
    ) -> Result<JekyllInclusion<F::Filter>, Error> {
        let mut tokens = tokens;
        let name = read_name(alloc, *self, &mut tokens, filters)?;
        let pairs = read_pairs(alloc, tokens)?;
        Ok(JekyllInclusion {
            tag: *self,
            name,
            pairs,
        })
    }
}
