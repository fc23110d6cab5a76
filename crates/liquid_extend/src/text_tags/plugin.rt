//! Kinds of text tags as plug-ins. Their tokens are arguments.
ghost use Rattle.liquid_extend.specs.meaning.text_tags.Tags.{tag_given};

use crate::read_arguments;
use crate::text_tags::kind::{TagAnswer, TextTag};
use crate::text_tags::node::TextTagNode;
use liquid_error::Error;
use liquid_filters::FilterPlugin;
use liquid_parser::{ParseTag, TagReflection, TagTokenIter};
use liquid_plugins::{ParseFilter, PluginRegistry};
use std::alloc::Global;

/// A kind of text tag as a plug-in.
///
/// Its tokens are values and pairs `name: value`, in any order, with or without commas between them. Too few or too many
/// values, and a name that the tag doesn't take or that is given twice, are the error "Unexpected arguments".
#[derive(Debug, Clone, Copy, Drop)]
pub struct TextTagPlugin<K> {
    pub kind: K,
}

impl<K: TextTag> TagReflection for TextTagPlugin<K> {
    ghost tag_name = { λ plugin. (K.sense plugin.kind).name };

    fn tag(&self) -> &str {
        self.kind.row().name
    }

    fn description(&self) -> &str {
        self.kind.row().description
    }
}

impl<K: TextTag, F: ParseFilter> ParseTag<F> for TextTagPlugin<K> {
    type Node = TextTagNode<K>;

    ghost gives = { λ plugin filters ts. tag_given K.sense plugin.kind ts };

    fn parse(
        &self,
        alloc: Global,
        tokens: TagTokenIter<'_>,
        _filters: &PluginRegistry<F>,
    ) -> Result<TextTagNode<K>, Error> {
        let arguments = read_arguments(alloc, tokens)?;
        let tag = TagAnswer { tag: self.kind };
        let call = FilterPlugin { kind: tag }.parse(alloc, arguments)?;
        Ok(TextTagNode { call })
    }
}
