//! Rendering a page of the standard language.
ghost use Rattle.liquid_runtime.specs.meaning.Maps.{names_of};
ghost use Rattle.liquid_parser.specs.meaning.Plugins.{registry_of};
ghost use Rattle.liquid_std.specs.meaning.Pages.{RendersPage};

use crate::block_plugins::StdBlocks;
use crate::languages::language;
use crate::marks::Marks;
use crate::tag_plugins::StdTags;
use liquid_core::parser::PluginRegistry;
use liquid_core::partials::PartialSource;
use liquid_core::{Error, Object, ParseFilter, Sink, render_page_in};
use std::alloc::Global;

/// Renders a page and writes the result: this text in the standard language with these filters, over these
/// globals, with the partials of this source.
///
/// A text that is not a template of the language is an error before anything is written. What was written before any
/// other error stays written. If the sink fails, the error is "Failed to render".
pub fn render_page<F, S, K>(
    alloc: Global,
    text: &str,
    globals: Object,
    partials: S,
    filters: PluginRegistry<F>,
    sink: &mut K,
) -> Result<(), Error>
where
    F: ParseFilter,
    S: PartialSource,
    K: Sink,
    ensures { RendersPage F.Filter.means (registry_of F.makes filters) text.now (names_of globals) (S.texts partials)
        (K.sunk sink.old) (K.sunk sink.new) result }
{
    let language = language(alloc, filters)?;
    render_page_in::<Marks, F, StdTags, StdBlocks, S, K>(
        alloc, text, language, globals, partials, sink,
    )
}
