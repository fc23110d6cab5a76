//! Pages from bytes.
ghost use Rattle.std.specs.Prelude.{map};
ghost use Rattle.liquid_parser.specs.meaning.Plugins.{language_of};
ghost use Rattle.liquid_template.specs.meaning.Runs.{setting};
ghost use Rattle.liquid_pages.specs.meaning.Shown.{bytes_of_partial, ComesTo, IsShown, Page};

use crate::gather::PartialBytes;
use crate::options::PageOptions;
use crate::prepared::{prepare_page, render_prepared};
use crate::rendered::Rendered;
use liquid_parser::{Language, ParseBlock, ParseTag};
use liquid_plugins::{Discreet, ParseFilter};
use liquid_runtime::Fresh;
use std::alloc::Global;
use std::rc::Rc;

/// Renders a page: its template in this language, over globals that are a JSON object, with these partials.
///
/// The texts are read in this order, and the first fault is returned. The template, the globals, and each partial's
/// name and text must be UTF-8, and the globals a JSON object of values. Then the template is parsed, and rendered.
/// What was rendered before an error is in the output.
pub fn render_page<V, F, T, B>(
    alloc: Global,
    language: &Rc<Language<F, T, B>>,
    options: PageOptions,
    text: &[u8],
    globals: &[u8],
    partials: &[PartialBytes<'_>],
) -> Rendered
where
    V: Fresh,
    F: ParseFilter,
    T: ParseTag<F>,
    B: ParseBlock<F>,
    T::Node: Discreet<V>,
    B::Node: Discreet<V>,
    ensures { (page : Page) → ComesTo
        (setting V.fresh F.Filter.means T.Node.means B.Node.means)
        (language_of F.makes T.gives B.block language.now.value) options text.now globals.now
        (map bytes_of_partial partials.now) page
        → IsShown page result }
{
    let mut page = prepare_page(alloc, language, text, partials);
    render_prepared::<V, F, T, B>(alloc, &mut page, options, globals)
}
