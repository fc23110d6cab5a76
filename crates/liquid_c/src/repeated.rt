//! A page that is rendered over globals, as often as they come.
ghost use Rattle.std.specs.Prelude.{ℕ, List};
ghost use Rattle.liquid_template.specs.meaning.Runs.{setting};
ghost use Rattle.liquid_pages.specs.declared.options.PageOptions.{PageOptions};
ghost use Rattle.liquid_pages.specs.meaning.Pages.{nodes_in};
ghost use Rattle.liquid_pages.specs.meaning.Shown.{Page as Shown, IsShown};
ghost use Rattle.liquid_c.specs.steps.Prepared.{PreparedComesTo};

use liquid_core::parser::{Discreet, ParseBlock, ParseFilter, ParseTag};
use liquid_core::partials::{InMemorySource, LazyStore};
use liquid_core::{Fresh, PartialStore};
use liquid_pages::{PageOptions, PreparedPage, Rendered, render_prepared};
use std::alloc::Global;

/// A page that can be rendered over globals, as often as they come, with a register of type `V`.
pub(crate) trait RenderOver<V> {
    ghost comes: { Self → PageOptions → List ℕ → Shown → Type 0 };

    /// Renders the page over these globals.
    fn render_over(&mut self, alloc: Global, options: PageOptions, globals: &[u8]) -> Rendered
        ensures shows { (shown : Shown) → comes self.old options globals.now shown
            → IsShown shown result }
        ensures again { (options : PageOptions) (globals : List ℕ) (shown : Shown)
            → comes self.old options globals shown → comes self.new options globals shown };
}

impl<V, F, T, B> RenderOver<V> for PreparedPage<F, T, B>
where
    V: Fresh,
    F: ParseFilter,
    T: ParseTag<F>,
    B: ParseBlock<F>,
    T::Node: Discreet<V>,
    B::Node: Discreet<V>,
{
    ghost comes = { λ page options globals shown. PreparedComesTo B.Plan.Shape
        (setting V.fresh F.Filter.means T.Node.means B.Node.means)
        (nodes_in F.Filter.shape T.Node.shape B.Node.shape)
        ⟦<LazyStore<InMemorySource, F, T, B> as PartialStore<F::Filter, T::Node, B::Node>>⟧.finds
        page.texts options globals shown };

    fn render_over(&mut self, alloc: Global, options: PageOptions, globals: &[u8]) -> Rendered {
        render_prepared::<V, F, T, B>(alloc, self, options, globals)
    }
}
