//! Rendering a text in one call.
ghost use Rattle.std.specs.Prelude.{◌≡◌, Err};
ghost use Rattle.liquid_error.specs.meaning.Refusal.{Refusal};
ghost use Rattle.liquid_parser.specs.meaning.Plugins.{language_of};
ghost use Rattle.liquid_parser.specs.meaning.Reading.{Reads};
ghost use Rattle.liquid_partials.specs.meaning.Rendered.{Writes, setting_by};
ghost use Rattle.liquid_template.specs.meaning.Partials.{partials_of};
ghost use Rattle.liquid_template.specs.meaning.Pours.{Pours};

use liquid_error::Error;
use liquid_parser::{Language, ParseBlock, ParseTag, parse};
use liquid_plugins::{ParseFilter, Renderable};
use liquid_runtime::Runtime;
use liquid_template::{PartialStore, Sink, Template};
use std::alloc::Global;

/// Parses a text, renders it in the runtime's view and writes the result.
///
/// A text that is not a template is an error before anything is written or changed, and before the store of partials is
/// asked. What was written before any other error stays written. If the sink fails, the error is "Failed to render".
pub fn render_source<F, T, B, R, K>(
    alloc: Global,
    text: &str,
    language: &Language<F, T, B>,
    runtime: &mut R,
    sink: &mut K,
) -> Result<(), Error>
where
    F: ParseFilter,
    T: ParseTag<F>,
    B: ParseBlock<F>,
    R: Runtime,
    T::Node: Renderable<R::Register>,
    B::Node: Renderable<R::Register>,
    R::Store: PartialStore<F::Filter, T::Node, B::Node>,
    K: Sink,
    ensures rendered { Writes R.view K.sunk (language_of F.makes T.gives B.block language.now) text.now
        (setting_by R.Register.fresh F.Filter.means T.Node.means B.Node.means R.Store.finds R.store)
        runtime.old runtime.new sink.old sink.new result }
    ensures untouched { (refusal : Refusal) → Reads (language_of F.makes T.gives B.block language.now) text.now (Err refusal)
        → runtime.new ≡ runtime.old }
    ensures pours { Pours (K.sunk sink.old) (K.sunk sink.new) result }
    ensures owes { R.restores runtime.new ≡ R.restores runtime.old }
    ensures store { partials_of R.Store.finds (R.store runtime.new) ≡ partials_of R.Store.finds (R.store runtime.old) }
    ensures borrows { R.lent runtime.new ≡ R.lent runtime.old }
{
    let nodes = parse(alloc, text, language)?;
    Template::new(nodes).render_to(alloc, sink, runtime)
}
