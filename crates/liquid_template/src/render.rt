//! Rendering templates.
ghost use Rattle.std.specs.Prelude.{◌≡◌, string_bytes};
ghost use Rattle.liquid_error.specs.meaning.Told.{Gives};
ghost use Rattle.liquid_runtime.specs.meaning.Written.{SameFrames};
ghost use Rattle.liquid_template.specs.meaning.OfTypes.{template_of};
ghost use Rattle.liquid_template.specs.meaning.Opens.{OpenNone};
ghost use Rattle.liquid_template.specs.meaning.Outcome.{Left, Renders};
ghost use Rattle.liquid_template.specs.meaning.Partials.{partials_of};
ghost use Rattle.liquid_template.specs.meaning.Run.{whole_text};
ghost use Rattle.liquid_template.specs.steps.Outs.{RendersOut};
ghost use Rattle.liquid_template.specs.steps.Place.{around};

use crate::cycle::render_list;
use crate::outlet::{NoGate, Out, Outlet};
use crate::sink::Sink;
use crate::store::PartialStore;
use crate::template::Template;
use crate::text_sink::TextSink;
use liquid_error::Error;
use liquid_plugins::{Filter, Renderable};
use liquid_runtime::{Runtime, Scopes};
use liquid_scopes::FlatScopes;
use std::alloc::Global;

impl<X: Filter, T, B> Template<X, T, B> {
    /// Renders the template over these scopes and writes the result, piece by piece.
    ///
    /// What was written before an error stays written, and the frames are then as they were. Names that were assigned,
    /// index variables and registers stay as the template left them. If the sink fails, the error is "Failed to
    /// render". If memory runs out, a beginning of the text is written.
    pub fn render_in<S, K>(&self, alloc: Global, sink: &mut K, scopes: &mut S) -> Result<(), Error>
    where
        S: Scopes,
        T: Renderable<S::Register>,
        B: Renderable<S::Register>,
        S::Store: PartialStore<X, T, B>,
        K: Sink,
        ensures renders { Renders (template_of
            S.Register.fresh X.Filter T.Renderable B.Renderable S.Store.finds (S.store scopes.old) self.now
            (S.view scopes.old))
            (S.view scopes.old)
            (K.sunk sink.old) (K.sunk sink.new) (S.view scopes.new) result }
        ensures owes { S.restores scopes.new ≡ S.restores scopes.old }
        ensures store { partials_of S.Store.finds (S.store scopes.new) ≡ partials_of S.Store.finds (S.store scopes.old) }
        ensures unasked { (S.view scopes.old).depth ≡ 0 → S.store scopes.new ≡ S.store scopes.old }
        ensures unopened { OpenNone T.means B.means → S.store scopes.new ≡ S.store scopes.old }
        ensures borrows { S.lent scopes.new ≡ S.lent scopes.old }
    {
        let mut out: Outlet<K, NoGate> = Outlet::new(sink);
        let answer = self.render_out(alloc, &mut out, scopes);
        let _sink = out.into_sink();
        answer
    }

    /// Renders the template and writes the result, wherever pieces go.
    pub(crate) fn render_out<S, O>(
        &self,
        alloc: Global,
        out: &mut O,
        scopes: &mut S,
    ) -> Result<(), Error>
    where
        S: Scopes,
        T: Renderable<S::Register>,
        B: Renderable<S::Register>,
        S::Store: PartialStore<X, T, B>,
        O: Out,
        ensures renders { RendersOut S.view O.place
            (template_of S.Register.fresh X.Filter T.Renderable B.Renderable S.Store.finds (S.store scopes.old) self.now)
            scopes.old scopes.new out.old out.new result }
        ensures owes { S.restores scopes.new ≡ S.restores scopes.old }
        ensures store { partials_of S.Store.finds (S.store scopes.new) ≡ partials_of S.Store.finds (S.store scopes.old) }
        ensures unasked { (S.view scopes.old).depth ≡ 0 → S.store scopes.new ≡ S.store scopes.old }
        ensures unopened { OpenNone T.means B.means → S.store scopes.new ≡ S.store scopes.old }
        ensures borrows { S.lent scopes.new ≡ S.lent scopes.old }
        ensures around { around (O.place out.new) ≡ around (O.place out.old) }
    {
        let depth = scopes.depth();
        let mut answer = Ok(());
        render_list(alloc, self.nodes(), depth, out, scopes, &mut answer);
        answer
    }

    /// Renders the template in the runtime's view and writes the result, piece by piece, as `render_in` does over its
    /// own scopes.
    pub fn render_to<R, K>(&self, alloc: Global, sink: &mut K, runtime: &mut R) -> Result<(), Error>
    where
        R: Runtime,
        T: Renderable<R::Register>,
        B: Renderable<R::Register>,
        R::Store: PartialStore<X, T, B>,
        K: Sink,
        ensures renders { Renders (template_of
            R.Register.fresh X.Filter T.Renderable B.Renderable R.Store.finds (R.store runtime.old) self.now
            (R.view runtime.old))
            (R.view runtime.old)
            (K.sunk sink.old) (K.sunk sink.new) (R.view runtime.new) result }
        ensures owes { R.restores runtime.new ≡ R.restores runtime.old }
        ensures store { partials_of R.Store.finds (R.store runtime.new) ≡ partials_of R.Store.finds (R.store runtime.old) }
        ensures unasked { (R.view runtime.old).depth ≡ 0 → R.store runtime.new ≡ R.store runtime.old }
        ensures unopened { OpenNone T.means B.means → R.store runtime.new ≡ R.store runtime.old }
        ensures borrows { R.lent runtime.new ≡ R.lent runtime.old }
    {
        let mut scopes: FlatScopes<&mut R> = FlatScopes::new(alloc, runtime);
        let answer = self.render_in(alloc, sink, &mut scopes);
        let _base = scopes.into_base();
        answer
    }

    /// Returns the text of the template, rendered in the runtime's view.
    pub fn render<R>(&self, alloc: Global, runtime: &mut R) -> Result<String, Error>
    where
        R: Runtime,
        T: Renderable<R::Register>,
        B: Renderable<R::Register>,
        R::Store: PartialStore<X, T, B>,
        ensures value { Gives string_bytes result (whole_text (template_of
            R.Register.fresh X.Filter T.Renderable B.Renderable R.Store.finds (R.store runtime.old) self.now
            (R.view runtime.old))) }
        ensures left { Left (template_of
            R.Register.fresh X.Filter T.Renderable B.Renderable R.Store.finds (R.store runtime.old) self.now
            (R.view runtime.old))
            (R.view runtime.new) result }
        ensures frames { SameFrames (R.view runtime.old) (R.view runtime.new) }
        ensures owes { R.restores runtime.new ≡ R.restores runtime.old }
        ensures store { partials_of R.Store.finds (R.store runtime.new) ≡ partials_of R.Store.finds (R.store runtime.old) }
        ensures unasked { (R.view runtime.old).depth ≡ 0 → R.store runtime.new ≡ R.store runtime.old }
        ensures unopened { OpenNone T.means B.means → R.store runtime.new ≡ R.store runtime.old }
        ensures borrows { R.lent runtime.new ≡ R.lent runtime.old }
    {
        let mut sink = TextSink::new(alloc);
        self.render_to(alloc, &mut sink, runtime)?;
        Ok(sink.into_string().unwrap())
    }
}
