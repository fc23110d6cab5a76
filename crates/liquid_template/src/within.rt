//! Rendering templates as long as a gate lets it continue.
ghost use Rattle.std.specs.Prelude.{◌≡◌};
ghost use Rattle.liquid_template.specs.meaning.Calls.{IsolatedGated, RendersGated, SandboxedGated};
ghost use Rattle.liquid_template.specs.meaning.Isolated.{OnlyIndexChanges};
ghost use Rattle.liquid_template.specs.meaning.OfTypes.{isolated_of, sandboxed_of, template_of};
ghost use Rattle.liquid_template.specs.meaning.Opens.{OpenNone};
ghost use Rattle.liquid_template.specs.meaning.Partials.{partials_of};
ghost use Rattle.liquid_template.specs.meaning.Sandboxed.{Untouched};

use crate::gate::{Gate, GatedSink};
use crate::outlet::{Outlet, WithGate};
use crate::sink::Sink;
use crate::store::PartialStore;
use crate::template::Template;
use liquid_error::Error;
use liquid_plugins::{Discreet, Filter, Renderable};
use liquid_runtime::{Runtime, Scopes};
use liquid_scopes::FlatScopes;
use liquid_value::Object;
use std::alloc::Global;

impl<X: Filter, T, B> Template<X, T, B> {
    /// Renders the template in the runtime's view and writes the result, as `render_to` does, as long as the gate lets
    /// it continue. If the gate does not, the error is "Rendering was stopped".
    pub fn render_within<R, K, G>(
        &self,
        alloc: Global,
        page: &mut GatedSink<K, G>,
        runtime: &mut R,
    ) -> Result<(), Error>
    where
        R: Runtime,
        T: Renderable<R::Register>,
        B: Renderable<R::Register>,
        R::Store: PartialStore<X, T, B>,
        K: Sink,
        G: Gate,
        ensures renders { RendersGated R.view K.sunk G.gated
            (template_of R.Register.fresh X.Filter T.Renderable B.Renderable R.Store.finds (R.store runtime.old) self.now)
            runtime.old runtime.new page.old page.new result }
        ensures owes { R.restores runtime.new ≡ R.restores runtime.old }
        ensures store { partials_of R.Store.finds (R.store runtime.new) ≡ partials_of R.Store.finds (R.store runtime.old) }
        ensures unasked { (R.view runtime.old).depth ≡ 0 → R.store runtime.new ≡ R.store runtime.old }
        ensures unopened { OpenNone T.means B.means → R.store runtime.new ≡ R.store runtime.old }
        ensures borrows { R.lent runtime.new ≡ R.lent runtime.old }
    {
        let mut scopes: FlatScopes<&mut R> = FlatScopes::new(alloc, runtime);
        let answer = self.render_gated(alloc, page, &mut scopes);
        let _base = scopes.into_base();
        answer
    }

    /// Renders the template over these scopes and writes the result, as long as the gate lets it continue.
    fn render_gated<S, K, G>(
        &self,
        alloc: Global,
        page: &mut GatedSink<K, G>,
        scopes: &mut S,
    ) -> Result<(), Error>
    where
        S: Scopes,
        T: Renderable<S::Register>,
        B: Renderable<S::Register>,
        S::Store: PartialStore<X, T, B>,
        K: Sink,
        G: Gate,
        ensures renders { RendersGated S.view K.sunk G.gated
            (template_of S.Register.fresh X.Filter T.Renderable B.Renderable S.Store.finds (S.store scopes.old) self.now)
            scopes.old scopes.new page.old page.new result }
        ensures owes { S.restores scopes.new ≡ S.restores scopes.old }
        ensures store { partials_of S.Store.finds (S.store scopes.new) ≡ partials_of S.Store.finds (S.store scopes.old) }
        ensures unasked { (S.view scopes.old).depth ≡ 0 → S.store scopes.new ≡ S.store scopes.old }
        ensures unopened { OpenNone T.means B.means → S.store scopes.new ≡ S.store scopes.old }
        ensures borrows { S.lent scopes.new ≡ S.lent scopes.old }
    {
        let mut out: Outlet<GatedSink<K, G>, WithGate> = Outlet::new(page);
        let answer = self.render_out(alloc, &mut out, scopes);
        let _page = out.into_sink();
        answer
    }

    /// Renders the template in a sandbox over the parent and writes the result, as `render_sandboxed` does, as long as
    /// the gate lets it continue. If the gate does not, the error is "Rendering was stopped".
    pub fn render_sandboxed_within<R, K, G>(
        &self,
        alloc: Global,
        page: &mut GatedSink<K, G>,
        parent: &mut R,
        data: Object,
        name: Option<&str>,
    ) -> Result<(), Error>
    where
        R: Runtime,
        T: Discreet<R::Register>,
        B: Discreet<R::Register>,
        R::Store: PartialStore<X, T, B>,
        K: Sink,
        G: Gate,
        ensures renders { RendersGated R.view K.sunk G.gated
            (sandboxed_of R.Register.fresh X.Filter T.Discreet B.Discreet R.Store.finds (R.store parent.old) self.now «data» name.entry)
            parent.old parent.new page.old page.new result }
        ensures isolated { SandboxedGated R.view K.sunk G.gated R.Register.fresh
            (sandboxed_of R.Register.fresh X.Filter T.Discreet B.Discreet R.Store.finds (R.store parent.old) self.now «data» name.entry)
            parent.old parent.new page.old page.new result }
        ensures untouched { Untouched (R.view parent.old) (R.view parent.new) }
        ensures owes { R.restores parent.new ≡ R.restores parent.old }
        ensures store { partials_of R.Store.finds (R.store parent.new) ≡ partials_of R.Store.finds (R.store parent.old) }
        ensures unasked { (R.view parent.old).depth ≡ 0 → R.store parent.new ≡ R.store parent.old }
        ensures unopened { OpenNone T.means B.means → R.store parent.new ≡ R.store parent.old }
        ensures borrows { R.lent parent.new ≡ R.lent parent.old }
    {
        let mut scopes: FlatScopes<&mut R> = FlatScopes::new(alloc, parent);
        let answer = self.render_sandboxed_gated(alloc, page, &mut scopes, data, name);
        let _base = scopes.into_base();
        answer
    }

    /// Renders the template in a sandbox over these scopes and writes the result, as long as the gate lets it continue.
    fn render_sandboxed_gated<S, K, G>(
        &self,
        alloc: Global,
        page: &mut GatedSink<K, G>,
        scopes: &mut S,
        data: Object,
        name: Option<&str>,
    ) -> Result<(), Error>
    where
        S: Scopes,
        T: Discreet<S::Register>,
        B: Discreet<S::Register>,
        S::Store: PartialStore<X, T, B>,
        K: Sink,
        G: Gate,
        ensures renders { RendersGated S.view K.sunk G.gated
            (sandboxed_of S.Register.fresh X.Filter T.Discreet B.Discreet S.Store.finds (S.store scopes.old) self.now «data» name.entry)
            scopes.old scopes.new page.old page.new result }
        ensures isolated { SandboxedGated S.view K.sunk G.gated S.Register.fresh
            (sandboxed_of S.Register.fresh X.Filter T.Discreet B.Discreet S.Store.finds (S.store scopes.old) self.now «data» name.entry)
            scopes.old scopes.new page.old page.new result }
        ensures untouched { Untouched (S.view scopes.old) (S.view scopes.new) }
        ensures owes { S.restores scopes.new ≡ S.restores scopes.old }
        ensures store { partials_of S.Store.finds (S.store scopes.new) ≡ partials_of S.Store.finds (S.store scopes.old) }
        ensures unasked { (S.view scopes.old).depth ≡ 0 → S.store scopes.new ≡ S.store scopes.old }
        ensures unopened { OpenNone T.means B.means → S.store scopes.new ≡ S.store scopes.old }
        ensures borrows { S.lent scopes.new ≡ S.lent scopes.old }
    {
        let mut out: Outlet<GatedSink<K, G>, WithGate> = Outlet::new(page);
        let answer = self.render_sandboxed_out(alloc, &mut out, scopes, data, name);
        let _page = out.into_sink();
        answer
    }

    /// Renders the template in isolation over the parent and writes the result, as `render_isolated` does, as long as
    /// the gate lets it continue. If the gate does not, the error is "Rendering was stopped".
    pub fn render_isolated_within<R, K, G>(
        &self,
        alloc: Global,
        page: &mut GatedSink<K, G>,
        parent: &mut R,
        data: Object,
        name: Option<&str>,
    ) -> Result<(), Error>
    where
        R: Runtime,
        T: Renderable<R::Register>,
        B: Renderable<R::Register>,
        R::Store: PartialStore<X, T, B>,
        K: Sink,
        G: Gate,
        ensures renders { RendersGated R.view K.sunk G.gated
            (isolated_of R.Register.fresh X.Filter T.Renderable B.Renderable R.Store.finds (R.store parent.old) self.now «data» name.entry)
            parent.old parent.new page.old page.new result }
        ensures isolated { IsolatedGated R.view K.sunk G.gated R.Register.fresh
            (isolated_of R.Register.fresh X.Filter T.Renderable B.Renderable R.Store.finds (R.store parent.old) self.now «data» name.entry)
            parent.old parent.new page.old page.new result }
        ensures kept { OnlyIndexChanges (R.view parent.old) (R.view parent.new) }
        ensures owes { R.restores parent.new ≡ R.restores parent.old }
        ensures store { partials_of R.Store.finds (R.store parent.new) ≡ partials_of R.Store.finds (R.store parent.old) }
        ensures unasked { (R.view parent.old).depth ≡ 0 → R.store parent.new ≡ R.store parent.old }
        ensures unopened { OpenNone T.means B.means → R.store parent.new ≡ R.store parent.old }
        ensures borrows { R.lent parent.new ≡ R.lent parent.old }
    {
        let mut scopes: FlatScopes<&mut R> = FlatScopes::new(alloc, parent);
        let answer = self.render_isolated_gated(alloc, page, &mut scopes, data, name);
        let _base = scopes.into_base();
        answer
    }

    /// Renders the template in isolation over these scopes and writes the result, as long as the gate lets it continue.
    fn render_isolated_gated<S, K, G>(
        &self,
        alloc: Global,
        page: &mut GatedSink<K, G>,
        scopes: &mut S,
        data: Object,
        name: Option<&str>,
    ) -> Result<(), Error>
    where
        S: Scopes,
        T: Renderable<S::Register>,
        B: Renderable<S::Register>,
        S::Store: PartialStore<X, T, B>,
        K: Sink,
        G: Gate,
        ensures renders { RendersGated S.view K.sunk G.gated
            (isolated_of S.Register.fresh X.Filter T.Renderable B.Renderable S.Store.finds (S.store scopes.old) self.now «data» name.entry)
            scopes.old scopes.new page.old page.new result }
        ensures isolated { IsolatedGated S.view K.sunk G.gated S.Register.fresh
            (isolated_of S.Register.fresh X.Filter T.Renderable B.Renderable S.Store.finds (S.store scopes.old) self.now «data» name.entry)
            scopes.old scopes.new page.old page.new result }
        ensures kept { OnlyIndexChanges (S.view scopes.old) (S.view scopes.new) }
        ensures owes { S.restores scopes.new ≡ S.restores scopes.old }
        ensures store { partials_of S.Store.finds (S.store scopes.new) ≡ partials_of S.Store.finds (S.store scopes.old) }
        ensures unasked { (S.view scopes.old).depth ≡ 0 → S.store scopes.new ≡ S.store scopes.old }
        ensures unopened { OpenNone T.means B.means → S.store scopes.new ≡ S.store scopes.old }
        ensures borrows { S.lent scopes.new ≡ S.lent scopes.old }
    {
        let mut out: Outlet<GatedSink<K, G>, WithGate> = Outlet::new(page);
        let answer = self.render_isolated_out(alloc, &mut out, scopes, data, name);
        let _page = out.into_sink();
        answer
    }
}
