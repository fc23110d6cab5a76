//! Rendering templates in isolation.
ghost use Rattle.std.specs.Prelude.{◌≡◌};
ghost use Rattle.liquid_template.specs.meaning.Calls.{IsolatedTo};
ghost use Rattle.liquid_template.specs.meaning.OfTypes.{isolated_of};
ghost use Rattle.liquid_template.specs.meaning.Opens.{OpenNone};
ghost use Rattle.liquid_template.specs.meaning.Partials.{partials_of};
ghost use Rattle.liquid_template.specs.meaning.Isolated.{OnlyIndexChanges};
ghost use Rattle.liquid_template.specs.steps.Outs.{IsolatedOut, RendersOut};
ghost use Rattle.liquid_template.specs.steps.Place.{around};

use crate::outlet::{NoGate, Out, Outlet};
use crate::sandbox::name_text;
use crate::sink::Sink;
use crate::store::PartialStore;
use crate::template::Template;
use liquid_error::Error;
use liquid_plugins::{Filter, Renderable};
use liquid_runtime::{Frame, Runtime, Scopes};
use liquid_scopes::FlatScopes;
use liquid_value::Object;
use std::alloc::Global;

impl<X: Filter, T, B> Template<X, T, B> {
    /// Renders the template in isolation over these scopes and writes the result, piece by piece. It sees the names of
    /// `data` and those that it assigns itself, and no other name of the scopes.
    ///
    /// The text, the error and what is written are those over scopes that have no other names. What the template
    /// assigns ends with the call. Whatever the result, the scopes are afterwards as they were, with interrupt and
    /// register, except for index variables. `name` is the template's name. If it is not given, the name is that of the
    /// scopes. An error, a sink that fails and a lack of memory leave what they leave after `render_in`.
    pub fn render_isolated_in<S, K>(
        &self,
        alloc: Global,
        sink: &mut K,
        scopes: &mut S,
        data: Object,
        name: Option<&str>,
    ) -> Result<(), Error>
    where
        S: Scopes,
        T: Renderable<S::Register>,
        B: Renderable<S::Register>,
        S::Store: PartialStore<X, T, B>,
        K: Sink,
        ensures isolated { IsolatedTo S.view K.sunk S.Register.fresh
            (isolated_of S.Register.fresh X.Filter T.Renderable B.Renderable S.Store.finds (S.store scopes.old) self.now «data» name.entry)
            scopes.old scopes.new sink.old sink.new result }
        ensures kept { OnlyIndexChanges (S.view scopes.old) (S.view scopes.new) }
        ensures owes { S.restores scopes.new ≡ S.restores scopes.old }
        ensures store { partials_of S.Store.finds (S.store scopes.new) ≡ partials_of S.Store.finds (S.store scopes.old) }
        ensures unasked { (S.view scopes.old).depth ≡ 0 → S.store scopes.new ≡ S.store scopes.old }
        ensures unopened { OpenNone T.means B.means → S.store scopes.new ≡ S.store scopes.old }
        ensures borrows { S.lent scopes.new ≡ S.lent scopes.old }
    {
        let mut out: Outlet<K, NoGate> = Outlet::new(sink);
        let answer = self.render_isolated_out(alloc, &mut out, scopes, data, name);
        let _sink = out.into_sink();
        answer
    }

    /// Renders the template in isolation over these scopes and writes the result, wherever pieces go.
    pub(crate) fn render_isolated_out<S, O>(
        &self,
        alloc: Global,
        out: &mut O,
        scopes: &mut S,
        data: Object,
        name: Option<&str>,
    ) -> Result<(), Error>
    where
        S: Scopes,
        T: Renderable<S::Register>,
        B: Renderable<S::Register>,
        S::Store: PartialStore<X, T, B>,
        O: Out,
        ensures renders { RendersOut S.view O.place
            (isolated_of S.Register.fresh X.Filter T.Renderable B.Renderable S.Store.finds (S.store scopes.old) self.now «data» name.entry)
            scopes.old scopes.new out.old out.new result }
        ensures isolated { IsolatedOut S.view O.place S.Register.fresh
            (isolated_of S.Register.fresh X.Filter T.Renderable B.Renderable S.Store.finds (S.store scopes.old) self.now «data» name.entry)
            scopes.old scopes.new out.old out.new result }
        ensures kept { OnlyIndexChanges (S.view scopes.old) (S.view scopes.new) }
        ensures owes { S.restores scopes.new ≡ S.restores scopes.old }
        ensures store { partials_of S.Store.finds (S.store scopes.new) ≡ partials_of S.Store.finds (S.store scopes.old) }
        ensures unasked { (S.view scopes.old).depth ≡ 0 → S.store scopes.new ≡ S.store scopes.old }
        ensures unopened { OpenNone T.means B.means → S.store scopes.new ≡ S.store scopes.old }
        ensures borrows { S.lent scopes.new ≡ S.lent scopes.old }
        ensures around { around (O.place out.new) ≡ around (O.place out.old) }
    {
        let name = name_text(alloc, name)?;
        scopes.push(Frame::Isolated(data, name))?;
        let answer = self.render_out(alloc, out, scopes);
        scopes.pop();
        answer
    }

    /// Renders the template in isolation over the parent and writes the result, piece by piece, as `render_isolated_in`
    /// does over its own scopes.
    pub fn render_isolated<R, K>(
        &self,
        alloc: Global,
        sink: &mut K,
        parent: &mut R,
        data: Object,
        name: Option<&str>,
    ) -> Result<(), Error>
    where
        R: Runtime,
        T: Renderable<R::Register>,
        B: Renderable<R::Register>,
        R::Store: PartialStore<X, T, B>,
        K: Sink,
        ensures isolated { IsolatedTo R.view K.sunk R.Register.fresh
            (isolated_of R.Register.fresh X.Filter T.Renderable B.Renderable R.Store.finds (R.store parent.old) self.now «data» name.entry)
            parent.old parent.new sink.old sink.new result }
        ensures kept { OnlyIndexChanges (R.view parent.old) (R.view parent.new) }
        ensures owes { R.restores parent.new ≡ R.restores parent.old }
        ensures store { partials_of R.Store.finds (R.store parent.new) ≡ partials_of R.Store.finds (R.store parent.old) }
        ensures unasked { (R.view parent.old).depth ≡ 0 → R.store parent.new ≡ R.store parent.old }
        ensures unopened { OpenNone T.means B.means → R.store parent.new ≡ R.store parent.old }
        ensures borrows { R.lent parent.new ≡ R.lent parent.old }
    {
        let mut scopes: FlatScopes<&mut R> = FlatScopes::new(alloc, parent);
        let answer = self.render_isolated_in(alloc, sink, &mut scopes, data, name);
        let _base = scopes.into_base();
        answer
    }
}
