//! Rendering templates in a sandbox.
ghost use Rattle.std.specs.Prelude.{◌≡◌, IfOk, option_map, string_bytes};
ghost use Rattle.liquid_template.specs.meaning.Calls.{SandboxedTo};
ghost use Rattle.liquid_template.specs.meaning.OfTypes.{sandboxed_of};
ghost use Rattle.liquid_template.specs.meaning.Opens.{OpenNone};
ghost use Rattle.liquid_template.specs.meaning.Partials.{partials_of};
ghost use Rattle.liquid_template.specs.meaning.Sandboxed.{Untouched};
ghost use Rattle.liquid_template.specs.steps.Outs.{SandboxedOut, RendersOut};
ghost use Rattle.liquid_template.specs.steps.Place.{around};

use crate::outlet::{NoGate, Out, Outlet};
use crate::sink::Sink;
use crate::store::PartialStore;
use crate::template::Template;
use liquid_error::Error;
use liquid_plugins::{Discreet, Filter};
use liquid_runtime::{Frame, Runtime, Scopes};
use liquid_scopes::FlatScopes;
use liquid_value::Object;
use std::alloc::{AllocError, Global};

impl<X: Filter, T, B> Template<X, T, B> {
    /// Renders the template in a sandbox over these scopes and writes the result, piece by piece. It sees the names of
    /// `data`, and no other name of the scopes.
    ///
    /// The text, the error and what is written are those over scopes that have no other names. So are the index
    /// variables that are left. Names that the template assigned are laid over the globals that were there. Interrupt
    /// and register are afterwards what they were before, whatever the result. `name` is the template's name. If it is
    /// not given, the name is that of the scopes. Errors, a sink that fails and a lack of memory leave what they leave
    /// after `render_in`.
    pub fn render_sandboxed_in<S, K>(
        &self,
        alloc: Global,
        sink: &mut K,
        scopes: &mut S,
        data: Object,
        name: Option<&str>,
    ) -> Result<(), Error>
    where
        S: Scopes,
        T: Discreet<S::Register>,
        B: Discreet<S::Register>,
        S::Store: PartialStore<X, T, B>,
        K: Sink,
        ensures sandboxed { SandboxedTo S.view K.sunk S.Register.fresh
            (sandboxed_of S.Register.fresh X.Filter T.Discreet B.Discreet S.Store.finds (S.store scopes.old) self.now «data» name.entry)
            scopes.old scopes.new sink.old sink.new result }
        ensures untouched { Untouched (S.view scopes.old) (S.view scopes.new) }
        ensures owes { S.restores scopes.new ≡ S.restores scopes.old }
        ensures store { partials_of S.Store.finds (S.store scopes.new) ≡ partials_of S.Store.finds (S.store scopes.old) }
        ensures unasked { (S.view scopes.old).depth ≡ 0 → S.store scopes.new ≡ S.store scopes.old }
        ensures unopened { OpenNone T.means B.means → S.store scopes.new ≡ S.store scopes.old }
        ensures borrows { S.lent scopes.new ≡ S.lent scopes.old }
    {
        let mut out: Outlet<K, NoGate> = Outlet::new(sink);
        let answer = self.render_sandboxed_out(alloc, &mut out, scopes, data, name);
        let _sink = out.into_sink();
        answer
    }

    /// Renders the template in a sandbox over these scopes and writes the result, wherever pieces go.
    pub(crate) fn render_sandboxed_out<S, O>(
        &self,
        alloc: Global,
        out: &mut O,
        scopes: &mut S,
        data: Object,
        name: Option<&str>,
    ) -> Result<(), Error>
    where
        S: Scopes,
        T: Discreet<S::Register>,
        B: Discreet<S::Register>,
        S::Store: PartialStore<X, T, B>,
        O: Out,
        ensures renders { RendersOut S.view O.place
            (sandboxed_of S.Register.fresh X.Filter T.Discreet B.Discreet S.Store.finds (S.store scopes.old) self.now «data» name.entry)
            scopes.old scopes.new out.old out.new result }
        ensures isolated { SandboxedOut S.view O.place S.Register.fresh
            (sandboxed_of S.Register.fresh X.Filter T.Discreet B.Discreet S.Store.finds (S.store scopes.old) self.now «data» name.entry)
            scopes.old scopes.new out.old out.new result }
        ensures untouched { Untouched (S.view scopes.old) (S.view scopes.new) }
        ensures owes { S.restores scopes.new ≡ S.restores scopes.old }
        ensures store { partials_of S.Store.finds (S.store scopes.new) ≡ partials_of S.Store.finds (S.store scopes.old) }
        ensures unasked { (S.view scopes.old).depth ≡ 0 → S.store scopes.new ≡ S.store scopes.old }
        ensures unopened { OpenNone T.means B.means → S.store scopes.new ≡ S.store scopes.old }
        ensures borrows { S.lent scopes.new ≡ S.lent scopes.old }
        ensures around { around (O.place out.new) ≡ around (O.place out.old) }
    {
        let name = name_text(alloc, name)?;
        scopes.push(Frame::Sandboxed(data, name))?;
        let answer = self.render_out(alloc, out, scopes);
        scopes.pop();
        answer
    }

    /// Renders the template in a sandbox over the parent and writes the result, piece by piece, as
    /// `render_sandboxed_in` does over its own scopes.
    pub fn render_sandboxed<R, K>(
        &self,
        alloc: Global,
        sink: &mut K,
        parent: &mut R,
        data: Object,
        name: Option<&str>,
    ) -> Result<(), Error>
    where
        R: Runtime,
        T: Discreet<R::Register>,
        B: Discreet<R::Register>,
        R::Store: PartialStore<X, T, B>,
        K: Sink,
        ensures sandboxed { SandboxedTo R.view K.sunk R.Register.fresh
            (sandboxed_of R.Register.fresh X.Filter T.Discreet B.Discreet R.Store.finds (R.store parent.old) self.now «data» name.entry)
            parent.old parent.new sink.old sink.new result }
        ensures untouched { Untouched (R.view parent.old) (R.view parent.new) }
        ensures owes { R.restores parent.new ≡ R.restores parent.old }
        ensures store { partials_of R.Store.finds (R.store parent.new) ≡ partials_of R.Store.finds (R.store parent.old) }
        ensures unasked { (R.view parent.old).depth ≡ 0 → R.store parent.new ≡ R.store parent.old }
        ensures unopened { OpenNone T.means B.means → R.store parent.new ≡ R.store parent.old }
        ensures borrows { R.lent parent.new ≡ R.lent parent.old }
    {
        let mut scopes: FlatScopes<&mut R> = FlatScopes::new(alloc, parent);
        let answer = self.render_sandboxed_in(alloc, sink, &mut scopes, data, name);
        let _base = scopes.into_base();
        answer
    }
}

/// Returns the name as an owned text.
pub(crate) fn name_text(alloc: Global, name: Option<&str>) -> Result<Option<String>, AllocError>
    ensures { IfOk result (λ own. option_map (λ s. string_bytes s) own ≡ option_map (λ r. r.now) name.entry) }
{
    match name {
        Some(name) => Ok(Some(String::from_str(alloc, name)?)),
        None => Ok(None),
    }
}
