//! Finding a partial.
ghost use Rattle.std.specs.Prelude.{◌≡◌, ◌≤◌, IfOk, IfSome, option_map};
ghost use Rattle.liquid_error.specs.meaning.Told.{told, Gives};
ghost use Rattle.liquid_plugins.specs.meaning.Size.{size_nodes};
ghost use Rattle.liquid_template.specs.steps.Bound.{partials_size};
ghost use Rattle.liquid_template.specs.meaning.Partials.{too_deep, no_store, partial_in, partials_of};
ghost use Rattle.liquid_template.specs.steps.Sought.{store_answer};
ghost use Rattle.liquid_template.specs.meaning.TemplateOf.{template_nodes};

use crate::store::PartialStore;
use crate::template::Template;
use liquid_error::Error;
use liquid_plugins::{Filter, Meant};
use liquid_runtime::Scopes;
use std::alloc::Global;
use std::rc::Rc;

/// Returns the error for partials that are nested too deep.
#[inline(never)]
pub(crate) fn too_deep_error(alloc: Global) -> Error
    ensures { IfSome (told result) (λ r. r ≡ too_deep) }
{
    Error::with_msg(alloc, "Partials nest too deep")
}

/// Returns the error for a name if there is no store.
fn no_store_error(alloc: Global, name: &str) -> Error
    ensures { IfSome (told result) (λ r. r ≡ no_store name.now) }
{
    Error::with_msg(alloc, "Partial does not exist").context(alloc, "name", name)
}

/// Finds a partial in the store, if there is one.
#[inline(always)]
pub(crate) fn find<X, T, B, S>(
    alloc: Global,
    name: &str,
    scopes: &mut S,
) -> Result<Rc<Template<X, T, B>>, Error>
where
    X: Filter,
    T: Meant + Drop,
    B: Meant + Drop,
    S: Scopes,
    S::Store: PartialStore<X, T, B>,
    ensures gives { Gives (λ template. template_nodes X.shape T.shape B.shape template.value) result
        (store_answer (option_map partial_in (partials_of S.Store.finds (S.store scopes.old))) name.now) }
    ensures small { IfOk result (λ template. size_nodes (template_nodes X.shape T.shape B.shape template.value)
        ≤ partials_size (partials_of S.Store.finds (S.store scopes.old))) }
    ensures view { S.view scopes.new ≡ S.view scopes.old }
    ensures owes { S.restores scopes.new ≡ S.restores scopes.old }
    ensures store { partials_of S.Store.finds (S.store scopes.new) ≡ partials_of S.Store.finds (S.store scopes.old) }
    ensures borrows { S.lent scopes.new ≡ S.lent scopes.old }
{
    match scopes.partials() {
        Some(store) => store.get(alloc, name),
        None => Err(no_store_error(alloc, name)),
    }
}
