//! Stores of partials.
ghost use Rattle.std.specs.Prelude.{◌≡◌, is_some, map, option_map, IfOk, IfSome};
ghost use Rattle.std.specs.FinMap.{empty, get, keys};
ghost use Rattle.liquid_error.specs.meaning.Told.{told, Gives};
ghost use Rattle.liquid_template.specs.meaning.Partials.{Found, partial_in, tree_in, unknown_partial};
ghost use Rattle.liquid_template.specs.meaning.TemplateOf.{template_nodes};

use crate::template::Template;
use liquid_error::Error;
use liquid_plugins::{Filter, Meant};
use std::alloc::{AllocError, Global};
use std::rc::Rc;

/// A store of partials: a finite map from names to the results of parsing their texts.
///
/// No request changes what the store finds, whatever was requested before.
pub trait PartialStore<X: Filter, T: Meant, B: Meant> {
    ghost finds: { Self → Found X.Shape T.Shape B.Shape };

    /// Returns `true` if there is a partial of this name, even if its text has an error.
    fn contains(&self, name: &str) -> bool
        ensures { result ≡ is_some (get (finds self.now) name.now) };

    /// Returns the names, in byte order. An `Err` means out of memory.
    fn names(&self, alloc: Global) -> Result<Vec<&str>, AllocError>
        ensures { IfOk result (λ names. map (λ name. name.now) names.items ≡ keys (finds self.now)) };

    /// Returns the partial of a name, or `None` if there is none of this name or if its text has an error. An `Err`
    /// means out of memory.
    fn try_get(
        &mut self,
        alloc: Global,
        name: &str,
    ) -> Result<Option<Rc<Template<X, T, B>>>, AllocError>
        ensures gives { IfOk result (λ found. option_map (λ template. template_nodes X.shape T.shape B.shape template.value) found
            ≡ tree_in (finds self.old) name.now) }
        ensures kept { finds self.new ≡ finds self.old };

    /// Returns the partial of a name, or the error of its text. For an unknown name the error is "Unknown
    /// partial-template", with the contexts `requested partial` and `available partials`.
    fn get(&mut self, alloc: Global, name: &str) -> Result<Rc<Template<X, T, B>>, Error>
        ensures gives { Gives (λ template. template_nodes X.shape T.shape B.shape template.value) result
            (partial_in (finds self.old) name.now) }
        ensures kept { finds self.new ≡ finds self.old };
}

/// The store without partials.
impl<X: Filter, T: Meant, B: Meant> PartialStore<X, T, B> for () {
    ghost finds = { λ _. empty };

    fn contains(&self, _name: &str) -> bool {
        false
    }

    fn names(&self, alloc: Global) -> Result<Vec<&str>, AllocError> {
        Ok(Vec::new(alloc))
    }

    fn try_get(
        &mut self,
        _alloc: Global,
        _name: &str,
    ) -> Result<Option<Rc<Template<X, T, B>>>, AllocError> {
        Ok(None)
    }

    fn get(&mut self, alloc: Global, name: &str) -> Result<Rc<Template<X, T, B>>, Error> {
        Err(unknown_partial(alloc, name, &[]))
    }
}

/// Returns the error for a name that is not among those that are available.
#[tactic(auto, using(crate::proofs::NoPartials::joined_names))]
pub fn unknown_partial(alloc: Global, name: &str, available: &[&str]) -> Error
    ensures { IfSome (told result) (λ refusal. refusal ≡ unknown_partial name.now (map (λ other. other.now) available.now)) }
{
    match available.join(alloc, ", ") {
        Ok(listed) => Error::with_msg(alloc, "Unknown partial-template")
            .context(alloc, "requested partial", name)
            .context(alloc, "available partials", listed.as_str()),
        Err(_) => Error::Memory,
    }
}
