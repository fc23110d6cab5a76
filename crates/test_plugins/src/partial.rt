//! A store of one partial.
ghost use Rattle.std.specs.Prelude.{Ok, string_bytes};
ghost use Rattle.std.specs.FinMap.{empty, insert};
ghost use Rattle.liquid_template.specs.meaning.TemplateOf.{template_nodes};

use liquid_error::Error;
use liquid_plugins::{Filter, Meant};
use liquid_template::{PartialStore, Template, unknown_partial};
use std::alloc::{AllocError, Global};
use std::rc::Rc;

/// A store that has one partial, under its name.
#[derive(Drop)]
pub struct OnePartial<X, T, B> {
    pub name: String,
    pub template: Rc<Template<X, T, B>>,
}

impl<X: Filter, T: Meant + Drop, B: Meant + Drop> PartialStore<X, T, B> for OnePartial<X, T, B> {
    ghost finds = { λ store. insert empty (string_bytes store.name) (Ok (template_nodes X.shape T.shape B.shape store.template.value)) };

    fn contains(&self, name: &str) -> bool {
        name == self.name.as_str()
    }

    fn names(&self, alloc: Global) -> Result<Vec<&str>, AllocError> {
        let mut names = Vec::new(alloc);
        names.push(self.name.as_str())?;
        Ok(names)
    }

    fn try_get(
        &mut self,
        _alloc: Global,
        name: &str,
    ) -> Result<Option<Rc<Template<X, T, B>>>, AllocError> {
        if name == self.name.as_str() {
            Ok(Some(self.template.clone()?))
        } else {
            Ok(None)
        }
    }

    fn get(&mut self, alloc: Global, name: &str) -> Result<Rc<Template<X, T, B>>, Error> {
        if name == self.name.as_str() {
            Ok(self.template.clone()?)
        } else {
            Err(unknown_partial(alloc, name, &[self.name.as_str()]))
        }
    }
}
