//! A filter that returns its input.
ghost use Rattle.std.specs.Prelude.{Ok, codes};

use liquid_error::Error;
use liquid_plugins::{Filter, Meant};
use liquid_runtime::Runtime;
use liquid_value::{Value, ValueCow};
use std::alloc::Global;

/// A filter that returns its input.
#[derive(Drop)]
pub struct Same;

impl Meant for Same {
    type Shape = u64;

    ghost shape = { λ _. 0 };
}

impl Filter for Same {
    ghost means = { record { answers = λ _ input _. Ok input; label = λ _. codes "same" } };

    fn evaluate<'s, R: Runtime>(
        &'s self,
        _alloc: Global,
        input: &ValueCow<'_>,
        _runtime: &'s R,
    ) -> Result<Value, Error> {
        Ok(input.as_view().clone()?)
    }

    fn label(&self) -> &str {
        "same"
    }
}
