//! A filter that counts how often it is made and called.
ghost use Rattle.std.specs.Prelude.{codes, Ok};
ghost use Rattle.liquid_value.specs.meaning.Tree.{nil};

use liquid_error::Error;
use liquid_plugins::{
    Filter, FilterArguments, FilterReflection, Meant, ParameterReflection, ParseFilter,
};
use liquid_runtime::Runtime;
use liquid_value::{Value, ValueCow};
use std::alloc::Global;
use std::cell::Cell;
use std::rc::Rc;

/// Gives nil for each input. It is both the plug-in and the filter, and its counts are shared by all that it makes.
#[derive(Drop)]
pub struct Counted {
    pub made: Rc<Cell<u64>>,
    pub calls: Rc<Cell<u64>>,
}

impl Meant for Counted {
    type Shape = ();

    ghost shape = { λ _. tt };
}

impl FilterReflection for Counted {
    ghost filter_name = { λ _. codes "counted" };

    fn name(&self) -> &str {
        "counted"
    }

    fn description(&self) -> &str {
        "Counts how often it is made and called."
    }

    fn positional_parameters(&self) -> &'static [ParameterReflection] {
        &[]
    }

    fn keyword_parameters(&self) -> &'static [ParameterReflection] {
        &[]
    }
}

impl ParseFilter for Counted {
    type Filter = Counted;

    ghost makes = { λ _ _. Ok tt };

    fn parse(&self, _alloc: Global, _arguments: FilterArguments<'_>) -> Result<Counted, Error> {
        self.made.set(self.made.get().saturating_add(1));
        Ok(Counted {
            made: self.made.clone()?,
            calls: self.calls.clone()?,
        })
    }
}

impl Filter for Counted {
    ghost means = { record { answers = λ _ _ _. Ok nil; label = λ _. codes "counted" } };

    fn evaluate<'s, R: Runtime>(
        &'s self,
        _alloc: Global,
        _input: &ValueCow<'_>,
        _runtime: &'s R,
    ) -> Result<Value, Error> {
        self.calls.set(self.calls.get().saturating_add(1));
        Ok(Value::Nil)
    }

    fn label(&self) -> &str {
        "counted"
    }
}
