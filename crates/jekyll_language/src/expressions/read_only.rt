//! A runtime that is only read.
ghost use Rattle.std.specs.Prelude.{◌≡◌, option_map, IfOk};
ghost use Rattle.liquid_value.specs.meaning.View.{view as tree_of};
ghost use Rattle.liquid_runtime.specs.meaning.Calls.{registers_of, value_in, with_registers};
ghost use Rattle.liquid_runtime.specs.meaning.Erased.{Erased, erase};
ghost use Rattle.liquid_runtime.specs.meaning.LoopNames.{seen_tree};
ghost use Rattle.liquid_runtime.specs.meaning.NamesSeen.{comes_from_seal, lookup, names_seen};
ghost use Rattle.liquid_runtime.specs.meaning.Roots.{NamesOf};

use liquid_error::Error;
use liquid_runtime::{InterruptRegister, Leniency, Registers, Runtime, RuntimeCore, Seen};
use liquid_value::Value;
use std::alloc::{AllocError, Global};
use std::collections::BTreeSet;

/// What a filter reads of a runtime: each method as [`Runtime`] has it.
pub(crate) trait Readable {
    ghost seen: { Self → Erased };

    fn name(&self) -> Option<&str>
        ensures { option_map (λ r. r.now) result ≡ (seen self.now).name };

    fn try_get_name(&self, name: &str) -> Option<Seen<'_>>
        ensures { option_map seen_tree result ≡ lookup (seen self.now) name.now };

    fn seals(&self, name: &str) -> bool
        ensures { result ≡ comes_from_seal (seen self.now) name.now };

    fn roots(&self, alloc: Global) -> Result<BTreeSet<String>, AllocError>
        ensures { IfOk result (λ names. NamesOf (names_seen (seen self.now)) names) };

    fn get_index(&self, name: &str) -> Option<&Value>
        ensures { option_map (λ r. tree_of r.now) result ≡ value_in (seen self.now).index name.now };

    fn depth(&self) -> u32
        ensures { result ≡ (seen self.now).depth };

    fn leniency(&self) -> Leniency
        ensures { result ≡ (seen self.now).lenient };
}

impl<R: Runtime> Readable for &R {
    ghost seen = { λ r. erase (R.view r.now) };

    fn name(&self) -> Option<&str> {
        (**self).name()
    }

    fn try_get_name(&self, name: &str) -> Option<Seen<'_>> {
        (**self).try_get_name(name)
    }

    fn seals(&self, name: &str) -> bool {
        (**self).seals(name)
    }

    fn roots(&self, alloc: Global) -> Result<BTreeSet<String>, AllocError> {
        (**self).roots(alloc)
    }

    fn get_index(&self, name: &str) -> Option<&Value> {
        (**self).get_index(name)
    }

    fn depth(&self) -> u32 {
        (**self).depth()
    }

    fn leniency(&self) -> Leniency {
        (**self).leniency()
    }
}

/// A runtime as a filter sees it, over which a frame can be laid.
///
/// A filter doesn't write, so no name is assigned in it: that would be refused as if memory had run out.
#[derive(Drop)]
pub(crate) struct ReadOnly<S> {
    names: S,
    core: RuntimeCore<(), ()>,
}

impl<'r, R: Runtime> ReadOnly<&'r R> {
    /// Returns a runtime that reads this one.
    pub(crate) fn new(runtime: &'r R) -> Result<Self, AllocError>
        ensures { IfOk result (λ it. ⟦<ReadOnly<&'r R> as Runtime>⟧.view it ≡ erase (R.view runtime.now)) }
    {
        let interrupt = runtime.registers().interrupt.clone()?;
        Ok(ReadOnly {
            names: runtime,
            core: core_with(interrupt),
        })
    }
}

fn core_with(interrupt: InterruptRegister) -> RuntimeCore<(), ()>
    ensures { registers_of (⟦<RuntimeCore<(), ()> as Runtime>⟧.view result) ≡ record { interrupt = interrupt; value = tt } }
{
    let mut core = RuntimeCore::new();
    core.registers_mut().interrupt = interrupt;
    core
}

impl<S: Readable> Runtime for ReadOnly<S> {
    type Register = ();

    type Store = ();

    ghost view = { λ it. with_registers (registers_of (⟦<RuntimeCore<(), ()> as Runtime>⟧.view it.core)) (S.seen it.names) };

    ghost store = { λ it. ⟦<RuntimeCore<(), ()> as Runtime>⟧.store it.core };

    ghost relent = { λ it w. record it { core = ⟦<RuntimeCore<(), ()> as Runtime>⟧.relent it.core w } };

    ghost restored = { λ it w. record it { core = ⟦<RuntimeCore<(), ()> as Runtime>⟧.restored it.core w } };

    ghost restores = { λ it. ⟦<RuntimeCore<(), ()> as Runtime>⟧.restores it.core };

    ghost lent = { λ it. ⟦<RuntimeCore<(), ()> as Runtime>⟧.lent it.core };

    fn name(&self) -> Option<&str> {
        self.names.name()
    }

    fn try_get_name(&self, name: &str) -> Option<Seen<'_>> {
        self.names.try_get_name(name)
    }

    fn seals(&self, name: &str) -> bool {
        self.names.seals(name)
    }

    fn roots(&self, alloc: Global) -> Result<BTreeSet<String>, AllocError> {
        self.names.roots(alloc)
    }

    fn get_index(&self, name: &str) -> Option<&Value> {
        self.names.get_index(name)
    }

    fn set_global(&mut self, name: String, _value: Value) -> Result<Option<Value>, Error> {
        drop(name);
        Err(Error::Memory)
    }

    fn set_index(&mut self, name: String, _value: Value) -> Result<Option<Value>, Error> {
        drop(name);
        Err(Error::Memory)
    }

    fn registers(&self) -> &Registers<()> {
        self.core.registers()
    }

    fn registers_mut(&mut self) -> &mut Registers<()> {
        self.core.registers_mut()
    }

    fn partials(&mut self) -> Option<&mut ()> {
        self.core.partials()
    }

    fn depth(&self) -> u32 {
        self.names.depth()
    }

    fn leniency(&self) -> Leniency {
        self.names.leniency()
    }
}
