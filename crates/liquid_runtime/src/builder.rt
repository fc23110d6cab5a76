//! A builder of runtimes.
ghost use Rattle.std.specs.Prelude.{◌≡◌, [], None, Some};
ghost use Rattle.std.specs.FinMap.{empty};
ghost use Rattle.liquid_runtime.specs.meaning.Frames.{built_view, leniently};
ghost use Rattle.liquid_runtime.specs.meaning.Maps.{names_of};
ghost use Rattle.liquid_runtime.specs.meaning.Leniency.{lenient_paths};
ghost use Rattle.liquid_runtime.specs.declared.leniency.Leniency.TheVariants.{Strict};

use crate::global_frame::GlobalFrame;
use crate::index_frame::IndexFrame;
use crate::leniency::Leniency;
use crate::registers::Fresh;
use crate::runtime::Runtime;
use crate::runtime_core::{DEFAULT_DEPTH, RuntimeCore};
use crate::stack_frame::StackFrame;
use liquid_value::Object;
use std::alloc::Global;
use std::marker::PhantomData;

/// The runtime that a builder makes: a global frame over a stack frame of the caller's globals
/// over an index frame over a core.
pub type BuiltRuntime<V, S> = GlobalFrame<StackFrame<IndexFrame<V, S>>>;

impl<V: Fresh, S: Drop> GlobalFrame<StackFrame<IndexFrame<V, S>>> {
    /// Ends the runtime and returns its store of partial templates, if it has one, for another runtime.
    pub fn into_partials(self) -> Option<S>
        ensures { result ≡ ⟦<BuiltRuntime<V, S> as Runtime>⟧.store self }
    {
        self.into_parent().into_parent().into_parent().into_store()
    }
}

/// Collects what a runtime begins with. `V` is the register of what it builds, and `S` the type of its store of partial
/// templates.
#[derive(Drop)]
pub struct RuntimeBuilder<V, S> {
    alloc: Global,
    globals: Object,
    store: Option<S>,
    depth: u32,
    lenient: Leniency,
    register: PhantomData<V>,
}

impl<V: Fresh, S: Drop> RuntimeBuilder<V, S> {
    ghost use Rattle.liquid_runtime.specs.meaning.Built.{globals_of, store_of, depth_of, lenient_of};

    /// Returns a builder without globals and without a store, with a depth of 32, for a runtime in which a path without
    /// a value is an error. What it builds takes its memory from `alloc`.
    #[tactic(auto, using(crate::proofs::FrameLookups::frame_lookups))]
    pub fn new(alloc: Global) -> Self
        ensures globals { globals_of result ≡ empty }
        ensures store { store_of result ≡ None }
        ensures depth { depth_of result ≡ 32 }
        ensures lenient { lenient_of result ≡ Strict }
    {
        RuntimeBuilder {
            alloc,
            globals: Object::new(alloc),
            store: None,
            depth: DEFAULT_DEPTH,
            lenient: Leniency::Strict,
            register: PhantomData,
        }
    }

    /// Sets the globals, in place of those that the builder had.
    pub fn set_globals(mut self, globals: Object) -> Self
        ensures globals { globals_of result ≡ names_of globals }
        ensures store { store_of result ≡ store_of self }
        ensures depth { depth_of result ≡ depth_of self }
        ensures lenient { lenient_of result ≡ lenient_of self }
    {
        self.globals = globals;
        self
    }

    /// Sets the store of partial templates, in place of any other.
    pub fn set_partials(mut self, store: S) -> Self
        ensures globals { globals_of result ≡ globals_of self }
        ensures store { store_of result ≡ Some store }
        ensures depth { depth_of result ≡ depth_of self }
        ensures lenient { lenient_of result ≡ lenient_of self }
    {
        self.store = Some(store);
        self
    }

    /// Sets the number of partial templates that may be nested.
    pub fn set_depth(mut self, depth: u32) -> Self
        ensures globals { globals_of result ≡ globals_of self }
        ensures store { store_of result ≡ store_of self }
        ensures depth { depth_of result ≡ depth }
        ensures lenient { lenient_of result ≡ lenient_of self }
    {
        self.depth = depth;
        self
    }

    /// Sets whether `get` returns nil for a path without a value, or an error.
    pub fn set_lenient(mut self, lenient: bool) -> Self
        ensures globals { globals_of result ≡ globals_of self }
        ensures store { store_of result ≡ store_of self }
        ensures depth { depth_of result ≡ depth_of self }
        ensures lenient { lenient_of result ≡ lenient_paths lenient }
    {
        self.lenient = Leniency::of_paths(lenient);
        self
    }

    /// Sets what a path without a value, and an index that is not a scalar, lead to.
    pub fn set_leniency(mut self, leniency: Leniency) -> Self
        ensures globals { globals_of result ≡ globals_of self }
        ensures store { store_of result ≡ store_of self }
        ensures depth { depth_of result ≡ depth_of self }
        ensures lenient { lenient_of result ≡ leniency }
    {
        self.lenient = leniency;
        self
    }

    /// Returns the runtime in which a template sees the builder's globals.
    pub fn build(self) -> BuiltRuntime<V, S>
        ensures view { ⟦<BuiltRuntime<V, S> as Runtime>⟧.view result
            ≡ leniently (lenient_of self) (built_view V.fresh (depth_of self) (globals_of self)) }
        ensures store { ⟦<BuiltRuntime<V, S> as Runtime>⟧.store result ≡ store_of self }
        ensures borrows { ⟦<BuiltRuntime<V, S> as Runtime>⟧.lent result ≡ [] }
    {
        let core = RuntimeCore::with(self.store, self.depth, self.lenient);
        let index = IndexFrame::new(self.alloc, core);
        let stack = StackFrame::new(index, self.globals);
        GlobalFrame::new(self.alloc, stack)
    }
}
