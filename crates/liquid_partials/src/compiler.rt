//! Compilers of partials.
ghost use Rattle.std.specs.Prelude.{IfOk};
ghost use Rattle.liquid_parser.specs.meaning.Plugins.{language_of};
ghost use Rattle.liquid_partials.specs.meaning.Compiled.{Compiled};
ghost use Rattle.liquid_partials.specs.meaning.Sources.{Texts};

use liquid_parser::{Language, ParseBlock, ParseTag};
use liquid_plugins::ParseFilter;
use liquid_template::PartialStore;
use std::alloc::{AllocError, Global};
use std::rc::Rc;

/// Makes a store of a source's texts, parsed in a language.
pub trait PartialCompiler<F: ParseFilter, T: ParseTag<F>, B: ParseBlock<F>> {
    /// The store that it makes.
    type Store: PartialStore<F::Filter, T::Node, B::Node>;

    // the texts of its source
    ghost texts: { Self → Texts };

    /// Returns the store of the compiler's source in this language. A text with a fault is not an error here: the store
    /// returns the fault when the text's name is requested. An `Err` means out of memory.
    fn compile(
        self,
        alloc: Global,
        language: Rc<Language<F, T, B>>,
    ) -> Result<Self::Store, AllocError>
        ensures { IfOk result
            (λ store. Compiled (language_of F.makes T.gives B.block language.value) (texts self)
            (Self.Store.finds store)) };
}
