//! The trait of what a template sees and changes while it is rendered.
ghost use Rattle.std.specs.Prelude.{◌≡◌, ℕ, List, ◌∷◌, Option, Some, IsSome, IfOk};
ghost use Rattle.std.specs.Prelude.{IfSome, OnOk, OnErr, string_bytes, option_map, take, drop};
ghost use Rattle.std.specs.Borrow.{sem, LendsIf};
ghost use denote.Ref.{at_last};
ghost use Rattle.liquid_error.specs.meaning.Told.{told, Gives};
ghost use Rattle.liquid_paths.specs.meaning.Walk.{walk, find_after};
ghost use Rattle.liquid_runtime.specs.meaning.Leniency.{is_lenient};
ghost use Rattle.liquid_runtime.specs.meaning.LoopNames.{forloop, seen_tree};
ghost use Rattle.liquid_runtime.specs.meaning.Made.{InPlaceOrMade, OfLoop};
ghost use Rattle.liquid_paths.specs.meaning.PathOf.{indexes_of};
ghost use Rattle.liquid_value.specs.meaning.View.{view as tree_of};
ghost use Rattle.liquid_value.specs.meaning.Cow.{cow_view};
ghost use Rattle.liquid_runtime.specs.meaning.Calls.{LendsRegisters, registers_of, with_registers, shaped, value_in};
ghost use Rattle.liquid_runtime.specs.meaning.Frames.{Restore};
ghost use Rattle.liquid_runtime.specs.meaning.InPlaceOrNil.{InPlaceOrNil};
ghost use Rattle.liquid_runtime.specs.meaning.Lookup.{try_path, found, unknown_variable as unknown_variable_refusal};
ghost use Rattle.liquid_runtime.specs.meaning.NamesSeen.{lookup, names_seen, comes_from_seal};
ghost use Rattle.liquid_runtime.specs.meaning.Roots.{NamesOf};
ghost use Rattle.liquid_runtime.specs.meaning.Sets.{old_global, put_global, old_index, put_index};
ghost use Rattle.liquid_runtime.specs.meaning.View.{View};

use crate::leniency::Leniency;
use crate::loop_frame::{Counts, Seen};
use crate::registers::{Fresh, Registers};
use liquid_error::Error;
use liquid_paths::{find_after, try_find};
use liquid_scalar::ScalarCow;
use liquid_value::{Value, ValueCow};
use std::alloc::{AllocError, Global};
use std::collections::BTreeSet;

/// What a template sees and changes while it is rendered: names with their values, index variables, the interrupt and
/// one register of the caller's type, and the store of partial templates.
///
/// A lookup never changes anything. `Register` is the caller's register, and `Store` any type of store that a caller
/// sets.
pub trait Runtime {
    type Register: Fresh;

    type Store;

    ghost use Rattle.liquid_runtime.specs.declared.registers.Registers.{Registers};

    ghost view: { Self → View Self.Register.Shape };

    ghost store: { Self → Option Self.Store };

    // the runtime after the registers, or the store, that it lends have changed
    ghost relent: { Self → Registers Self.Register → Self };

    ghost restored: { Self → Self.Store → Self };

    // what its frames restore when they end, the innermost first
    ghost restores: { Self → List (Restore Self.Register.Shape) };

    // the references that it is built on, the outermost first: no call replaces one of them
    ghost lent: { Self → List ℕ };

    /// Returns the name of the template, if one is set.
    fn name(&self) -> Option<&str>
        ensures { option_map (λ r. r.now) result ≡ (view self.now).name };

    /// Returns the value of one name, borrowed in place or to be made, or `None` if the name has none.
    fn try_get_name(&self, name: &str) -> Option<Seen<'_>>
        ensures { option_map seen_tree result ≡ lookup (view self.now) name.now };

    /// Returns `true` if the name, if it has a value, is the own name of a sandboxed frame.
    fn seals(&self, name: &str) -> bool
        ensures { result ≡ comes_from_seal (view self.now) name.now };

    /// Returns the names that have a value. An `Err` means out of memory.
    fn roots(&self, alloc: Global) -> Result<BTreeSet<String>, AllocError>
        ensures { IfOk result (λ names. NamesOf (names_seen (view self.now)) names) };

    /// Returns the value of a path, whose first index is a name, or `None` if the path leads to none.
    ///
    /// The empty path leads to none. The value is borrowed in place, and only a `size` is made. An `Err` means out of
    /// memory.
    fn try_get(
        &self,
        alloc: Global,
        path: &[ScalarCow<'_>],
    ) -> Result<Option<ValueCow<'_>>, AllocError>
        ensures gives { IfOk result (λ value. option_map cow_view value ≡ try_path (view self.now) (indexes_of path.now)) }
        ensures in_place { IfOk result (λ value. IfSome value InPlaceOrMade) }
    {
        match path.split_first() {
            None => Ok(None),
            Some((first, rest)) => {
                let name = first.to_kstr(alloc)?;
                match self.try_get_name(name.as_str()) {
                    None => Ok(None),
                    Some(seen) => find_seen(alloc, seen, rest),
                }
            }
        }
    }

    /// Returns the value of a path, borrowed as by `try_get`.
    ///
    /// A name without a value is the error "Unknown variable", with the context `requested variable`. For the empty
    /// path this context is `nil`. If the name has a value and the rest leads nowhere, the error is the same for a
    /// sandboxed frame's own name, and "Unknown index", with the contexts that `find` adds to it, for any other name. A
    /// lenient runtime returns nil in place of these errors.
    #[tactic(auto, using(crate::proofs::Agreement::get_answers))]
    fn get(&self, alloc: Global, path: &[ScalarCow<'_>]) -> Result<ValueCow<'_>, Error>
        ensures gives { Gives cow_view result (found (view self.now) (indexes_of path.now)) }
        ensures in_place { IfOk result InPlaceOrNil }
    {
        if self.is_lenient() {
            return match self.try_get(alloc, path) {
                Ok(Some(value)) => Ok(value),
                Ok(None) => Ok(ValueCow::Owned(Value::default())),
                Err(_) => Err(Error::Memory),
            };
        }
        match path.split_first() {
            None => Err(unknown_variable_error(alloc, "nil")),
            Some((first, _)) => match first.to_kstr(alloc) {
                Err(_) => Err(Error::Memory),
                Ok(name) => match self.try_get_name(name.as_str()) {
                    None => Err(unknown_variable_error(alloc, name.as_str())),
                    Some(seen) => match find_after_seen(alloc, seen, path) {
                        Ok(found) => Ok(found),
                        Err(error) => {
                            if !error.is_memory() && self.seals(name.as_str()) {
                                Err(unknown_variable_error(alloc, name.as_str()))
                            } else {
                                Err(error)
                            }
                        }
                    },
                },
            },
        }
    }

    /// Returns the value of an index variable, whether templates see it or not. It takes no memory.
    fn get_index(&self, name: &str) -> Option<&Value>
        ensures { option_map (λ r. tree_of r.now) result ≡ value_in (view self.now).index name.now };

    /// Assigns a name in the nearest global frame, and returns its old value there. Without a global frame the error is
    /// "No global frame". An `Err` changes nothing.
    fn set_global(&mut self, name: String, value: Value) -> Result<Option<Value>, Error>
        ensures gives { Gives (option_map tree_of) result (old_global (view self.old) (string_bytes name)) }
        ensures sets { OnOk result (view self.new ≡ put_global (view self.old) (string_bytes name) (tree_of value)) }
        ensures unchanged { OnErr result (view self.new ≡ view self.old) }
        ensures store { store self.new ≡ store self.old }
        ensures owes { restores self.new ≡ restores self.old }
        ensures borrows { lent self.new ≡ lent self.old };

    /// Sets an index variable, and returns its old value. Without a frame for index variables the error is "No index
    /// frame". An `Err` changes nothing.
    fn set_index(&mut self, name: String, value: Value) -> Result<Option<Value>, Error>
        ensures gives { Gives (option_map tree_of) result (old_index (view self.old) (string_bytes name)) }
        ensures sets { OnOk result (view self.new ≡ put_index (view self.old) (string_bytes name) (tree_of value)) }
        ensures unchanged { OnErr result (view self.new ≡ view self.old) }
        ensures store { store self.new ≡ store self.old }
        ensures owes { restores self.new ≡ restores self.old }
        ensures borrows { lent self.new ≡ lent self.old };

    /// Returns the interrupt and the register, those of the nearest sandboxed frame if there is one.
    fn registers(&self) -> &Registers<Self::Register>
        ensures { shaped Self.Register.shape result.now ≡ registers_of (view self.now) };

    /// Returns the same registers, to be changed.
    fn registers_mut(&mut self) -> &mut Registers<Self::Register>
        ensures* lends { sem 𝓛 (LendsRegisters Self.row Self.Register.row self.entry result (relent self.old)) }
        ensures after { (w : Registers Self.Register) → view (relent self.old w)
            ≡ with_registers (shaped Self.Register.shape w) (view self.old) }
        ensures store { (w : Registers Self.Register) → store (relent self.old w) ≡ store self.old }
        ensures owes { (w : Registers Self.Register) → restores (relent self.old w) ≡ restores self.old }
        ensures borrows { (w : Registers Self.Register) → lent (relent self.old w) ≡ lent self.old }
        ensures value { shaped Self.Register.shape result.now ≡ registers_of (view self.old) };

    /// Returns the store of partial templates, to be changed, if one was set.
    fn partials(&mut self) -> Option<&mut Self::Store>
        ensures* lends { sem 𝓛 (LendsIf Self.row Self.Store.row self.entry result (restored self.old) self.old) }
        ensures after { (w : Self.Store) → IsSome (store self.old) → store (restored self.old w) ≡ Some w }
        ensures view { (w : Self.Store) → IsSome (store self.old) → view (restored self.old w) ≡ view self.old }
        ensures owes { (w : Self.Store) → IsSome (store self.old) → restores (restored self.old w) ≡ restores self.old }
        ensures borrows { (w : Self.Store) → IsSome (store self.old) → lent (restored self.old w) ≡ lent self.old }
        ensures value { option_map (λ r. r.now) result ≡ store self.old };

    /// Returns the number of partial templates that may be nested.
    fn depth(&self) -> u32
        ensures { result ≡ (view self.now).depth };

    /// Returns what a path without a value, and an index that is not a scalar, lead to. It takes no memory.
    fn leniency(&self) -> Leniency
        ensures { result ≡ (view self.now).lenient };

    /// Returns `true` if `get` returns nil for a path without a value, instead of an error. It takes no memory.
    fn is_lenient(&self) -> bool
        ensures { result ≡ is_lenient (view self.now).lenient }
    {
        self.leniency().is_lenient()
    }
}

impl<R: Runtime> Runtime for &mut R {
    type Register = R::Register;

    type Store = R::Store;

    ghost view = { λ r. R.view r.now };

    ghost store = { λ r. R.store r.now };

    ghost relent = { λ r w. at_last r (R.relent r.now w) };

    ghost restored = { λ r w. at_last r (R.restored r.now w) };

    ghost restores = { λ r. R.restores r.now };

    ghost lent = { λ r. r.ghost_name ∷ R.lent r.now };

    fn name(&self) -> Option<&str> {
        (**self).name()
    }

    fn try_get_name(&self, name: &str) -> Option<Seen<'_>> {
        (**self).try_get_name(name)
    }

    fn seals(&self, name: &str) -> bool {
        (**self).seals(name)
    }

    fn roots(&self, alloc: Global) -> Result<BTreeSet<String>, AllocError> {
        (**self).roots(alloc)
    }

    fn get_index(&self, name: &str) -> Option<&Value> {
        (**self).get_index(name)
    }

    fn set_global(&mut self, name: String, value: Value) -> Result<Option<Value>, Error> {
        (**self).set_global(name, value)
    }

    fn set_index(&mut self, name: String, value: Value) -> Result<Option<Value>, Error> {
        (**self).set_index(name, value)
    }

    fn registers(&self) -> &Registers<R::Register> {
        (**self).registers()
    }

    fn registers_mut(&mut self) -> &mut Registers<R::Register> {
        (**self).registers_mut()
    }

    fn partials(&mut self) -> Option<&mut R::Store> {
        (**self).partials()
    }

    fn depth(&self) -> u32 {
        (**self).depth()
    }

    fn leniency(&self) -> Leniency {
        (**self).leniency()
    }
}

/// Returns the value at the end of a path from what was found.
#[tactic(auto, using(crate::proofs::LoopLaws::made))]
pub fn find_seen<'v>(
    alloc: Global,
    seen: Seen<'v>,
    path: &[ScalarCow<'_>],
) -> Result<Option<ValueCow<'v>>, AllocError>
    ensures gives { IfOk result (λ found. option_map cow_view found ≡ walk (seen_tree seen.entry) (indexes_of path.now)) }
    ensures in_place { IfOk result (λ found. IfSome found InPlaceOrMade) }
{
    match seen {
        Seen::Lent(value) => try_find(alloc, value, path),
        Seen::Loop(counts) => match loop_part(alloc, counts, path)? {
            Some(part) => Ok(Some(ValueCow::Owned(part))),
            None => Ok(None),
        },
    }
}

/// Returns what a path leads to from an object `forloop`.
fn loop_part(
    alloc: Global,
    counts: Counts,
    path: &[ScalarCow<'_>],
) -> Result<Option<Value>, AllocError>
    ensures { IfOk result (λ part. option_map tree_of part ≡ walk (forloop counts.place counts.size) (indexes_of path.now)) }
{
    let object = counts.to_value(alloc)?;
    match try_find(alloc, &object, path)? {
        Some(found) => Ok(Some(found.into_owned()?)),
        None => Ok(None),
    }
}

/// Returns the value of a path whose first index is the name of what was found, as by `find_after`.
#[tactic(auto, using(crate::proofs::LoopLaws::made))]
fn find_after_seen<'v>(
    alloc: Global,
    seen: Seen<'v>,
    path: &[ScalarCow<'_>],
) -> Result<ValueCow<'v>, Error>
    ensures gives { Gives cow_view result
        (find_after (indexes_of (take 1 path.now)) (seen_tree seen.entry) (indexes_of (drop 1 path.now))) }
    ensures in_place { IfOk result InPlaceOrMade }
{
    match seen {
        Seen::Lent(value) => find_after(alloc, 1, value, path),
        Seen::Loop(counts) => {
            let part = loop_part_after(alloc, counts, path)?;
            Ok(ValueCow::Owned(part))
        }
    }
}

/// Returns what a path leads to from an object `forloop`, whose name is its first index.
#[tactic(auto, using(crate::proofs::LoopLaws::leads_from))]
fn loop_part_after(alloc: Global, counts: Counts, path: &[ScalarCow<'_>]) -> Result<Value, Error>
    ensures gives { Gives tree_of result
        (find_after (indexes_of (take 1 path.now)) (forloop counts.place counts.size) (indexes_of (drop 1 path.now))) }
    ensures of_loop { IfOk result (λ part. OfLoop (tree_of part)) }
{
    let object = counts.to_value(alloc)?;
    let found = find_after(alloc, 1, &object, path)?;
    Ok(found.into_owned()?)
}

/// Returns the error for a name that has no value.
fn unknown_variable_error(alloc: Global, name: &str) -> Error
    ensures { IfSome (told result) (λ refusal. refusal ≡ unknown_variable_refusal name.now) }
{
    Error::with_msg(alloc, "Unknown variable").context(alloc, "requested variable", name)
}
