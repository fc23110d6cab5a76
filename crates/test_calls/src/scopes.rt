//! Each call of scopes, over both forms.
ghost use Rattle.std.specs.Prelude.{◌≡◌};

use crate::framed::{Body, holds_if_made, holds_over_both};
use crate::histories;
use crate::numbers::{is_text, numbers, text};
use liquid_error::Error;
use liquid_runtime::{Frame, Interrupt, Runtime, Scopes};
use liquid_scalar::ScalarCow;
use liquid_value::Value;
use std::alloc::{AllocError, Global};
use std::collections::BTreeSet;

/// The calls, under a stack frame with a name.
struct Calls;

impl Body for Calls {
    fn holds<S: Scopes>(&self, alloc: Global, scopes: &mut S) -> bool {
        holds_if_made(alloc, scopes, page(alloc).ok(), &UnderPage)
    }
}

/// Returns a stack frame of the template `page`.
fn page(alloc: Global) -> Result<Frame, AllocError> {
    let name = text(alloc, "page")?;
    Ok(Frame::Stack(numbers(alloc, &[("a", 1)])?, Some(name)))
}

struct UnderPage;

impl Body for UnderPage {
    fn holds<S: Scopes>(&self, alloc: Global, scopes: &mut S) -> bool {
        is_in_page(scopes)
            && sets(alloc, scopes)
            && lists_names(alloc, scopes)
            && refuses_path(alloc, scopes)
            && interrupts(scopes)
    }
}

/// Returns `true` if scopes are in the frame `page`, which has `a`.
fn is_in_page<S: Scopes>(scopes: &S) -> bool {
    scopes.name() == Some("page")
        && scopes.frames() == 1
        && scopes.depth() == 32
        && scopes.try_get_name("a").is_some()
        && !scopes.seals("a")
}

/// Returns `true` if the names are `a`, `g` and `i`.
fn are_a_g_and_i(names: &BTreeSet<String>) -> bool {
    names.len() == 3 && names.contains("a") && names.contains("g") && names.contains("i")
}

/// Returns `true` if the names that are seen are `a`, `g` and `i`.
fn lists_names<S: Scopes>(alloc: Global, scopes: &S) -> bool {
    match scopes.roots(alloc) {
        Ok(names) => are_a_g_and_i(&names),
        Err(_) => false,
    }
}

const REFUSAL: &str =
    "liquid: Unknown index\n  with:\n    variable=a\n    requested index=x\n    available indexes=\n";

/// Returns `true` if a path into a number has the error of its index.
fn refuses_path<S: Scopes>(alloc: Global, scopes: &S) -> bool {
    match histories::get(alloc, scopes, &[ScalarCow::from("a"), ScalarCow::from("x")]) {
        Ok(_) => false,
        Err(error) => is_text(error.to_string(alloc), REFUSAL),
    }
}

/// Sets a global to a number, and returns its old value.
pub(crate) fn set_global<S: Scopes>(
    alloc: Global,
    scopes: &mut S,
    name: &str,
    number: i64,
) -> Result<Option<Value>, Error>
    ensures { S.restores scopes.new ≡ S.restores scopes.old }
{
    histories::set_global(scopes, text(alloc, name)?, Value::scalar(number))
}

/// Sets a global to a number, and returns `true` if it had no value before.
pub(crate) fn is_new_global<S: Scopes>(
    alloc: Global,
    scopes: &mut S,
    name: &str,
    number: i64,
) -> bool
    ensures { S.restores scopes.new ≡ S.restores scopes.old }
{
    match set_global(alloc, scopes, name, number) {
        Ok(old) => old.is_none(),
        Err(_) => false,
    }
}

/// Sets the index variable `i` to a number, and returns its old value.
fn set_index<S: Scopes>(alloc: Global, scopes: &mut S, number: i64) -> Result<Option<Value>, Error>
    ensures { S.restores scopes.new ≡ S.restores scopes.old }
{
    histories::set_index(scopes, text(alloc, "i")?, Value::scalar(number))
}

/// Sets the index variable `i` to a number, and returns `true` if it had a value before exactly if it should.
fn has_set_index<S: Scopes>(alloc: Global, scopes: &mut S, number: i64, is_known: bool) -> bool
    ensures { S.restores scopes.new ≡ S.restores scopes.old }
{
    match set_index(alloc, scopes, number) {
        Ok(old) => old.is_some() == is_known,
        Err(_) => false,
    }
}

/// Returns `true` if a global and an index variable are new, and the index variable then has a value.
fn sets<S: Scopes>(alloc: Global, scopes: &mut S) -> bool
    ensures { S.restores scopes.new ≡ S.restores scopes.old }
{
    is_new_global(alloc, scopes, "g", 2)
        && has_set_index(alloc, scopes, 3, false)
        && has_set_index(alloc, scopes, 4, true)
        && histories::get_index(scopes, "i").is_some()
}

/// Sets an interrupt, and returns `true` if none was set before and one is set now.
fn interrupts<S: Scopes>(scopes: &mut S) -> bool
    ensures { S.restores scopes.new ≡ S.restores scopes.old }
{
    let was_set = scopes.registers().interrupt.interrupted();
    scopes.registers_mut().interrupt.set(Interrupt::Break);
    !was_set && scopes.registers().interrupt.interrupted()
}

/// Returns `true` if each call of scopes of both forms has its result.
pub fn scopes_answer(alloc: Global) -> bool {
    holds_over_both(alloc, &[], false, &Calls)
}
