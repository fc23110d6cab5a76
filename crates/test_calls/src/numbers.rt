//! Texts, and objects of numbers.
ghost use Rattle.std.specs.Prelude.{◌≡◌, ◌↔◌, IfOk, IfErr, string_bytes, true, false};

use liquid_value::{Object, Value};
use std::alloc::{AllocError, Global};

/// Returns a text.
pub(crate) fn text(alloc: Global, text: &str) -> Result<String, AllocError> {
    String::from_str(alloc, text)
}

/// Gives a name of an object a number, and returns `true` if there is memory for it.
fn add(alloc: Global, object: &mut Object, name: &str, number: i64) -> bool {
    match text(alloc, name) {
        Ok(name) => object.insert(name, Value::scalar(number)).is_ok(),
        Err(_) => false,
    }
}

/// Returns an object of numbers.
pub(crate) fn numbers(alloc: Global, pairs: &[(&'static str, i64)]) -> Result<Object, AllocError> {
    let mut object = Object::new(alloc);
    for (name, number) in pairs {
        if !add(alloc, &mut object, name, *number) {
            return Err(AllocError);
        }
    }
    Ok(object)
}

/// Returns `true` if a text was made and is the one wanted, and `false` if memory ran out.
pub(crate) fn is_text(found: Result<String, AllocError>, wanted: &str) -> bool
    ensures made { IfOk found (λ text. (result ≡ true) ↔ (string_bytes text ≡ wanted.now)) }
    ensures failed { IfErr found (λ _. result ≡ false) }
{
    match found {
        Ok(text) => text.as_str() == wanted,
        Err(_) => false,
    }
}
