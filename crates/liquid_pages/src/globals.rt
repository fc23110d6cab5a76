//! Globals from JSON.
ghost use Rattle.std.specs.Prelude.{◌≡◌, Some, None, Result, IfOk, IfErr};
ghost use Rattle.serde_json.specs.Errors.{IsMemory, IsOfText};
ghost use Rattle.liquid_error.specs.meaning.Refusal.{Refusal};
ghost use Rattle.liquid_error.specs.meaning.Told.{Gives};
ghost use Rattle.liquid_value.specs.meaning.Tree.{Members};
ghost use Rattle.liquid_value.specs.meaning.View.{members_view};
ghost use Rattle.liquid_runtime.specs.meaning.Maps.{names_of};
ghost use Rattle.liquid_pages.specs.meaning.Faults.{Returns};
ghost use Rattle.liquid_pages.specs.meaning.Globals.{globals_read, json_object};

use crate::fault::PageFault;
use liquid_error::{Error, Result as Answer};
use liquid_json::{object_from_str, object_with_decimals};
use liquid_value::Object;
use serde_json::{Category, Error as JsonError};
use std::alloc::Global;

/// Reads the object of a text of JSON, with decimals or without.
fn read_object(alloc: Global, decimals: bool, text: &str) -> Result<Answer<Object>, JsonError>
    ensures read { IfOk result (λ answer. (meant : Result Members Refusal) × (json_object decimals text.now ≡ Some meant)
        × Gives (λ object. members_view object.entries) answer meant) }
    ensures no_json { IfErr result (λ e. ¬ IsMemory e → (json_object decimals text.now ≡ None) × IsOfText e) }
{
    if decimals {
        object_with_decimals(alloc, text)
    } else {
        object_from_str(alloc, text)
    }
}

/// Returns the globals of a text of JSON: the members of its object. With `decimals` a number with a fraction is a decimal;
/// without, it is an error.
///
/// A text that is not JSON is `BadJson`, and JSON that is not an object of values `NoGlobals`. If memory runs out, the
/// error is `Refused`.
pub fn globals_of(alloc: Global, decimals: bool, text: &str) -> Result<Object, PageFault>
    ensures { Returns names_of result (globals_read decimals text.now) }
{
    match read_object(alloc, decimals, text) {
        Ok(Ok(object)) => Ok(object),
        Ok(Err(error)) => Err(PageFault::NoGlobals(error)),
        Err(error) => match error.classify() {
            Category::Memory => Err(PageFault::Refused(Error::Memory)),
            _ => Err(PageFault::BadJson(error)),
        },
    }
}
