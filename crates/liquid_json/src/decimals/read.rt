//! Texts of JSON read as objects with decimals.
ghost use Rattle.std.specs.Prelude.{◌≡◌, Some, None, Err, Result, IfOk, IfErr};
ghost use Rattle.json.specs.declared.error.Error.TheVariants.{Invalid};
ghost use Rattle.json.specs.Value.{value_view as json_view};
ghost use Rattle.serde_json.specs.Errors.{IsMemory, IsOfText};
ghost use Rattle.liquid_error.specs.meaning.Refusal.{Refusal};
ghost use Rattle.liquid_error.specs.meaning.Told.{Gives};
ghost use Rattle.liquid_value.specs.meaning.Tree.{Members};
ghost use Rattle.liquid_value.specs.meaning.View.{members_view};
ghost use Rattle.liquid_json.specs.meaning.decimals.Given.{json_read, object_read};

use crate::decimals::convert::object_of;
use json::{Reader, Scratch, Value as Json};
use liquid_error::Result as Answer;
use liquid_value::Object;
use serde_json::{Error, Value as Checked};
use std::alloc::{AllocError, Global};

/// The greatest number of nested arrays and objects, as in `serde_json`.
const MOST_NESTED: usize = 127;

/// Reads the object of a text of JSON, as `object_from_str` does, with decimals.
///
/// A number with a fraction or an exponent is a decimal: a string of its digits, or an integer if it has no digits after
/// the point. If a name occurs twice, its last value is kept.
///
/// The inner result has the first error in the order of the text: an integer of more than 64 bits is "Cannot fit
/// number", and a number that is not a decimal is "Fractional number". The outer error says that the text is not JSON,
/// and where.
pub fn object_with_decimals(alloc: Global, text: &str) -> Result<Answer<Object>, Error>
    ensures read { IfOk result (λ answer. (meant : Result Members Refusal) × (object_read text.now ≡ Some meant)
        × Gives (λ object. members_view object.entries) answer meant) }
    ensures no_json { IfErr result (λ e. ¬ IsMemory e → (object_read text.now ≡ None) × IsOfText e) }
{
    let mut scratch = Scratch::new(alloc);
    match read_json(alloc, text, &mut scratch) {
        Ok(json) => Ok(object_of(alloc, &json)),
        Err(json::Error::Invalid) => match Checked::from_str(alloc, text) {
            Err(error) => Err(error),
            Ok(_) => unreachable!(),
        },
        Err(_) => Err(Error::from(AllocError)),
    }
}

/// Reads the JSON that the whole text is.
fn read_json<'a>(
    alloc: Global,
    text: &'a str,
    scratch: &'a mut Scratch,
) -> Result<Json<'a>, json::Error>
    ensures ok { IfOk result (λ json. json_read text.now ≡ Some (json_view json)) }
    ensures invalid { result ≡ Err Invalid → json_read text.now ≡ None }
{
    let mut reader = Reader::new(text, scratch)?;
    let json = Json::read(alloc, &mut reader, MOST_NESTED)?;
    if reader.next().is_some() {
        return Err(json::Error::Invalid);
    }
    Ok(json)
}
