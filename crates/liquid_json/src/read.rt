//! JSON texts read as objects. Each token is turned into its value as it is read.
ghost use Rattle.std.specs.Prelude.{◌≡◌, ◌<◌, ◌==◌, [], ◌∷◌, ◌++◌, Some, None, Result, Ok, true, false, length, slice_index};
ghost use Rattle.std.specs.Prelude.{IfOk, IfErr, IfSome, IsTrue, OnOk};
ghost use Rattle.json.specs.Json.{value as json_value, items as json_items, members as json_members};
ghost use Rattle.serde_json.specs.Errors.{IsMemory, IsOfText};
ghost use Rattle.serde_json.specs.Find.{of_integer};
ghost use Rattle.serde_json.specs.Read.{number_of, number_from};
ghost use Rattle.liquid_error.specs.meaning.Refusal.{Refusal};
ghost use Rattle.liquid_error.specs.meaning.Told.{Gives};
ghost use Rattle.liquid_value.specs.meaning.Tree.{Members};
ghost use Rattle.liquid_value.specs.meaning.View.{view, items_view, members_view};
ghost use Rattle.liquid_json.specs.meaning.Given.{object_read};
ghost use Rattle.liquid_json.specs.steps.Reads.{Reads, ReadsItems, ReadsMembers};

use crate::build::{FEW_ITEMS, value_of_array};
use crate::convert::into_object;
use fast_float::Numeral;
use json::{Invalid, Reader, Scratch, Token};
use liquid_error::Result as Answer;
use liquid_scalar::Scalar;
use liquid_value::{Array, Object, SharedObject, Value};
use serde_json::{Error, Value as Json};
use std::alloc::{AllocError, AllocFailed, Global};

/// The greatest number of nested arrays and objects, as in `serde_json`.
const MOST_NESTED: usize = 127;

/// Why a text is not read token by token.
#[derive(Clone, Copy, Drop)]
enum Unread {
    Memory,
    Refused,
}

impl From<Invalid> for Unread {
    fn from(_invalid: Invalid) -> Unread {
        Unread::Refused
    }
}

impl From<AllocError> for Unread {
    fn from(_refused: AllocError) -> Unread {
        Unread::Memory
    }
}

impl<T: Drop> From<AllocFailed<T>> for Unread {
    fn from(_refused: AllocFailed<T>) -> Unread {
        Unread::Memory
    }
}

/// Reads the object of a text of JSON, as `to_object` gives it for what `serde_json` reads.
///
/// If a name occurs twice, its last value is kept. The inner result has an error of `to_object`. The outer error says
/// that the text is not JSON, and where.
///
/// Each value is made as its text is read, with no `serde_json::Value` before it. A text with an error is read again
/// from its beginning, to find the error.
pub fn object_from_str(alloc: Global, text: &str) -> Result<Answer<Object>, Error>
    ensures read { IfOk result (λ answer. (meant : Result Members Refusal) × (object_read text.now ≡ Some meant)
        × Gives (λ object. members_view object.entries) answer meant) }
    ensures no_json { IfErr result (λ e. ¬ IsMemory e → (object_read text.now ≡ None) × IsOfText e) }
{
    let mut scratch = Scratch::new(alloc);
    match read_object(alloc, text, &mut scratch) {
        Ok(object) => Ok(Ok(object)),
        Err(Unread::Memory) => Err(Error::from(AllocError)),
        Err(Unread::Refused) => Ok(into_object(alloc, Json::from_str(alloc, text)?)),
    }
}

/// Reads the object that the whole text is.
fn read_object(alloc: Global, text: &str, scratch: &mut Scratch) -> Result<Object, Unread>
    ensures { IfOk result (λ object. object_read text.now ≡ Some (Ok (members_view object.entries))) }
{
    let mut reader = Reader::new(text, scratch)?;
    let Some(Token::BeginObject) = reader.next() else {
        return Err(Unread::Refused);
    };
    let object = read_members(alloc, &mut reader, MOST_NESTED - 1)?;
    match reader.next() {
        Some(_) => Err(Unread::Refused),
        None => Ok(object),
    }
}

/// Reads the value that begins at the next token, with at most `depth` nested arrays and objects.
///
/// It is inlined, so that an item or a member is made in its place and not moved.
#[inline(always)]
#[cycle(read)]
fn read_value(alloc: Global, reader: &mut Reader<'_>, depth: usize) -> Result<Value, Unread>
    ensures read { IfOk result (λ value. Reads (json_value depth reader.old) (view value) reader.new) }
    ensures shorter { OnOk result (length reader.new < length reader.old) }
{
    let token = reader.next().ok_or(Unread::Refused)?;
    match token {
        Token::Null => Ok(Value::Nil),
        Token::Bool(truth) => Ok(Value::Scalar(Scalar::Bool(truth))),
        Token::Number(text) => match whole_number(text) {
            Some(number) => Ok(Value::Scalar(Scalar::Integer(number))),
            None => Err(Unread::Refused),
        },
        Token::String(text) => Ok(Value::Scalar(Scalar::Str(String::from_str(alloc, text)?))),
        Token::BeginArray => {
            if depth == 0 {
                return Err(Unread::Refused);
            }
            let array = read_items(alloc, reader, depth - 1)?;
            Ok(value_of_array(alloc, array)?)
        }
        Token::BeginObject => {
            if depth == 0 {
                return Err(Unread::Refused);
            }
            let object = read_members(alloc, reader, depth - 1)?;
            Ok(Value::Object(SharedObject::shared(alloc, object)?))
        }
        Token::EndObject | Token::EndArray | Token::Key(_) | Token::Bad => Err(Unread::Refused),
    }
}

/// Reads the items up to the bracket that closes their array.
#[cycle(read)]
fn read_items(alloc: Global, reader: &mut Reader<'_>, depth: usize) -> Result<Array, Unread>
    ensures read { IfOk result
        (λ values. ReadsItems (json_items (json_value depth) (length reader.old) reader.old) (items_view values.items) reader.new) }
    ensures shorter { OnOk result (length reader.new < length reader.old) }
{
    let mut values = Vec::new(alloc);
    'items: while !reader.take_end_array() {
        let value = read_value(alloc, reader, depth)?;
        push_item(&mut values, value)?;
    }
    Ok(values)
}

/// Adds an item after the others. The first one makes room for no more than `FEW_ITEMS`.
#[inline(always)]
fn push_item(values: &mut Array, value: Value) -> Result<(), Unread>
    ensures { OnOk result (values.new.items ≡ values.old.items ++ value ∷ []) }
{
    if values.is_empty() {
        values.reserve_exact(FEW_ITEMS)?;
    }
    values.push(value)?;
    Ok(())
}

/// Reads the members up to the brace that closes their object.
#[cycle(read)]
fn read_members(alloc: Global, reader: &mut Reader<'_>, depth: usize) -> Result<Object, Unread>
    ensures read { IfOk result
        (λ object. ReadsMembers (json_members (json_value depth) (length reader.old) reader.old)
        (members_view object.entries) reader.new) }
    ensures shorter { OnOk result (length reader.new < length reader.old) }
{
    let mut object = Object::new(alloc);
    'members: while let Some(text) = reader.next_key()? {
        let name = String::from_str(alloc, text)?;
        let value = read_value(alloc, reader, depth)?;
        drop(object.insert(name, value)?);
    }
    Ok(object)
}

/// Returns the integer that a token of JSON writes, if it is a signed one of 64 bits. `-0` is not.
fn whole_number(text: &str) -> Option<i64>
    ensures { IfSome result (λ n. number_of text.now ≡ Some (of_integer n)) }
{
    let bytes = text.as_bytes();
    if has_minus(bytes) {
        below_zero(&Numeral::scan(&bytes[1..]))
    } else {
        not_below_zero(&Numeral::scan(bytes))
    }
}

fn has_minus(bytes: &[u8]) -> bool
    ensures value { result ≡ (slice_index bytes.now 0 == 45) }
    ensures some { IsTrue result → 0 < length bytes.now }
{
    !bytes.is_empty() && bytes[0] == b'-'
}

fn below_zero(numeral: &Numeral<'_>) -> Option<i64>
    ensures { IfSome result (λ n. number_from true numeral.now ≡ Some (of_integer n)) }
{
    match numeral.to_i64(true) {
        Some(number) if number < 0 => Some(number),
        _ => None,
    }
}

fn not_below_zero(numeral: &Numeral<'_>) -> Option<i64>
    ensures { IfSome result (λ n. number_from false numeral.now ≡ Some (of_integer n)) }
{
    numeral.to_i64(false)
}
