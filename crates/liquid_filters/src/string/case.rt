//! Filters that change the case of letters.
ghost use Rattle.std.specs.Prelude.{Ok};
ghost use Rattle.liquid_error.specs.meaning.Told.{Gives};
ghost use Rattle.liquid_value.specs.meaning.View.{view as tree_of};
ghost use Rattle.liquid_filters.specs.meaning.string.Case.{capitalized, downcased, upcased};

use liquid_error::Error;
use liquid_scalar::ScalarOf;
use liquid_strings as strings;
use liquid_value::Value;
use std::alloc::Global;

/// Returns the text with each character in upper case.
pub fn upcase(alloc: Global, input: &Value) -> Result<Value, Error>
    ensures { Gives tree_of result (Ok (upcased (tree_of input.now))) }
{
    let text = input.to_kstr(alloc)?;
    let answer = text.as_str().to_uppercase(alloc)?;
    Ok(Value::Scalar(ScalarOf::Str(answer)))
}

/// Returns the text with each character in lower case.
pub fn downcase(alloc: Global, input: &Value) -> Result<Value, Error>
    ensures { Gives tree_of result (Ok (downcased (tree_of input.now))) }
{
    let text = input.to_kstr(alloc)?;
    let answer = strings::to_lowercase(alloc, text.as_str())?;
    Ok(Value::Scalar(ScalarOf::Str(answer)))
}

/// Returns the text with its first character in upper case and the others in lower case.
pub fn capitalize(alloc: Global, input: &Value) -> Result<Value, Error>
    ensures { Gives tree_of result (Ok (capitalized (tree_of input.now))) }
{
    let text = input.to_kstr(alloc)?;
    let answer = strings::capitalize(alloc, text.as_str())?;
    Ok(Value::Scalar(ScalarOf::Str(answer)))
}
