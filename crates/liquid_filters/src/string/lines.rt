//! Filters on the ends of lines.
ghost use Rattle.std.specs.Prelude.{Ok};
ghost use Rattle.liquid_error.specs.meaning.Told.{Gives};
ghost use Rattle.liquid_value.specs.meaning.View.{view as tree_of};
ghost use Rattle.liquid_filters.specs.meaning.string.Lines.{joined_lines, marked_lines};

use liquid_error::Error;
use liquid_scalar::ScalarOf;
use liquid_strings::replace_line_ends;
use liquid_value::Value;
use std::alloc::Global;

/// Returns the text without its line feeds and the carriage returns right before them.
pub fn strip_newlines(alloc: Global, input: &Value) -> Result<Value, Error>
    ensures { Gives tree_of result (Ok (joined_lines (tree_of input.now))) }
{
    let text = input.to_kstr(alloc)?;
    let answer = replace_line_ends(alloc, text.as_str(), "")?;
    Ok(Value::Scalar(ScalarOf::Str(answer)))
}

/// Returns the text with `<br />` and a line feed in place of each line feed and a carriage return right before it.
pub fn newline_to_br(alloc: Global, input: &Value) -> Result<Value, Error>
    ensures { Gives tree_of result (Ok (marked_lines (tree_of input.now))) }
{
    let text = input.to_kstr(alloc)?;
    let answer = replace_line_ends(alloc, text.as_str(), "<br />\n")?;
    Ok(Value::Scalar(ScalarOf::Str(answer)))
}
