//! The filter `inspect`.
ghost use Rattle.std.specs.Prelude.{Ok};
ghost use Rattle.liquid_error.specs.meaning.Told.{Gives};
ghost use Rattle.liquid_value.specs.meaning.View.{view as tree_of};
ghost use Rattle.liquid_jekyll.specs.meaning.Texts.{inspected};

use crate::value::xml_escape;
use liquid_error::Error;
use liquid_filters::json_text::json;
use liquid_value::Value;
use std::alloc::Global;

/// Returns the input as JSON, escaped for XML.
pub(crate) fn inspect(alloc: Global, input: &Value) -> Result<Value, Error>
    ensures { Gives tree_of result (Ok (inspected (tree_of input.now))) }
{
    let text = json(alloc, input)?;
    xml_escape(alloc, &text)
}
