//! A tag that writes a text.
ghost use Rattle.std.specs.Prelude.{◌≡◌, option_map, string_bytes, IfOk};
ghost use Rattle.liquid_value.specs.meaning.View.{view as tree_of};
ghost use Rattle.test_calls.specs.meaning.Links.{linked, text_of};

use liquid_core::Error;
use liquid_core::model::{Value, ValueRender};
use liquid_core::parser::ParameterReflection;
use liquid_extend::TextTag;
use liquid_filters::{CallArguments, FilterRow};
use std::alloc::{AllocError, Global};

/// The tag `link`, which writes an address and a title.
#[derive(Debug, Clone, Copy)]
pub struct Link;

static ADDRESS: [ParameterReflection; 2] = [
    ParameterReflection {
        name: "address",
        description: "Where the link leads to.",
        is_optional: false,
    },
    ParameterReflection {
        name: "more",
        description: "It is not used.",
        is_optional: true,
    },
];

static TITLE: [ParameterReflection; 1] = [ParameterReflection {
    name: "title",
    description: "What it is called.",
    is_optional: true,
}];

impl TextTag for Link {
    ghost sense = { linked };

    fn row(&self) -> FilterRow {
        FilterRow {
            name: "link",
            description: "An address and a title.",
            parameters: &ADDRESS,
            keywords: &TITLE,
        }
    }

    fn answer(&self, alloc: Global, arguments: &CallArguments<'_>) -> Result<String, Error> {
        match arguments.positional {
            [address, ..] => {
                let address = ValueRender::new(address.as_view());
                let title = text_of(alloc, arguments.keyword("title"))?;
                Ok(format!(in alloc; "<{address}|{title}>")?)
            }
            [] => Err(Error::with_msg(alloc, "no address")),
        }
    }
}

/// Returns the text of a value, or an empty text without one.
fn text_of(alloc: Global, value: Option<&Value>) -> Result<String, AllocError>
    ensures { IfOk result (λ s. string_bytes s ≡ text_of (option_map (λ v. tree_of v.now) value.entry)) }
{
    match value {
        Some(value) => ValueRender::new(value).to_string(alloc),
        None => Ok(String::new(alloc)),
    }
}
