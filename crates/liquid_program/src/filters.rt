//! The filters of the program without `--standard`: `append` and `fail`.
ghost use Rattle.std.specs.Prelude.{◌≡◌, IfOk};
ghost use Rattle.liquid_program.specs.meaning.ProgramLanguage.{plain_filters, plain_sense};

use liquid_core::Error;
use liquid_core::model::Value;
use liquid_core::parser::{ParameterReflection, PluginRegistry};
use liquid_filters::string::append;
use liquid_filters::{CallArguments, FilterKind, FilterPlugin, FilterRow, register_all};
use std::alloc::{AllocError, Global};

static TEXT: [ParameterReflection; 1] = [ParameterReflection {
    name: "text",
    description: "What is put after the input's text.",
    is_optional: false,
}];

static NONE: [ParameterReflection; 0] = [];

/// A filter of the program.
#[derive(Debug, Clone, Copy, PartialEq, Eq, Drop)]
pub enum PlainKind {
    Append,
    Fail,
}

/// A filter as a plug-in.
pub type PlainFilters = FilterPlugin<PlainKind>;

impl FilterKind for PlainKind {
    ghost sense = { plain_sense };

    fn row(&self) -> FilterRow {
        match self {
            PlainKind::Append => FilterRow {
                name: "append",
                description: "Appends a string.",
                parameters: &TEXT,
                keywords: &NONE,
            },
            PlainKind::Fail => FilterRow {
                name: "fail",
                description: "Fails for any input.",
                parameters: &NONE,
                keywords: &NONE,
            },
        }
    }

    fn answer(
        &self,
        alloc: Global,
        input: &Value,
        arguments: &CallArguments<'_>,
    ) -> Result<Value, Error> {
        match self {
            PlainKind::Append => append(alloc, input, arguments.positional),
            PlainKind::Fail => Err(Error::with_msg(alloc, "bad")),
        }
    }
}

/// Returns `append` and `fail`, each under its name.
pub fn plain_filters(alloc: Global) -> Result<PluginRegistry<PlainFilters>, AllocError>
    ensures { IfOk result (λ r. r ≡ plain_filters) }
{
    let mut filters = PluginRegistry::new(alloc);
    register_all(&mut filters, &[PlainKind::Append, PlainKind::Fail])?;
    Ok(filters)
}
