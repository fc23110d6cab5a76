//! Jekyll's filters that read names.
ghost use Rattle.std.specs.Prelude.{◌≡◌, Ok};
ghost use Rattle.liquid_error.specs.meaning.Told.{Gives};
ghost use Rattle.liquid_value.specs.meaning.View.{view as tree_of};
ghost use Rattle.liquid_jekyll.specs.meaning.Named as Spec;

use crate::parameters::NONE;
use crate::rendered::{look_up_text, smart_text};
use crate::seen::{member_text, value_seen};
use crate::value::{absolute_url, relative_url};
use liquid_error::Error;
use liquid_filters::value::errors::unexpected_arguments_error;
use liquid_plugins::{
    Filter, FilterArguments, FilterReflection, Meant, ParameterReflection, ParseFilter,
};
use liquid_runtime::Runtime;
use liquid_value::{Value, ValueCow};
use std::alloc::Global;

/// A filter of Jekyll that reads names, and takes no argument.
///
/// It is both the plug-in and the filter. A name is read when the filter is called, and a missing one is nil.
#[derive(Debug, Clone, Copy, PartialEq, Eq, Drop)]
pub enum NamedKind {
    /// Reads `site.baseurl`.
    RelativeUrl,
    /// Reads `site.url` and `site.baseurl`.
    AbsoluteUrl,
    /// Reads the object `rendered.markdownify`.
    Markdownify,
    /// Reads the object `rendered.smartify`.
    Smartify,
    /// Reads the object `rendered.sassify`.
    Sassify,
    /// Reads the object `rendered.scssify`.
    Scssify,
}

impl FilterReflection for NamedKind {
    ghost filter_name = { Spec.named_name };

    fn name(&self) -> &str {
        named_name(*self)
    }

    fn description(&self) -> &str {
        match self {
            NamedKind::RelativeUrl => "Converts to a path of the site.",
            NamedKind::AbsoluteUrl => "Converts to a URL of the site.",
            NamedKind::Markdownify => "Returns what the host has rendered of a string in Markdown.",
            NamedKind::Smartify => "Replaces quotes, dashes and dots by typographic ones.",
            NamedKind::Sassify => "Returns what the host has rendered of a string in Sass.",
            NamedKind::Scssify => "Returns what the host has rendered of a string in SCSS.",
        }
    }

    fn positional_parameters(&self) -> &'static [ParameterReflection] {
        &NONE
    }

    fn keyword_parameters(&self) -> &'static [ParameterReflection] {
        &NONE
    }
}

/// Returns the name of the filter.
pub(crate) fn named_name(kind: NamedKind) -> &'static str
    ensures { result.now ≡ Spec.named_name kind }
{
    match kind {
        NamedKind::RelativeUrl => "relative_url",
        NamedKind::AbsoluteUrl => "absolute_url",
        NamedKind::Markdownify => "markdownify",
        NamedKind::Smartify => "smartify",
        NamedKind::Sassify => "sassify",
        NamedKind::Scssify => "scssify",
    }
}

impl Meant for NamedKind {
    type Shape = NamedKind;

    ghost shape = { λ kind. kind };
}

impl ParseFilter for NamedKind {
    type Filter = NamedKind;

    ghost makes = { Spec.named_made };

    fn parse(&self, alloc: Global, arguments: FilterArguments<'_>) -> Result<NamedKind, Error> {
        match (
            arguments.positional.as_slice(),
            arguments.keyword.as_slice(),
        ) {
            ([], []) => Ok(*self),
            _ => Err(unexpected_arguments_error(alloc)),
        }
    }
}

impl Filter for NamedKind {
    ghost means = { Spec.named_calls };

    #[tactic(auto, using(crate::proofs::NamedSteps::named_answer_erased))]
    fn evaluate<'s, R: Runtime>(
        &'s self,
        alloc: Global,
        input: &ValueCow<'_>,
        runtime: &'s R,
    ) -> Result<Value, Error> {
        answer_named(alloc, *self, input.as_view(), runtime)
    }

    fn label(&self) -> &str {
        named_name(*self)
    }
}

/// Returns what a filter makes of an input and the names that it reads.
fn answer_named<R: Runtime>(
    alloc: Global,
    kind: NamedKind,
    input: &Value,
    runtime: &R,
) -> Result<Value, Error>
    ensures { Gives tree_of result (Spec.named_answer kind (tree_of input.now) (R.view runtime.now)) }
{
    match kind {
        NamedKind::RelativeUrl => {
            let site = value_seen(alloc, "site", runtime)?;
            relative_in(alloc, site.as_view(), input)
        }
        NamedKind::AbsoluteUrl => {
            let site = value_seen(alloc, "site", runtime)?;
            absolute_in(alloc, site.as_view(), input)
        }
        NamedKind::Smartify => smart_text(alloc, input, runtime),
        NamedKind::Markdownify | NamedKind::Sassify | NamedKind::Scssify => {
            look_up_text(alloc, named_name(kind), input, runtime)
        }
    }
}

/// Returns the input as a path of the site.
fn relative_in(alloc: Global, site: &Value, input: &Value) -> Result<Value, Error>
    ensures { Gives tree_of result (Ok (Spec.relative_in (tree_of site.now) (tree_of input.now))) }
{
    let base = member_text(alloc, site, "baseurl")?;
    relative_url(alloc, base.as_str(), input)
}

/// Returns the input as a URL of the site.
fn absolute_in(alloc: Global, site: &Value, input: &Value) -> Result<Value, Error>
    ensures { Gives tree_of result (Ok (Spec.absolute_in (tree_of site.now) (tree_of input.now))) }
{
    let url = member_text(alloc, site, "url")?;
    let base = member_text(alloc, site, "baseurl")?;
    absolute_url(alloc, url.as_str(), base.as_str(), input)
}
