//! Jekyll's filters beside the standard ones.
ghost use Rattle.std.specs.Prelude.{◌≡◌, map, IfOk, OnOk};
ghost use Rattle.std.specs.FinMap.{insert, values};
ghost use Rattle.liquid_jekyll.specs.declared.plugin.JekyllPlugin.TheVariants.{Named, Table};
ghost use Rattle.liquid_jekyll.specs.meaning.Plugins.{plugin_name};
ghost use Rattle.liquid_jekyll.specs.meaning.Table.{date_kind, jekyll_filters, jekyll_kinds, registered};

use crate::date_kinds::JekyllDateKind;
use crate::dates::DateForm;
use crate::kinds::JekyllKind;
use crate::list_kinds::JekyllListKind;
use crate::named::NamedKind;
use crate::plugin::JekyllPlugin;
use crate::text_kinds::JekyllTextKind;
use liquid_dates::DateTime;
use liquid_filters::{Beside, FilterPlugin, StdKind, filters_beside};
use liquid_plugins::{FilterReflection, PluginRegistry};
use std::alloc::{AllocError, Global};

const NAMED_KINDS: [NamedKind; 6] = [
    NamedKind::RelativeUrl,
    NamedKind::AbsoluteUrl,
    NamedKind::Markdownify,
    NamedKind::Smartify,
    NamedKind::Sassify,
    NamedKind::Scssify,
];

/// Returns the standard filters and Jekyll's, which replace those of the same name. The filters on dates read the strings `now`
/// and `today` as the moment that is given. Without a moment they are not dates.
pub fn filters(
    alloc: Global,
    now: Option<DateTime>,
) -> Result<PluginRegistry<JekyllPlugin>, AllocError>
    ensures { IfOk result (λ r. r ≡ jekyll_filters now) }
{
    let table = filters_beside(alloc, now, &kinds(now))?;
    let mut filters = PluginRegistry::new(alloc);
    register_table(&mut filters, &table)?;
    register_named(&mut filters, &NAMED_KINDS)?;
    Ok(filters)
}

/// Registers the filters of a table under their names.
fn register_table(
    filters: &mut PluginRegistry<JekyllPlugin>,
    table: &PluginRegistry<FilterPlugin<Beside<StdKind, JekyllKind>>>,
) -> Result<(), AllocError>
    ensures { OnOk result (filters.new ≡ registered filters.old (map Table (values table.now))) }
{
    for plugin in table.plugins() {
        register(filters, JekyllPlugin::Table(*plugin))?;
    }
    Ok(())
}

/// Registers filters that read names, under their own names.
fn register_named(
    filters: &mut PluginRegistry<JekyllPlugin>,
    kinds: &[NamedKind],
) -> Result<(), AllocError>
    ensures { OnOk result (filters.new ≡ registered filters.old (map Named kinds.now)) }
{
    for kind in kinds {
        register(filters, JekyllPlugin::Named(*kind))?;
    }
    Ok(())
}

/// Registers a filter under its name. It replaces a filter that has the name already.
fn register(
    filters: &mut PluginRegistry<JekyllPlugin>,
    plugin: JekyllPlugin,
) -> Result<(), AllocError>
    ensures { OnOk result (filters.new ≡ insert filters.old (plugin_name plugin) plugin) }
{
    filters.register(plugin.name(), plugin)?;
    Ok(())
}

/// Returns the kinds of Jekyll's filters that are functions of values.
fn kinds(now: Option<DateTime>) -> [JekyllKind; 23]
    ensures { result ≡ jekyll_kinds now }
{
    [
        JekyllKind::Texts(JekyllTextKind::CgiEscape),
        JekyllKind::Texts(JekyllTextKind::Inspect),
        JekyllKind::Texts(JekyllTextKind::Jsonify),
        JekyllKind::Texts(JekyllTextKind::NormalizeWhitespace),
        JekyllKind::Texts(JekyllTextKind::NumberOfWords),
        JekyllKind::Texts(JekyllTextKind::Slugify),
        JekyllKind::Texts(JekyllTextKind::StripIndex),
        JekyllKind::Texts(JekyllTextKind::ToInteger),
        JekyllKind::Texts(JekyllTextKind::UriEscape),
        JekyllKind::Texts(JekyllTextKind::XmlEscape),
        JekyllKind::Lists(JekyllListKind::ArrayToSentenceString),
        JekyllKind::Lists(JekyllListKind::Find),
        JekyllKind::Lists(JekyllListKind::GroupBy),
        JekyllKind::Lists(JekyllListKind::Pop),
        JekyllKind::Lists(JekyllListKind::Push),
        JekyllKind::Lists(JekyllListKind::Shift),
        JekyllKind::Lists(JekyllListKind::Sort),
        JekyllKind::Lists(JekyllListKind::Unshift),
        JekyllKind::Lists(JekyllListKind::Where),
        date_kind(DateForm::Short, now),
        date_kind(DateForm::Long, now),
        date_kind(DateForm::Xmlschema, now),
        date_kind(DateForm::Rfc822, now),
    ]
}

fn date_kind(form: DateForm, now: Option<DateTime>) -> JekyllKind
    ensures { result ≡ date_kind now form }
{
    JekyllKind::Dates(JekyllDateKind { form, now })
}
