//! All of Jekyll's filters.
ghost use Rattle.std.specs.Prelude.{◌≡◌, [], ◌∷◌, map, IfOk, OnOk};
ghost use Rattle.std.specs.FinMap.{empty, values};
ghost use Rattle.jekyll_language.specs.declared.expressions.plugin.PluginOver.TheVariants.{Expression, Group, Plain};
ghost use Rattle.jekyll_language.specs.meaning.expressions.Table.{page_filters, registered};

use crate::expressions::grouping::{GROUP_BY_EXP, GroupPlugin};
use crate::expressions::kinds::ExpressionKind;
use crate::expressions::plugin::{PagePlugin, PluginOver};
use liquid_dates::DateTime;
use liquid_jekyll::JekyllPlugin;
use liquid_plugins::{FilterReflection, PluginRegistry};
use std::alloc::{AllocError, Global};

/// Returns the filters of `liquid_jekyll`, and those with a condition or a chain. The filters on dates read the strings `now`
/// and `today` as the moment that is given. Without a moment they are not dates.
///
/// The chain of `group_by_exp` has these filters too, and none that are registered beside them.
pub fn filters(
    alloc: Global,
    now: Option<DateTime>,
) -> Result<PluginRegistry<PagePlugin>, AllocError>
    ensures { IfOk result (λ r. r ≡ page_filters now) }
{
    let plain = liquid_jekyll::filters(alloc, now)?;
    let mut chained = without_chains(alloc, &plain)?;
    let mut filters = without_chains(alloc, &plain)?;
    register_group(&mut chained, plain)?;
    register_group(&mut filters, chained)?;
    Ok(filters)
}

/// Returns the filters of a registry, and those with a condition.
fn without_chains<P: Drop>(
    alloc: Global,
    plain: &PluginRegistry<JekyllPlugin>,
) -> Result<PluginRegistry<PluginOver<P>>, AllocError>
    ensures { IfOk result (λ r. r ≡ registered (registered empty (map Plain (values plain.now)))
        (Expression ExpressionKind.WhereExp ∷ Expression ExpressionKind.FindExp ∷ [])) }
{
    let mut filters = PluginRegistry::new(alloc);
    register_plain(&mut filters, plain)?;
    register_expression(&mut filters, ExpressionKind::WhereExp)?;
    register_expression(&mut filters, ExpressionKind::FindExp)?;
    Ok(filters)
}

/// Registers the filters of a registry under their names. They replace filters that have these names already.
fn register_plain<P: Drop>(
    filters: &mut PluginRegistry<PluginOver<P>>,
    plain: &PluginRegistry<JekyllPlugin>,
) -> Result<(), AllocError>
    ensures { OnOk result (filters.new ≡ registered filters.old (map Plain (values plain.now))) }
{
    for plugin in plain.plugins() {
        filters.register(plugin.name(), PluginOver::Plain(*plugin))?;
    }
    Ok(())
}

/// Registers a filter with a condition under its name.
fn register_expression<P: Drop>(
    filters: &mut PluginRegistry<PluginOver<P>>,
    kind: ExpressionKind,
) -> Result<(), AllocError>
    ensures { OnOk result (filters.new ≡ registered filters.old (Expression kind ∷ [])) }
{
    filters.register(kind.name(), PluginOver::Expression(kind))?;
    Ok(())
}

/// Registers the filter with a chain, which has the filters of a registry, under its name.
fn register_group<P: Drop>(
    filters: &mut PluginRegistry<PluginOver<P>>,
    chained: PluginRegistry<P>,
) -> Result<(), AllocError>
    ensures { OnOk result (filters.new ≡ registered filters.old (Group (record { filters = chained }) ∷ [])) }
{
    let group = PluginOver::Group(GroupPlugin { filters: chained });
    filters.register(GROUP_BY_EXP, group)?;
    Ok(())
}
