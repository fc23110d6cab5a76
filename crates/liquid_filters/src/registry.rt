//! Registries of filters by their names.
ghost use Rattle.std.specs.Prelude.{◌≡◌, IfOk, OnErr, OnOk, map};
ghost use Rattle.liquid_filters.specs.declared.beside.Beside.TheVariants.{Library, Own};
ghost use Rattle.liquid_filters.specs.meaning.Registered.{
  filters_beside,
  register,
  registered,
  sense_beside,
  standard_filters,
  FirstOnes,
};

use crate::beside::Beside;
use crate::date_kind::DateKind;
use crate::kinds::StdKind;
use crate::list_kinds::ListKind;
use crate::number_kinds::NumberKind;
use crate::plugin::FilterPlugin;
use crate::row::FilterKind;
use crate::text_kinds::TextKind;
use crate::value_kinds::ValueKind;
use liquid_dates::DateTime;
use liquid_plugins::PluginRegistry;
use std::alloc::{AllocError, Global};

/// All standard filters except `date`.
const TIMELESS_KINDS: [StdKind; 64] = [
    StdKind::Texts(TextKind::Append),
    StdKind::Texts(TextKind::Base64Decode),
    StdKind::Texts(TextKind::Base64Encode),
    StdKind::Texts(TextKind::Base64UrlSafeDecode),
    StdKind::Texts(TextKind::Base64UrlSafeEncode),
    StdKind::Texts(TextKind::Capitalize),
    StdKind::Texts(TextKind::Downcase),
    StdKind::Texts(TextKind::Escape),
    StdKind::Texts(TextKind::EscapeOnce),
    StdKind::Texts(TextKind::H),
    StdKind::Texts(TextKind::Lstrip),
    StdKind::Texts(TextKind::NewlineToBr),
    StdKind::Texts(TextKind::Prepend),
    StdKind::Texts(TextKind::Remove),
    StdKind::Texts(TextKind::RemoveFirst),
    StdKind::Texts(TextKind::RemoveLast),
    StdKind::Texts(TextKind::Replace),
    StdKind::Texts(TextKind::ReplaceFirst),
    StdKind::Texts(TextKind::ReplaceLast),
    StdKind::Texts(TextKind::Rstrip),
    StdKind::Texts(TextKind::Slice),
    StdKind::Texts(TextKind::Split),
    StdKind::Texts(TextKind::Strip),
    StdKind::Texts(TextKind::StripHtml),
    StdKind::Texts(TextKind::StripNewlines),
    StdKind::Texts(TextKind::Truncate),
    StdKind::Texts(TextKind::TruncateWords),
    StdKind::Texts(TextKind::Upcase),
    StdKind::Texts(TextKind::UrlDecode),
    StdKind::Texts(TextKind::UrlEncode),
    StdKind::Lists(ListKind::Compact),
    StdKind::Lists(ListKind::Concat),
    StdKind::Lists(ListKind::Find),
    StdKind::Lists(ListKind::FindIndex),
    StdKind::Lists(ListKind::First),
    StdKind::Lists(ListKind::Has),
    StdKind::Lists(ListKind::Join),
    StdKind::Lists(ListKind::Last),
    StdKind::Lists(ListKind::Map),
    StdKind::Lists(ListKind::Reject),
    StdKind::Lists(ListKind::Reverse),
    StdKind::Lists(ListKind::Sort),
    StdKind::Lists(ListKind::SortNatural),
    StdKind::Lists(ListKind::SortNumeric),
    StdKind::Lists(ListKind::Sum),
    StdKind::Lists(ListKind::Uniq),
    StdKind::Lists(ListKind::Where),
    StdKind::Numbers(NumberKind::Abs),
    StdKind::Numbers(NumberKind::AtLeast),
    StdKind::Numbers(NumberKind::AtMost),
    StdKind::Numbers(NumberKind::Ceil),
    StdKind::Numbers(NumberKind::Decimal),
    StdKind::Numbers(NumberKind::DividedBy),
    StdKind::Numbers(NumberKind::Floor),
    StdKind::Numbers(NumberKind::FromMinor),
    StdKind::Numbers(NumberKind::Minus),
    StdKind::Numbers(NumberKind::Modulo),
    StdKind::Numbers(NumberKind::Plus),
    StdKind::Numbers(NumberKind::Round),
    StdKind::Numbers(NumberKind::Times),
    StdKind::Numbers(NumberKind::ToMinor),
    StdKind::Values(ValueKind::Default),
    StdKind::Values(ValueKind::Json),
    StdKind::Values(ValueKind::Size),
];

/// Returns the standard filters. `date` reads the strings `now` and `today` as the moment that is given. Without a moment
/// they are not dates.
pub fn filters(
    alloc: Global,
    now: Option<DateTime>,
) -> Result<PluginRegistry<FilterPlugin<StdKind>>, AllocError>
    ensures { IfOk result (λ r. r ≡ standard_filters now) }
{
    let mut filters = PluginRegistry::new(alloc);
    register_all(&mut filters, &TIMELESS_KINDS)?;
    register(&mut filters, StdKind::Dates(DateKind { now }))?;
    Ok(filters)
}

/// Returns the filters of [`filters`] and a host's own, which replace those of the same name.
pub fn filters_beside<O: FilterKind>(
    alloc: Global,
    now: Option<DateTime>,
    own: &[O],
) -> Result<PluginRegistry<FilterPlugin<Beside<StdKind, O>>>, AllocError>
    ensures { IfOk result (λ r. r ≡ filters_beside O.sense now own.now) }
{
    let mut filters = PluginRegistry::new(alloc);
    register_library(&mut filters, &TIMELESS_KINDS)?;
    register(
        &mut filters,
        Beside::Library(StdKind::Dates(DateKind { now })),
    )?;
    register_own(&mut filters, own)?;
    Ok(filters)
}

/// Registers a library's filters under their names, in order.
fn register_library<L: FilterKind, O: FilterKind>(
    filters: &mut PluginRegistry<FilterPlugin<Beside<L, O>>>,
    kinds: &[L],
) -> Result<(), AllocError>
    ensures { OnOk result (filters.new ≡ registered (sense_beside L.sense O.sense) filters.old (map Library kinds.now)) }
{
    for kind in kinds {
        register(filters, Beside::Library(*kind))?;
    }
    Ok(())
}

/// Registers a host's own filters under their names, in order.
fn register_own<L: FilterKind, O: FilterKind>(
    filters: &mut PluginRegistry<FilterPlugin<Beside<L, O>>>,
    kinds: &[O],
) -> Result<(), AllocError>
    ensures { OnOk result (filters.new ≡ registered (sense_beside L.sense O.sense) filters.old (map Own kinds.now)) }
{
    for kind in kinds {
        register(filters, Beside::Own(*kind))?;
    }
    Ok(())
}

/// Registers the filter under its name. It replaces a filter that has the name already. If memory runs out, nothing
/// changes.
pub fn register<K: FilterKind>(
    filters: &mut PluginRegistry<FilterPlugin<K>>,
    kind: K,
) -> Result<(), AllocError>
    ensures ok { OnOk result (filters.new ≡ register K.sense filters.old kind) }
    ensures err { OnErr result (filters.new ≡ filters.old) }
{
    filters.register(kind.row().name, FilterPlugin { kind })?;
    Ok(())
}

/// Registers the filters under their names, in order. If memory runs out, the first ones are registered, maybe none.
pub fn register_all<K: FilterKind>(
    filters: &mut PluginRegistry<FilterPlugin<K>>,
    kinds: &[K],
) -> Result<(), AllocError>
    ensures ok { OnOk result (filters.new ≡ registered K.sense filters.old kinds.now) }
    ensures err { OnErr result (FirstOnes K.sense filters.old kinds.now filters.new) }
{
    for kind in kinds {
        register(filters, *kind)?;
    }
    Ok(())
}
