//! Jekyll's language with Jekyll's filters.
ghost use Rattle.std.specs.Prelude.{◌≡◌, IfOk};
ghost use Rattle.jekyll_language.specs.meaning.Languages.{meaning_of};
ghost use Rattle.jekyll_language.specs.meaning.Site.{filter_made, site_language};

use crate::expressions::{PagePlugin, filters};
use crate::languages::{SiteBlocks, SiteTags, language};
use liquid_core::Language;
use liquid_dates::DateTime;
use std::alloc::{AllocError, Global};

/// The standard filters, and Jekyll's.
pub type SiteFilters = PagePlugin;

/// Jekyll's language with Jekyll's filters.
pub type SiteLanguage = Language<SiteFilters, SiteTags, SiteBlocks>;

/// Returns Jekyll's language with the standard filters and Jekyll's, which replace those of the same name.
///
/// The filters on dates read the texts `now` and `today` as the moment that is given. Without a moment they are not dates.
/// An `Err` means out of memory.
pub fn site_language(alloc: Global, now: Option<DateTime>) -> Result<SiteLanguage, AllocError>
    ensures { IfOk result (λ l. meaning_of filter_made l ≡ site_language now) }
{
    language(alloc, filters(alloc, now)?)
}
