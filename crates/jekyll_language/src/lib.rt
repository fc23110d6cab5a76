//! The language of Jekyll's sites: the tags and blocks of standard Liquid, and Jekyll's own beside them; and all of Jekyll's
//! filters.
#![tactic(auto)]

pub mod expressions;
mod languages;
pub mod laws;
mod site;

pub use languages::{SiteBlocks, SiteTags, language};
pub use laws::{jekyll_is_isolated, outsides_agree_on_jekyll};
pub use site::{SiteFilters, SiteLanguage, site_language};
