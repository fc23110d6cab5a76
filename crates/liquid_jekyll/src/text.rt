//! Operations on texts that Jekyll's filters use.
mod character_sets;
mod escape;
mod index;
mod latin;
mod numerals;
mod quotes;
mod runs;
mod slugs;
mod spaces;
mod typography;
mod words;

pub use escape::xml_escape;
pub use index::strip_index;
pub use numerals::numeral;
pub use runs::without_slash;
pub use slugs::{SlugMode, slugify};
pub use spaces::strip_spaces;
pub use typography::smartify;
pub use words::{WordMode, normalize_whitespace, number_of_words};
