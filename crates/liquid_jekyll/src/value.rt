//! Jekyll's filters, as functions of values.
mod lists;
mod numbers;
mod texts;
mod urls;

pub use lists::{array_to_sentence_string, pop, push, shift, unshift};
pub use numbers::to_integer;
pub use texts::{
    normalize_whitespace, number_of_words, slugify, strip_index, uri_escape, xml_escape,
};
pub use urls::{absolute_url, relative_url};
