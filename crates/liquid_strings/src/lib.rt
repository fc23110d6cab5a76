//! Operations on strings that the standard filters use.
#![tactic(auto)]

mod cases;
mod html;
mod laws;
mod parts;
mod replacement;
mod slices;
mod tags;
mod truncation;
mod url;
mod utf8;

pub use cases::{capitalize, to_lowercase};
pub use html::{escape, escape_once};
pub use laws::{
    escaped_is_left_alone, lower_case_is_by_parts, stripped_texts_have_no_tag, url_is_read_back,
    words_are_runs,
};
pub use parts::{characters, pieces, split, words};
pub use replacement::{replace, replace_first, replace_last, replace_line_ends};
pub use slices::{slice, slice_items};
pub use tags::strip_tags;
pub use truncation::{cut, truncate, truncate_words};
pub use url::{url_decode, url_encode};
pub use utf8::text_of_bytes;
