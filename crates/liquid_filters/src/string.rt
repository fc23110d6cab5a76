//! The standard filters on the text of their input.
mod appending;
mod case;
mod encoding;
mod html;
mod laws;
mod lines;
mod replacement;
mod splitting;
mod stripping;
mod truncation;

pub use appending::{append, prepend};
pub use case::{capitalize, downcase, upcase};
pub use encoding::{
    base64_decode, base64_encode, base64_url_safe_decode, base64_url_safe_encode, url_decode,
    url_encode,
};
pub use html::{escape, escape_once, strip_html};
pub use laws::{base64_is_read_back, base64_url_safe_is_read_back};
pub use lines::{newline_to_br, strip_newlines};
pub use replacement::{remove, remove_first, remove_last, replace, replace_first, replace_last};
pub use splitting::split;
pub use stripping::{lstrip, rstrip, strip};
pub use truncation::{slice, truncate, truncatewords};
