//! Strings as URLs and as parts of URLs.
mod authority;
mod cuts;
mod normal;
mod parting;
mod parts;
mod path;
mod sites;

pub use normal::normal_url;
pub use parts::{UrlPart, clean};
pub use sites::{absolute_url, relative_url};
