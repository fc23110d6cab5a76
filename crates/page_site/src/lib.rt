//! The pages of a site: what is rendered and what is copied, within which layouts, and which files are written; and the data
//! of pages.
#![tactic(auto)]

pub mod data_files;
pub mod engine;
pub mod fault;
pub mod front;
pub mod items;
pub mod layouts;
pub mod messages;
pub mod partials;
pub mod writing;
mod yaml;

pub use engine::{Engine, Failure, Source};
pub use fault::{PageFault, SiteFault};
pub use items::{Item, add_items, find_clash, is_page, page_name};
pub use layouts::{Partials, render_page};
pub use messages::{reason_of, report};
pub use partials::{PartialNames, read_partials, read_text};
pub use writing::{Site, Tally, make, write_item, write_items};
