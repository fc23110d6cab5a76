//! A shop: an example over the engine, the tag library and the standard filters, with a filter, a tag and blocks of its
//! own. The program `example_pages` writes its page.
#![tactic(auto)]

pub mod badge;
pub mod filters;
pub mod languages;
pub mod pages;
pub mod stock;
pub mod twice;
