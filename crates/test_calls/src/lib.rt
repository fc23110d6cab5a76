//! Calls of the library's generic functions at concrete types, with plug-ins of a host's own. The tests of `tests/` are
//! not proved, so this crate shows that the contracts of these functions can be used: each call's premises are proved here.
#![tactic(auto)]

mod desk;
mod errors;
mod framed;
mod histories;
mod link;
mod numbers;
mod pages;
mod registries;
mod scopes;
mod standard;
mod stores;
mod twice;
mod views;

pub use desk::{Desk, DeskShape};
pub use errors::errors_answer;
pub use link::Link;
pub use pages::pages_are_rendered;
pub use registries::registries_answer;
pub use scopes::scopes_answer;
pub use standard::standard_pages_are_rendered;
pub use stores::stores_answer;
pub use twice::Twice;
pub use views::views_answer;
