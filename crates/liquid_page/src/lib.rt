//! The command `liquid page`: the names that pages see, the files they are made of, and where they go.
#![tactic(auto)]

pub mod check;
pub mod engine;
pub mod fault;
pub mod names;
pub mod plan;
pub mod request;
pub mod rewriting;
pub mod run;
mod shared;
pub mod uses;
mod warnings;
pub mod words;

pub use check::check_pages;
pub use engine::{Explain, PageEngine};
pub use fault::Fault;
pub use request::Request;
pub use rewriting::{AsItIs, FromJekyll, Rewrite};
pub use run::{Outcome, run_page};
pub use shared::SharedSource;
pub use uses::{Place, Uses};
pub use words::{NoRequest, Task, read_render_words, read_words};
