//! What explains an error of a template: where its text can't be read and what was expected there, the line of a place
//! with a mark, and names that are spelled nearly as another.
#![tactic(auto)]

mod elements;
mod filters;
mod found;
mod hints;
mod narrow;
mod near;
mod part;
mod position;
mod snippet;
mod stop;
mod tokens;
mod unreadable;
mod values;

pub use elements::find_stop;
pub use narrow::{Span, element_at, find_filter, find_variable};
pub use near::NearNames;
pub use part::{Part, Parts};
pub use position::{front_of, text_from};
pub use snippet::{Mark, write_snippet};
pub use stop::Stop;
pub use unreadable::{Unreadable, explain_unreadable};
