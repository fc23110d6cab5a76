//! Scopes: a runtime over one base, on which frames are pushed and popped.
#![tactic(auto)]

mod chained_scopes;
mod flat_scopes;
mod frames;
mod index;
mod laws;
mod link;
mod links;
mod place;
mod table;

pub use chained_scopes::ChainedScopes;
pub use flat_scopes::{FlatScopes, Looks};
pub use laws::chained_and_flat_scopes_answer_alike;
