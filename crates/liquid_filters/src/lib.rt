//! The standard filters, in a table: each row has a name, parameters and a function of values. A host adds its own
//! filters as further rows.
#![tactic(auto)]

pub mod arguments;
pub mod beside;
pub mod call;
pub mod date_kind;
pub mod dates;
pub mod json_text;
pub mod kinds;
pub mod laws;
pub mod list;
pub mod list_kinds;
pub mod number;
pub mod number_kinds;
mod parameters;
pub mod plugin;
pub mod registry;
pub mod row;
pub mod sort;
pub mod string;
pub mod text_kinds;
pub mod value;
pub mod value_kinds;
pub mod values;

pub use arguments::CallArguments;
pub use beside::Beside;
pub use call::FilterCall;
pub use date_kind::DateKind;
pub use kinds::StdKind;
pub use list_kinds::ListKind;
pub use number_kinds::NumberKind;
pub use plugin::FilterPlugin;
pub use registry::{filters, filters_beside, register, register_all};
pub use row::{FilterKind, FilterRow};
pub use text_kinds::TextKind;
pub use value_kinds::ValueKind;
