//! Conditions with `and`, `or` and `contains` by either of two equalities, and the parts that `if`, `unless` and `case` choose.
pub mod branches;
pub mod condition;
pub mod contained;
pub mod equality;
pub mod read_condition;
pub mod read_values;

pub use branches::{Case, part_case, part_if, part_unless};
pub use condition::{Condition, Connective, Operator, Test, holds};
pub use contained::contains;
pub use equality::{Equality, are_equal};
