//! What GROUP BY asks of expressions: which have an aggregate, which are equal, and which may stand in a
//! select with groups.
#![tactic(auto)]

mod aggregates;
mod numbers;
mod same;
mod standing;

pub use aggregates::has_aggregate;
pub use same::same_tree;
pub use standing::{is_key, stands_grouped};
