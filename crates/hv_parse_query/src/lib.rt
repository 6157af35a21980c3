//! Queries, and the names of tables, by their tokens.
#![tactic(auto)]

mod clauses;
mod laterals;
mod laws;
mod names;
mod queries;

pub use clauses::{condition, unboxed};
pub use laws::{read_is_spelled, spelled_is_read};
pub use names::{optional_alias, table_name};
pub use queries::{any_query, any_source};
