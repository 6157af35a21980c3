//! The parts of a change of a table: INSERT with its PARTITION, its columns and its source, UPDATE, DELETE and TRUNCATE.
//!
//! The target is found, and a query as a source is taken, by the crate above.
#![tactic(auto)]

mod asks;
mod columns;
mod inserts;
mod laws;
mod partitions;
mod queries;
mod targets;
mod updates;
mod values;

pub use asks::list_typed;
pub use columns::{column_kinds, columns_of, fields_named};
pub use inserts::{query_inserted, rows_inserted};
pub use laws::parts_meet_alike;
pub use targets::targets_of;
pub use updates::{all_set, deleted, truncated, updated};
pub use values::{converted_row, converts};
