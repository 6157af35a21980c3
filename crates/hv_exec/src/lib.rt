//! Queries over rows in memory.
#![tactic(auto)]

mod distinct;
mod from;
mod groups;
mod items;
mod queries;
mod selects;
mod tables;
mod unions;
mod views;
mod wanted;

pub use distinct::once;
pub use from::over_from;
pub use groups::{grouped_rows, rows_shown};
pub use items::{filtered, item_rows};
pub use queries::{from_nothing, front_of, rows_of_source, run, source_rows, turns_of};
pub use unions::with;
