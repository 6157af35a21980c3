//! Queries rewritten without a change of their rows: conditions of WHERE moved into joins, and partitions that a query
//! can't need.
#![tactic(auto)]

mod conditions;
mod fits;
mod keeping;
mod places;
mod push;
mod reach;
mod uses;
mod widths;

pub use fits::widths_fit;
pub use keeping::{PartitionTest, TableUse};
pub use push::push_down;
pub use uses::{prune, prune_rows};
pub use widths::are_wide;
