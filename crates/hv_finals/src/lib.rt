//! The directories that a compaction job at work is to make: which they are, whether a store lists them, and which go where it is given up.
#![tactic(auto)]

pub use hv_law_made;

mod clearing;
mod dirs;
mod ending;
mod looking;
mod merging;

pub use clearing::clear;
pub use dirs::{failing_dirs, final_dirs};
pub use ending::{JobEnd, end_of};
pub use looking::{find_whole, is_listed};
pub use merging::{Merge, is_at_work, merge_of};
