//! The directories of each partition that files are, and what is read of them.
#![tactic(auto)]

pub use hv_law_partitions;
pub use hv_stands;
pub use hv_table_rows;

mod laws;

pub use laws::{directories_by_hand, files_can_be_read, listed_are_directories, rows_are_visible};
