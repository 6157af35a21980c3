//! That the files of a book with compactions stand as directories: definitions and laws.
#![tactic(auto)]

pub use hv_law_directories;
pub use hv_law_made;

mod laws;

pub use laws::{
    covered_are_listed, files_are_whole, finals_are_said, jobs_are_shown, jobs_read_up_to_mark,
    listed_are_covered, listed_once, major_jobs_gather, minor_jobs_gather, partitions_are_kept,
    readers_are_shown, rows_go_once, the_end_is_shown,
};
