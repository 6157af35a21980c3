//! What a commit, a compaction, a removal and an aborted write do to a partition's directories:
//! definitions, and the laws about them.
#![tactic(auto)]

mod laws;

pub use laws::{
    a_commit_keeps, a_job_gathers_its_records, a_loose_directory_is_retired,
    a_new_partition_is_kept, a_published_job_keeps, a_removal_keeps, an_aborted_write_keeps,
    an_open_list_shows_content, each_other_entry_keeps, steps_by_hand,
};
