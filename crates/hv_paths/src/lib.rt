//! The names and paths of a store in a folder, and why a call on files is refused.
//!
//! The folder holds the file `journal`, the file `lock`, and under `tables` one folder a table, in
//! which the pieces of a partition's text are nested folders, as `tables/0000001/k=x/ds=2024-01-01`,
//! and in these the directories with their files, as `delta_0000001_0000001_0000/bucket_00000`.
#![tactic(auto)]

mod dirs;
mod fault;
mod laws;
mod names;
mod paths;

pub use dirs::{dir_path, file_path, working_path};
pub use fault::{Cause, FileFault, cause_of};
pub use laws::{folders_differ, names_are_safe, names_differ, tables_are_known};
pub use names::{
    Entry, bucket_name, dir_name, entry_of, folders_of, has_slash, is_ours, is_table,
    outer_folders, read_bucket, table_name,
};
pub use paths::{
    above, journal_path, lock_path, outer_of, partition_path, path_below, path_in, table_path,
    tables_path,
};
