//! A store over the files of one folder.
//!
//! The folder holds the file `journal`, the file `lock`, and under `tables` one folder a table, in
//! which the pieces of a partition's text are nested folders, as `tables/0000001/k=x/ds=2024-01-01`,
//! and in these the directories with their files, as `delta_0000001_0000001_0000/bucket_00000`.
#![tactic(auto)]

mod asked;
mod counts;
mod file_shelf;
mod held;
mod home;
mod known;
mod real;
mod system;
mod tree;

pub use asked::{Change, Part};
pub use file_shelf::FileShelf;
pub use hv_paths::{Cause, FileFault};
pub use real::RealFiles;
pub use system::{Stand, System};
