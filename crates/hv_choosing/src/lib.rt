//! Which files of a table a reader takes under its list of write ids.
#![tactic(auto)]

mod dir;
mod laws;
mod listing;
mod runs;
mod taken;

pub use dir::{Dir, Span};
pub use laws::own_files_are_taken;
pub use listing::{DirFile, list_files};
pub use taken::{Taken, take_files};
