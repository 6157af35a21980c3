//! That the files of a statement stand, beside those of others and of compactions: definitions and laws.
#![tactic(auto)]

pub use hv_law_made;

mod laws;

pub use laws::{commits_stand, entries_stand, files_are_put, puts_stand};
