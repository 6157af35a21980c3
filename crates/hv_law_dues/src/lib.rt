//! What commits say of their rows is what they wrote, and what their files have.
#![tactic(auto)]

pub use hv_counts;

mod laws;

pub use laws::{counted_by_hand, dues_count_writes, files_are_counted, touches_count_rows};
