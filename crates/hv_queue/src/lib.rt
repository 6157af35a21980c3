//! What compaction is due over a book, and how far its jobs have come.
#![tactic(auto)]

pub use hv_history;
pub use hv_tallies;

mod digits;
mod queue;
mod settings;

pub use queue::{JobPieces, JobState, due, is_empty, is_live, job_state, pieces, watermark};
