//! What compaction jobs merge and when they are due, worked out by hand; the laws of jobs in a book.
#![tactic(auto)]

mod laws;

pub use laws::{
    jobs_are_sound, jobs_by_hand, jobs_fit_by_hand, jobs_go_on, jobs_last, published_go_further,
    thresholds_by_hand,
};
