//! What compaction jobs make and cover, by a book's entries alone: definitions.
#![tactic(auto)]

pub use hv_history;
