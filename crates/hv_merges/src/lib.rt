//! Typing of a MERGE over what stands behind its USING.
#![tactic(auto)]

mod merges;

pub use merges::merge_over;
