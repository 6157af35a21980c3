//! Which tables a statement names, each with its lock.
#![tactic(auto)]

mod asking;
mod naming;

pub use asking::locks_conflict;
pub use naming::names_in;
