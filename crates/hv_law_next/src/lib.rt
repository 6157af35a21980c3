//! The entry that one thread adds next for a statement, and how it carries a statement on.
#![tactic(auto)]

mod laws;

pub use laws::{carries_on, stays_at_hold, worked_by_hand};
