//! What stands under a lock: no two statements that run hold locks that conflict, and what a statement's names mean
//! stays what it was at its snapshot.
#![tactic(auto)]

mod laws;

pub use laws::{created_names_are_free, dropped_tables_are_named, given_tables_live, locks_hold};
