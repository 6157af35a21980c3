//! Texts of rows that are written out, by their bytes: the INSERTs of which most of a journal is.
#![tactic(auto)]

mod columns;
mod cursor;
mod fault;
mod fronts;
mod insert;
mod laws;
mod literals;
mod partitions;
mod rows;
mod skims;

pub use fault::Unread;
pub use insert::read_values;
pub use laws::some_are_known;
pub use skims::skim_values;
