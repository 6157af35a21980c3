//! A store over another one that keeps in memory which files the tables have, so that a table is
//! listed once.
#![tactic(auto)]

mod kept;
mod names;
mod settling;

pub use kept::KeptShelf;
