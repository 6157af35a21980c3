//! Queries over rows in memory, by several workers: the rows that one worker gives.
#![tactic(auto)]

mod parts;
mod standing;
mod workers;

pub use workers::{run_cut, run_on};
