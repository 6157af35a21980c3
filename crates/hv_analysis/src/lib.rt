//! From a statement as it is written to the typed one over the live tables, or its first fault.
#![tactic(auto)]

mod analysis;
mod asks;
mod changes;
mod creates;
mod descriptions;
mod drops;
mod merges;
mod queries;
mod settings;
mod shows;

pub use analysis::analyse;
