//! The code that gives what a statement comes to over the tables that it names.
#![tactic(auto)]

mod asks;
mod changes;
mod deletes;
mod describing;
mod explaining;
mod merging;
mod needs;
mod rows;
mod statement;
mod studied;
mod touching;

pub use needs::Need;
pub use statement::meaning_in;
pub use studied::{Studied, Typed, mean, study};
pub use touching::{Touching, untouched};
