//! Texts as statements: SET by its own rule, the others by their tokens.
#![tactic(auto)]

mod fault;
mod laws;
mod reading;

pub use fault::TextFault;
pub use laws::runs_and_is_not_refused;
pub use reading::{read_statement, read_text, skim_statement};
