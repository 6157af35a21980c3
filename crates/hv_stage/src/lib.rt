//! The stages that carry out a query, and the line that names them.
#![tactic(auto)]

mod line;
mod stages;

pub use line::explain;
pub use stages::{Stages, plan_stages};
