//! How a statement of a session begins, over whoever acts on the house: opened with its Start at once, or, where something stands in its way,
//! opened and ended act by act, so that others may act on the house between.
#![tactic(auto)]

pub use hv_steps;

mod opening;

pub use opening::{begin, started_as, unopened};
