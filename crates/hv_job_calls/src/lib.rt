//! The calls of a house for compactions and cleaners: what is tested before each, in one order, and the step that it is.
#![tactic(auto)]

pub use hv_telling;

mod asking;
mod cleaning;
mod ending;
mod fault;
mod forgetting;
mod listing;
mod noting;
mod picking;
mod publishing;
mod staging;
mod sweeping;
mod tests;

pub use asking::ask;
pub use cleaning::{cleaned, remove};
pub use ending::{give_up, nothing};
pub use fault::JobFault;
pub use forgetting::{forget, remove_own};
pub use listing::{get_for_job, list_job};
pub use picking::pick;
pub use publishing::publish;
pub use staging::stage_put;
pub use sweeping::{places, sweep};
