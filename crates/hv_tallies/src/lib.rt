//! What the write ids of a table and the jobs of a partition come to over a book, and which directories a job covers.
#![tactic(auto)]

pub use hv_earlier;

mod covering;
mod covers;
mod events;
mod open_ids;
mod rows;
mod survey;
mod tally;
mod walking;

pub use covering::{Within, covered, found_within};
pub use covers::may_go;
pub use survey::{Survey, asked_at, is_asked_of, minor_low, survey_in, was_busy};
pub use tally::{Reach, Tally, both, either, one_more};
pub use walking::walk;
