//! A house whose store tells: what is true of it between two calls, and that its calls keep it.
#![tactic(auto)]

pub use hv_house;
pub use hv_law_work;

mod jobs;
mod laws;
mod telling;

pub use jobs::{forget_bare, publish, put_staged, take_away};
pub use laws::{faithful_is_left, opened_is_whole, reads_keep_whole, told_stays, true_shows};
pub use telling::{begin, note, put};
