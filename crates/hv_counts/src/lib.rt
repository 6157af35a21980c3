//! How many rows the commits of a table say, and whether the files that were read of it have so many.
#![tactic(auto)]

mod beside;
mod counted;
mod due;
mod dues;
mod level;
mod miscount;
mod spot;
mod tally;

pub use counted::Counted;
pub use due::Due;
pub use dues::dues_at;
pub use miscount::{Miscount, are_own, first_miscount};
