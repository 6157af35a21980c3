//! The rows that a reader sees in a bucket's files, merged in one pass, and the records that a compaction gathers.
#![tactic(auto)]

mod deletes;
mod gathering;
mod heads;
mod merging;
mod order;
mod rising;
mod shown;
mod turns;

pub use gathering::gather;
pub use merging::merge;
pub use rising::rises;
pub use shown::Shown;
