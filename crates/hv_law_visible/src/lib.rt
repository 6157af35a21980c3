//! Which rows of a partition its directories show under a list of write ids: definitions, and the
//! laws about them.
#![tactic(auto)]

mod laws;

pub use laws::{
    choices_by_hand, chooses_no_loose, compaction_shows_content, list_says_fates, list_says_up_to,
    shows_content, snapshot_shows_content, stays_known, stays_since,
};
