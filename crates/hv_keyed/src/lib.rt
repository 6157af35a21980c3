//! Rows by their keys: groups, DISTINCT and joins. Generic over the rows and the keys, so that rows may be
//! references.
#![tactic(auto)]

mod chain;
mod grouping;
mod joins;
mod merging;

pub use chain::{Chain, Chains, build};
pub use grouping::{GroupFold, Groups, enter_with, fold_groups};
pub use joins::{
    Joining, alone, alone_on, first_matches, first_matches_on, inner, inner_on, left_outer,
    left_outer_on, semi, semi_on,
};
pub use merging::{Merging, fold_entries, merged_groups};
