//! Links between the items of a list that are of one group, so that one group is walked without the others.
#![tactic(auto)]

mod links;

pub use links::Links;
