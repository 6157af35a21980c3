//! Items of a trail by the places of one share: each is there once.
#![tactic(auto)]

mod laws;

pub use laws::{items_go_together, items_stand_once};
