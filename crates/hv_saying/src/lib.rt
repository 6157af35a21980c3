//! A session's statements, one after another, over whoever acts on the house.
#![tactic(auto)]

mod laws;
mod saying;

pub use laws::owning_is_plain;
pub use saying::say_all;
