//! Who acts on a house: alone, or with others between.
#![tactic(auto)]

mod actor;
mod crowd;
mod laws;

pub use actor::{Act, Actor, Housed};
pub use crowd::{Crowd, Others};
pub use laws::{
    alone_adds_its_own, houses_go_on, own_places_have_own_items, steps_go_together, who_is_alone,
};
